// The free squares of a box: those that no region of a table holds.
#![tactic(auto)]

ghost use Rattle.std.specs.Prelude.{◌≡◌, ◌≤◌, length};
ghost use Rattle.spacing.specs.Sizes.{SmallBox, live_room};
ghost use Rattle.free.specs.Free.{free_in, Serves, Fillable};
ghost use Rattle.geometry.specs.Places.{Listed};
ghost use Rattle.free.specs.Places.{at_places};

use arrayvec::ArrayVec;
use counting::is_empty;
use geometry::{Rect, box_size};
use left::{LIVE_ROOM, Left};
use parts::{first_near, last_near};
use spacing::Region;

mod counting;
mod cuts;
mod left;
mod parts;

// A part of a table of regions, from one to before another.
#[derive(Clone, Copy)]
pub struct Part {
    pub from: usize,
    pub to: usize,
}

// The places of all regions of a table.
fn all_places(regions: &[Region]) -> ArrayVec<u16, LIVE_ROOM>
    requires { length regions.now ≤ live_room }
    ensures listed { Listed regions.now result.items }
    ensures each { at_places regions.now result.items ≡ regions.now }
    ensures count { length result.items ≡ length regions.now }
{
    let mut places = ArrayVec::new();
    for i in 0..regions.len() {
        places.push(i as u16);
    }
    places
}

// The squares of a box that no region of a table holds.
fn squares_outside(regions: &[Region], b: Rect) -> u64
    requires few { length regions.now ≤ live_room }
    requires small_box { SmallBox b }
    ensures { result ≡ free_in regions.now b }
{
    if is_empty(b) {
        return 0;
    }
    // Without a region there is no lead; before the first cut any will do.
    if regions.is_empty() {
        return box_size(b);
    }
    let places = all_places(regions);
    let left = Left {
        bounds: b,
        regions,
        places: places.as_slice(),
    };
    left.free_by(places[0])
}

// The squares of a box, such as a tile, that no region of a table holds, by a part
// of the table that is enough for the box. Where the regions are those of shapes,
// it is the fillable area.
pub fn fillable(regions: &[Region], near: Part, b: Rect) -> u64
    requires few { length regions.now ≤ live_room }
    requires small_box { SmallBox b }
    requires serves { Serves regions.now b near }
    ensures free { result ≡ free_in regions.now b }
    ensures eligible { Fillable regions.now b result }
{
    squares_outside(&regions[near.from..near.to], b)
}

// A part of a table that is enough for a box and for every box inside: from the
// first to the last region that comes near. The contract leaves open which part
// it is, since every one that serves gives the same areas.
pub fn part_near(regions: &[Region], b: Rect) -> Part
    requires { SmallBox b }
    ensures { Serves regions.now b result }
{
    match (first_near(regions, b), last_near(regions, b)) {
        (Some(from), Some(last)) => Part { from, to: last + 1 },
        _ => Part { from: 0, to: 0 },
    }
}
