// Rectangles, the covered area of a box and the shapes under it, what a search for
// an extreme finds, and boxes that are cut in two.

#![tactic(auto)]

ghost use Rattle.std.specs.Prelude.{◌+◌, ◌-◌, ◌^◌, ◌<◌, ◌≡◌};
ghost use Rattle.geometry.specs.Sizes.{SmallRect};
ghost use Rattle.geometry.specs.Layout.{shares_square, cover_of, window_box, Layer};
ghost use Rattle.geometry.specs.Overlaps.{common, overlap};
ghost use Rattle.geometry.specs.Extreme.{better, replaced};

mod cuts;

pub use cuts::{box_size, nearer_middle, part_before, part_behind, smaller_part};

// How many rectangles a layer may have.
pub const MOST_RECTS: usize = 1024;

// The unit squares from x1 to before x2 and from y1 to before y2: a
// rectangle of metal, a window, a tile.
#[derive(Clone, Copy, Default)]
pub struct Rect {
    pub x1: u64,
    pub y1: u64,
    pub x2: u64,
    pub y2: u64,
}

// Where a box is cut in two.
#[derive(Clone, Copy)]
pub enum Cut {
    Column(u64),
    Row(u64),
}

// Lines that a box may be cut at, one on each axis; its low side where there is none.
#[derive(Clone, Copy)]
pub struct Lines {
    pub column: u64,
    pub row: u64,
}

// The metal in a box: the covered area, and how many rectangles share a unit
// square with it.
#[derive(Clone, Copy)]
pub struct Cover {
    pub area: u64,
    pub shapes: u64,
}

// A window, named by its lower left corner, with its area.
#[derive(Clone, Copy)]
pub struct Spot {
    pub area: u64,
    pub x: u64,
    pub y: u64,
}

// Which extreme is looked for.
#[derive(Clone, Copy)]
pub enum Sense {
    Greatest,
    Least,
}

// How many numbers the spans a to b and c to d have in common.
pub fn common_length(a: u64, b: u64, c: u64, d: u64) -> u64
    ensures { result ≡ common a b c d }
{
    b.min(d).saturating_sub(a.max(c))
}

// The unit squares that a rectangle shares with a box.
pub fn overlap_of(r: Rect, b: Rect) -> u64
    requires { SmallRect r }
    ensures { result ≡ overlap r b }
{
    let across = common_length(r.x1, r.x2, b.x1, b.x2);
    let down = common_length(r.y1, r.y2, b.y1, b.y2);
    across * down
}

// The window of side w at (x, y).
pub fn window_box(w: u64, x: u64, y: u64) -> Rect
    requires { (x + w < 2 ^ 64) × (y + w < 2 ^ 64) }
    ensures { result ≡ window_box w x y }
{
    Rect {
        x1: x,
        y1: y,
        x2: x + w,
        y2: y + w,
    }
}

// The area of a box and the shapes under it.
pub fn cover_of(rects: &[Rect], b: Rect) -> Cover
    requires { Layer rects.now }
    ensures { result ≡ cover_of rects.now b }
{
    let mut area: u64 = 0;
    let mut shapes: u64 = 0;
    for &r in rects {
        let shared = overlap_of(r, b);
        area += shared;
        shapes += u64::from(0 < shared);
    }
    Cover { area, shapes }
}

// Whether a box shares a unit square with a rectangle of a layer. Shared edges and
// corners are none.
pub fn shares_square(rects: &[Rect], b: Rect) -> bool
    requires { Layer rects.now }
    ensures { result ≡ shares_square rects.now b }
{
    0 < cover_of(rects, b).area
}

// Whether an area is strictly better than the one that stands.
pub fn is_better(sense: Sense, new: u64, old: u64) -> bool
    ensures { result ≡ better sense new old }
{
    match sense {
        Sense::Greatest => old < new,
        Sense::Least => new < old,
    }
}

// What stands after one more window was looked at.
pub fn better_of(sense: Sense, old: Spot, new: Spot) -> Spot
    ensures { result ≡ replaced sense old new }
{
    if is_better(sense, new.area, old.area) {
        new
    } else {
        old
    }
}
