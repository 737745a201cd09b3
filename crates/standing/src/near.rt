// The part of the table of regions that is kept for a row of tiles, so that the
// fills of a row are counted by the regions that come near it.
ghost use Rattle.std.specs.Prelude.{◌≤◌, ◌<◌, ◌≡◌, length, Some};
ghost use Rattle.spacing.specs.Sizes.{live_room};
ghost use Rattle.forms.specs.Forms.{tiles_across, GoodHead};
ghost use Rattle.standing.specs.Sound.{row_box};
ghost use Rattle.standing.specs.Near.{part_for, NearHeld};

use forms::{Head, tile_side};
use free::{Part, part_near};
use geometry::Rect;
use spacing::Region;

// The part of the table of regions that is enough for a row of tiles, that of the
// last fill: most fills come row by row.
#[derive(Clone, Copy)]
pub struct Near {
    pub row: u64,
    pub part: Part,
}

// The part of the table that is enough for the tiles of a row: the one at hand, if
// it is that row's, else all of the table.
pub fn part_for(near: Option<Near>, row: u64, all: usize) -> Part
    ensures { result ≡ part_for near row all }
{
    match near {
        Some(kept) if kept.row == row => kept.part,
        _ => Part { from: 0, to: all },
    }
}

// The box of a row of tiles.
fn row_box(h: Head, row: u64) -> Rect
    requires good { GoodHead h }
    requires row_bound { row < tiles_across h }
    ensures { result ≡ row_box h row }
{
    let side = tile_side(h);
    let low = row * side;
    Rect {
        x1: 0,
        y1: low,
        x2: h.size,
        y2: low + side,
    }
}

// The part of the table for a row of tiles, kept where it is at hand.
pub(crate) fn near_row(near: Option<Near>, h: Head, regions: &[Region], row: u64) -> Near
    requires good { GoodHead h }
    requires row_bound { row < tiles_across h }
    requires near_held { NearHeld h regions.now near }
    ensures { NearHeld h regions.now (Some result) }
{
    match near {
        Some(kept) if kept.row == row => kept,
        _ => Near {
            row,
            part: part_near(regions, row_box(h, row)),
        },
    }
}
