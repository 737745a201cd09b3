// Boxes in a strip, and how they move to the right.
ghost use Rattle.std.specs.Prelude.{◌≡◌};
ghost use Rattle.sweep.specs.Strips.{IsStrip};
ghost use Rattle.sweep.specs.Cursors.{start_frame, frame_at, TrueArea, Behind, ColumnsInOrder};

use crate::{Cursor, Edges, Upright};

// A box in a strip, from the column `left` to before `right`: its covered area,
// and the cursors over low and over high sides at its edges.
#[derive(Clone, Copy)]
pub struct Frame {
    pub left: u64,
    pub right: u64,
    pub area: u64,
    pub low: Edges,
    pub high: Edges,
}

// The empty box at column 0, from which every sweep begins.
pub fn start_frame() -> Frame
    ensures { result ≡ start_frame }
{
    let none = Cursor {
        passed: 0,
        rows: 0,
        moment: 0,
        ramps: 0,
    };
    let edges = Edges {
        left: none,
        right: none,
    };
    Frame {
        left: 0,
        right: 0,
        area: 0,
        low: edges,
        high: edges,
    }
}

// Moves a box to the right, each of its edges by itself: from the true area at one
// place, which `Behind` asks for, to the true area at the next. Only the sides that
// its edges pass are added.
#[inline(always)]
pub fn move_to(lows: &[Upright], highs: &[Upright], from: Frame, left: u64, right: u64) -> Frame
    requires strip { IsStrip lows.now highs.now }
    requires behind { Behind lows.now highs.now from left right }
    requires columns_in_order { ColumnsInOrder left right }
    ensures value { result ≡ frame_at lows.now highs.now left right }
    ensures true_area { TrueArea lows.now highs.now result }
{
    let low = from.low.advance(lows, left, right);
    let high = from.high.advance(highs, left, right);
    Frame {
        left,
        right,
        area: low.right.ramps + high.left.ramps - (low.left.ramps + high.right.ramps),
        low,
        high,
    }
}
