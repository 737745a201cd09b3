// The sweep: covered areas between two rows, for boxes that move to the right.
//
// An upright side of a rectangle at column v with so many rows adds a ramp, rows
// × (x − v), and nothing left of v. What is covered left of column x is the ramps
// of the low sides less those of the high sides, so what a box covers is four
// such sums, and each is carried along: from one column to a later one only the
// sides that lie between are added.
#![tactic(auto)]

mod cursors;
mod frames;
mod sorted;
mod strips;
mod sweeps;

ghost use Rattle.std.specs.Prelude.{◌≡◌};
ghost use Rattle.sweep.specs.Order.{column};

pub use cursors::{Cursor, Edges};
pub use frames::{Frame, move_to, start_frame};
use geometry::Rect;
pub use sorted::Sorted;
pub use strips::Strip;
pub use sweeps::Sweep;

// The upright sides of a rectangle.
#[derive(Clone, Copy)]
pub enum Side {
    Low,
    High,
}

// A side of a strip: its column, and how many of the strip's rows it has.
#[derive(Clone, Copy, Default)]
pub struct Upright {
    pub column: u64,
    pub rows: u64,
}

impl Side {
    // The column of this side of a rectangle. One that has no columns has both of
    // its sides in the same one.
    pub(crate) fn column(self, r: Rect) -> u64
        ensures { result ≡ column self r }
    {
        match self {
            Side::Low => r.x1,
            Side::High => r.x1.max(r.x2),
        }
    }
}
