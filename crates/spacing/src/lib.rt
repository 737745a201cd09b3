// What shapes keep free of fill: regions with round corners, and how they lie to a box
// of squares.
#![tactic(auto)]

ghost use Rattle.std.specs.Prelude.{suc, ◌*◌, ◌≤◌, ◌≡◌};
ghost use Rattle.geometry.specs.Sizes.{widest};
ghost use Rattle.spacing.specs.Eligible.{tile};

use geometry::{Rect, window_box};

mod idle;
mod near;
mod quarter;
mod region;
mod shape;
mod span;

pub use region::Region;

// A shape as fill sees it: its rectangle, and the least gap between it and fill.
#[derive(Clone, Copy)]
pub struct Keepout {
    pub rect: Rect,
    pub gap: u64,
}

// The box of a tile.
pub fn tile_box(side: u64, i: u64, j: u64) -> Rect
    requires { (suc i * side ≤ widest) × (suc j * side ≤ widest) }
    ensures { result ≡ tile side i j }
{
    window_box(side, i * side, j * side)
}
