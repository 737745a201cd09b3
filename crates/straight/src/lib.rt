// What runs straight along both axes of a box, told by its four corners: values at a
// cut, and the positions of the box below a threshold.
#![tactic(auto)]

ghost use Rattle.geometry.specs.Cuts.{FullBox};
ghost use Rattle.straight.specs.Flatness.{Flat, SmallCorners};

use geometry::Rect;

mod lines;
mod patches;

// The values of what runs straight along both axes of a box, at its corners; the far
// ones are those of the first column and row that are no longer in it.
#[derive(Clone, Copy)]
pub struct Corners {
    pub southwest: u64,
    pub southeast: u64,
    pub northwest: u64,
    pub northeast: u64,
}

// A box, and what runs straight along both of its axes.
#[derive(Clone, Copy)]
pub struct Patch {
    pub extent: Rect,
    pub corners: Corners,
    pub ghost full: { FullBox extent },
    pub ghost small: { SmallCorners corners },
    pub ghost flat: { Flat extent corners },
}

// The two parts of a patch that is cut.
#[derive(Clone, Copy)]
pub struct Parts {
    pub before: Patch,
    pub behind: Patch,
}
