// The starts of a level, the same distance apart on both axes.
ghost use Rattle.std.specs.Prelude.{◌≤◌, ◌≡◌};
ghost use Rattle.geometry.specs.Sizes.{widest};
ghost use Rattle.levels.specs.Levels.{starts_on};

use crate::starts_on;
use geometry::Sense;

// A level's starts: the sense of the extreme, the layout's side, the window's side,
// the step between starts and the number of starts on an axis. The paper calls the
// step a tile side; the fill has other tiles.
#[derive(Clone, Copy)]
pub struct Grid {
    pub sense: Sense,
    pub size: u64,
    pub window: u64,
    pub step: u64,
    pub starts: u64,
    pub ghost small: { size ≤ widest },
    pub ghost inside: { window ≤ size },
    pub ghost some_step: { 1 ≤ step },
    pub ghost step_fits: { step ≤ window },
    pub ghost count: { starts ≡ starts_on size window step },
}

impl Grid {
    pub fn new(sense: Sense, size: u64, window: u64, step: u64) -> Self
        requires small { size ≤ widest }
        requires inside { window ≤ size }
        requires some_step { 1 ≤ step }
        requires step_fits { step ≤ window }
        ensures sense { result.sense ≡ sense }
        ensures size { result.size ≡ size }
        ensures window { result.window ≡ window }
        ensures step { result.step ≡ step }
    {
        Grid {
            sense,
            size,
            window,
            step,
            starts: starts_on(size, window, step),
        }
    }
}
