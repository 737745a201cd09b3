// One level of a quick run: the window that it names, its limit and the starts that it
// keeps, and a flag for each start that the next level may pass over.
#![tactic(auto)]

mod flags;
mod grid;
mod passes;
mod spans;

ghost use Rattle.std.specs.Prelude.{◌≡◌};
ghost use Rattle.levels.specs.Levels.{starts_on, level_of};
ghost use Rattle.levels.specs.Grid.{Countable, AtStart, far_on};
ghost use Rattle.levels.specs.Passing.{Passable, flags_in_rows};

pub use flags::{Flags, MOST_FLAGS, flag_count};
use geometry::Spot;
pub use grid::Grid;
use sweep::{Sorted, Strip};

// A level: the window named; the limit, that is the far end of the bracket,
// which no window passes: the best area of a bloated window for the greatest,
// of a shrunk one for the least; and the number of starts whose far area is
// better than the best standard one. The area named and the limit are printed
// as floor and ceiling for the greatest, as high and low for the least.
#[derive(Clone, Copy)]
pub struct Level {
    pub named: Spot,
    pub limit: u64,
    pub kept: u64,
}

// The number of starts on an axis.
pub fn starts_on(size: u64, window: u64, step: u64) -> u64
    requires { Countable size window step }
    ensures { result ≡ starts_on size window step }
{
    (size - window) / step + 1
}

// One level, in two passes: over the standard windows, which name its window, and
// over the far ones, bloated or shrunk, which give its limit, the starts kept and
// the flags for the next level.
pub fn search_level(
    sorted: &Sorted<'_>,
    flags: Flags<'_>,
    new: &mut [bool],
    g: Grid,
    before: Spot,
) -> Level
    requires passable { Passable sorted.now.rects.now g flags.table.now flags.stride before.area }
    requires at_start { AtStart sorted.now.rects.now g.size g.window g.step before }
    ensures value { result ≡ level_of g.sense sorted.now.rects.now g.size g.window g.step before }
    ensures after { new.new ≡ flags_in_rows g.sense result.named.area (far_on g sorted.now.rects.now) g.step (starts_on g.size g.window g.step) (starts_on g.size g.window g.step) new.old }
{
    let mut strip = Strip::new(sorted);
    let named = passes::rows(&mut strip, flags, new, g, before);
    let start = Level {
        named,
        limit: named.area,
        kept: 0,
    };
    passes::rows(&mut strip, flags, new, g, start)
}
