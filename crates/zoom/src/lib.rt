// The quick run: a bracket of an extreme window area, level by level.
#![tactic(auto)]

mod ending;

ghost use Rattle.std.specs.Prelude.{◌≡◌, length, replicate, false};
ghost use Rattle.levels.specs.Sizes.{flags_room};
ghost use Rattle.zoom.specs.Run.{quick_run, density};
ghost use Rattle.zoom.specs.Sizes.{Runnable, Measurable};

use ending::{exact_end, last_level, over};
use geometry::{Sense, Spot};
use levels::{Flags, Grid, Level, MOST_FLAGS, flag_count, search_level};
use sweep::Sorted;

// What is asked of a quick run: the layout's side N, the window's side W, the
// accuracy E and the levels allowed, V.
#[derive(Clone, Copy)]
pub struct Asked {
    pub size: u64,
    pub window: u64,
    pub accuracy: u64,
    pub levels: u64,
}

// How a quick run ended.
#[derive(Clone, Copy)]
pub enum End {
    Met,
    Stopped,
    Exact,
}

// What the quick run answers: how it ended, the levels done and the numbers of
// the last one.
#[derive(Clone, Copy)]
pub struct Quick {
    pub end: End,
    pub done: u64,
    pub last: Level,
}

// The quick run for an extreme. The exact run's window m comes in, so that the
// exact level does not search again.
pub fn quick_run(sense: Sense, sorted: &Sorted<'_>, asked: Asked, m: Spot) -> Quick
    requires { Runnable sense sorted.now.rects.now asked m }
    ensures { result ≡ quick_run sense sorted.now.rects.now asked.size asked.window asked.accuracy asked.levels }
{
    let mut old = [false; MOST_FLAGS];
    let mut new = [false; MOST_FLAGS];
    run_levels(sense, sorted, asked, m, &mut old, &mut new)
}

// Its levels. `old` has the flags of the level before, none at first, and `new` gets
// those of this one.
fn run_levels(
    sense: Sense,
    sorted: &Sorted<'_>,
    asked: Asked,
    m: Spot,
    old: &mut [bool],
    new: &mut [bool],
) -> Quick
    requires runnable { Runnable sense sorted.now.rects.now asked m }
    requires unflagged { old.old ≡ replicate flags_room false }
    requires room { length new.old ≡ flags_room }
    ensures { result ≡ quick_run sense sorted.now.rects.now asked.size asked.window asked.accuracy asked.levels }
{
    let last = last_level(asked.window);
    let mut before = extremes::first_window(sorted.rects, asked.window);
    let mut grid = Grid::new(sense, asked.size, asked.window, asked.window);
    let mut stride = 0;
    for j in 0..last {
        let flags = Flags { table: old, stride };
        let this = search_level(sorted, flags, new, grid, before);
        if let Some(answer) = over(sense, asked, j, this) {
            return answer;
        }
        let used = flag_count(grid.starts);
        old[..used].copy_from_slice(&new[..used]);
        before = this.named;
        stride = grid.starts;
        grid = Grid::new(sense, asked.size, asked.window, grid.step / 2);
    }
    let flags = Flags { table: old, stride };
    let this = search_level(sorted, flags, new, grid, before);
    over(sense, asked, last, this).unwrap_or(exact_end(sense, last, this.named, m))
}

// The density of a bracket, in ten-thousandths, rounded.
pub fn density(window: u64, floor: u64, ceiling: u64) -> u64
    requires { Measurable window floor ceiling }
    ensures { result ≡ density window floor ceiling }
{
    rounding::rounded(10000 * (floor + ceiling), 2 * window * window)
}
