// A pass over the starts of a level that are not passed over. A level has two,
// since its window must be known before a start is kept or flagged; both move
// along the rows in the same way.
ghost use Rattle.std.specs.Prelude.{ℕ, ◌*◌, ◌≤◌, ◌<◌, ◌≡◌, List, Bool};
ghost use Rattle.geometry.specs.declared.Sense.{Sense};
ghost use Rattle.geometry.specs.declared.Spot.{Spot};
ghost use Rattle.geometry.specs.Extreme.{NoBetter};
ghost use Rattle.levels.specs.Levels.{far_area};
ghost use Rattle.levels.specs.Sizes.{level_room, kept_room};
ghost use Rattle.levels.specs.Spans.{span_from, span_to};
ghost use Rattle.levels.specs.Passing.{Passable, RowPassable};
ghost use Rattle.levels.specs.Weighing.{better_area, Stands};
ghost use Rattle.levels.specs.Passes.{named_at, weighed_at, row_seen, rows_seen, PassLaws};
ghost use Rattle.levels.specs.Laws.{named_laws, weighed_laws};

use crate::flags::{Flags, put_flag};
use crate::spans::{span_from, span_to};
use crate::{Grid, Level};
use geometry::{Sense, Spot};
use sweep::{Strip, Sweep};

// A pass, by what it carries along.
pub(crate) trait Pass: Copy {
    // By how much its windows are bloated or shrunk where the level has this step.
    ghost reach: { ℕ → ℕ };

    // The area that stands, the starts counted, and what a start asks.
    ghost best: { Self → ℕ };

    ghost counted: { Self → ℕ };

    ghost Able: { Sense → Self → Type 0 };

    // What one more start does, whose flag is at this place of the table.
    ghost looked: { Sense → Self × List Bool → ℕ → Spot → Self × List Bool };

    ghost laws: { PassLaws best counted Able looked };

    fn reach(step: u64) -> u64
        ensures value { result ≡ reach step }
        ensures within { result ≤ step };

    // One start, with the area of its window in this pass.
    fn look(self, sense: Sense, new: &mut [bool], at: u64, seen: Spot) -> Self
        requires few { counted self ≤ kept_room }
        requires able { Able sense self }
        ensures { (result, new.new) ≡ looked sense (self, new.old) at seen };

    // One start that is passed over: to look at it would do the same, wherever its
    // window is no better.
    fn pass_over(self, new: &mut [bool], at: u64)
        ensures { (s : Sense) (seen : Spot) → Able s self → NoBetter s seen.area (best self) → looked s (self, new.old) at seen ≡ (self, new.new) };
}

// The first pass, over the standard windows, carries the window named so far.
impl Pass for Spot {
    ghost reach = { λ t. 0 };

    ghost best = { λ b. b.area };

    ghost counted = { λ b. 0 };

    ghost Able = { λ s b. Unit {0} };

    ghost looked = { named_at };

    ghost laws = { named_laws };

    fn reach(_step: u64) -> u64 {
        0
    }

    fn look(self, sense: Sense, _new: &mut [bool], _at: u64, seen: Spot) -> Spot {
        geometry::better_of(sense, self, seen)
    }

    fn pass_over(self, _new: &mut [bool], _at: u64) {}
}

// The second pass, over the far windows, bloated or shrunk, carries the level, whose
// window is known.
impl Pass for Level {
    ghost reach = { λ t. t };

    ghost best = { λ v. v.named.area };

    ghost counted = { λ v. v.kept };

    ghost Able = { Stands };

    ghost looked = { weighed_at };

    ghost laws = { weighed_laws };

    fn reach(step: u64) -> u64 {
        step
    }

    // A start that is no better than the level's window cannot better the limit
    // that stands.
    fn look(self, sense: Sense, new: &mut [bool], at: u64, seen: Spot) -> Level {
        let better = geometry::is_better(sense, seen.area, self.named.area);
        put_flag(new, at, !better);
        if better {
            let limit = better_area(sense, self.limit, seen.area);
            Level {
                limit,
                kept: self.kept + 1,
                ..self
            }
        } else {
            self
        }
    }

    // The next level passes over the starts below it too.
    fn pass_over(self, new: &mut [bool], at: u64) {
        put_flag(new, at, true);
    }
}

fn better_area(sense: Sense, old: u64, new: u64) -> u64
    ensures { result ≡ better_area sense old new }
{
    if geometry::is_better(sense, new, old) {
        new
    } else {
        old
    }
}

// The starts of row j, by its strip.
fn row<P: Pass>(
    strip: &Strip<'_>,
    flags: Flags<'_>,
    new: &mut [bool],
    g: Grid,
    j: u64,
    before: P,
) -> P
    requires first { strip.now.y1 ≡ span_from g.sense (P.reach g.step) (j * g.step) }
    requires last { strip.now.y2 ≡ span_to g.sense g.size g.window (P.reach g.step) (j * g.step) }
    requires within { j < g.starts }
    requires passable { RowPassable strip.now.sorted.now.rects.now g flags.table.now flags.stride j (P.best before) }
    requires few { P.counted before ≤ level_room }
    requires able { P.Able g.sense before }
    ensures { (result, new.new) ≡ row_seen (P.looked g.sense) (far_area g.sense strip.now.sorted.now.rects.now g.size g.window (P.reach g.step)) g.step (j * g.step) (j * g.starts) g.starts (before, new.old) }
{
    let reach = P::reach(g.step);
    let at = j * g.starts;
    let y = j * g.step;
    let mut sweep = Sweep::start(strip);
    let mut so_far = before;
    for i in 0..g.starts {
        let flagged = flags.above(i, j);
        if flagged {
            so_far.pass_over(new, at + i);
            continue;
        }
        let x = i * g.step;
        let left = span_from(g.sense, reach, x);
        let right = span_to(g.sense, g.size, g.window, reach, x);
        sweep.move_to(left, right);
        let area = sweep.frame.area;
        so_far = so_far.look(g.sense, new, at + i, Spot { area, x, y });
    }
    so_far
}

// All rows. The strip is the caller's, whose rows are set anew for each.
pub(crate) fn rows<P: Pass>(
    strip: &mut Strip<'_>,
    flags: Flags<'_>,
    new: &mut [bool],
    g: Grid,
    before: P,
) -> P
    requires passable { Passable strip.old.sorted.now.rects.now g flags.table.now flags.stride (P.best before) }
    requires few { P.counted before ≡ 0 }
    requires able { P.Able g.sense before }
    ensures sorted { strip.new.sorted.now ≡ strip.old.sorted.now }
    ensures seen { (result, new.new) ≡ rows_seen (P.looked g.sense) (far_area g.sense strip.old.sorted.now.rects.now g.size g.window (P.reach g.step)) g.step g.starts g.starts (before, new.old) }
{
    let reach = P::reach(g.step);
    let mut so_far = before;
    for j in 0..g.starts {
        let y = j * g.step;
        let first = span_from(g.sense, reach, y);
        let last = span_to(g.sense, g.size, g.window, reach, y);
        strip.set_rows(first, last);
        so_far = row(strip, flags, new, g, j, so_far);
    }
    so_far
}
