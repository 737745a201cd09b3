// How deep a run goes, and when it ends.
ghost use Rattle.std.specs.Prelude.{◌+◌, ◌*◌, ◌^◌, ◌≤◌, ◌<◌, ◌≡◌, leb};
ghost use Rattle.std.specs.Option.{unwrap_or};
ghost use Rattle.zoom.specs.declared.Quick.{Quick};
ghost use Rattle.zoom.specs.Run.{last_level, low_end, high_end, is_met, after_level, exact_end};
ghost use Rattle.zoom.specs.Sizes.{most_accuracy, Testable};

use crate::{Asked, End, Quick};
use geometry::{Sense, Spot};
use levels::Level;

// How often the window side can be halved, at most 4 times.
pub(crate) fn last_level(window: u64) -> u64
    ensures { result ≡ last_level window }
{
    u64::from(window.trailing_zeros().min(4))
}

// The lower and the upper end of a level's bracket.
fn ends(sense: Sense, level: Level) -> (u64, u64)
    ensures low { result.0 ≡ low_end sense level }
    ensures high { result.1 ≡ high_end sense level }
{
    match sense {
        Sense::Greatest => (level.named.area, level.limit),
        Sense::Least => (level.limit, level.named.area),
    }
}

// Whether the upper end of a bracket is near enough to the lower one for an accuracy. A
// lower end of 0 has nothing near but itself. 64 bits hold either end times either number,
// so that a test with the ends exchanged is wrong by what it says alone.
fn is_close(accuracy: u64, low: u64, high: u64) -> bool
    requires accurate { accuracy ≤ most_accuracy }
    requires low_small { (1000 * low < 2 ^ 64) × ((1000 + 2 * accuracy) * low < 2 ^ 64) }
    requires high_small { (1000 * high < 2 ^ 64) × ((1000 + 2 * accuracy) * high < 2 ^ 64) }
    ensures { result ≡ leb (1000 * high) ((1000 + 2 * accuracy) * low) }
{
    1000 * high <= (1000 + 2 * accuracy) * low
}

fn is_met(sense: Sense, accuracy: u64, level: Level) -> bool
    requires { Testable accuracy level }
    ensures { result ≡ is_met sense accuracy level }
{
    let (low, high) = ends(sense, level);
    is_close(accuracy, low, high)
}

// The answer of a run that is over after level j.
pub(crate) fn over(sense: Sense, asked: Asked, j: u64, this: Level) -> Option<Quick>
    requires testable { Testable asked.accuracy this }
    requires j_bound { j ≤ 4 }
    ensures { (next : Quick) → after_level sense asked.accuracy asked.levels j this next ≡ unwrap_or result next }
{
    let end = if is_met(sense, asked.accuracy, this) {
        End::Met
    } else if asked.levels <= j + 1 {
        End::Stopped
    } else {
        return None;
    };
    Some(Quick {
        end,
        done: j + 1,
        last: this,
    })
}

// The answer of the exact level after level j, where `before` is the window named so
// far and m the exact run's.
pub(crate) fn exact_end(sense: Sense, j: u64, before: Spot, m: Spot) -> Quick
    requires { j ≤ 4 }
    ensures { result ≡ exact_end sense j before m }
{
    Quick {
        end: End::Exact,
        done: j + 2,
        last: Level {
            named: geometry::better_of(sense, before, m),
            limit: m.area,
            kept: 0,
        },
    }
}
