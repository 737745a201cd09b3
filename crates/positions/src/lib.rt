// How many window positions lie under the lower bound, within, and over the upper
// one.
#![tactic(auto)]

ghost use Rattle.std.specs.Prelude.{◌≡◌};
ghost use Rattle.positions.specs.Tallies.{tally_of};
ghost use Rattle.positions.specs.Sizes.{Tallied};

use below::{Threshold, count_below};
use geometry::Rect;

// The window positions of a job by the bounds: those that fail the lower one, those
// that keep both, and those that fail the upper one.
#[derive(Clone, Copy)]
pub struct Tally {
    pub under: u64,
    pub within: u64,
    pub over: u64,
}

// How many window positions lie under the lower bound, within, and over the upper one,
// by two counts: of the positions below the least area that keeps the lower bound, and
// of those up to the greatest that keeps the upper one.
pub fn count_positions(rects: &[Rect], n: u64, w: u64, lower: u64, upper: u64) -> Tally
    requires { Tallied rects.now n w lower upper }
    ensures { result ≡ tally_of rects.now n w lower upper }
{
    let p = n - w + 1;
    let least = Threshold {
        window: w,
        area: (lower * w * w).div_ceil(10000),
    };
    let past_greatest = Threshold {
        window: w,
        area: upper * w * w / 10000 + 1,
    };
    let under = count_below(rects, p, least);
    let kept = count_below(rects, p, past_greatest);
    Tally {
        under,
        within: kept - under,
        over: p * p - kept,
    }
}
