// The verdict on a planned fill.
#![tactic(auto)]

ghost use Rattle.std.specs.Prelude.{◌≡◌};
ghost use Rattle.fill.specs.Judge.{verdict_of};
ghost use Rattle.fill.specs.Sizes.{Planned};

mod judging;

use sweep::Sorted;
use tiles::{Corners, Plan, tile_loads};

// The bound that a window fails: over says that U fails, under that L does.
#[derive(Clone, Copy)]
pub enum Bound {
    Over,
    Under,
}

// A tile start, by its column and row, and the bound that its window fails.
#[derive(Clone, Copy)]
pub struct Failure {
    pub bound: Bound,
    pub column: u64,
    pub row: u64,
}

// The verdict on a fill. Broken and undecided name the first start that fails.
#[derive(Clone, Copy)]
pub enum Verdict {
    Safe,
    Broken(Failure),
    Undecided(Failure),
}

// The verdict on a table of amounts, one to a tile, row by row. Not inlined: its
// tables are not to stay on the stack while a quick run has its own there.
#[inline(never)]
pub fn judge(sorted: &Sorted, amounts: &[u64], plan: Plan) -> Verdict
    requires { Planned amounts.now plan }
    ensures { result ≡ verdict_of sorted.now.rects.now amounts.now plan }
{
    let loads = tile_loads(sorted, amounts, plan);
    let corners = Corners::of(&loads, plan.across);
    let rule = judging::Rule {
        cut: plan.cut,
        low: plan.lower * plan.window * plan.window,
        high: plan.upper * plan.window * plan.window,
    };
    judging::judge_loads(&corners, rule)
}
