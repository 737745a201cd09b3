// The windows of tiles at a start, and the first start that fails a bound.
ghost use Rattle.std.specs.Prelude.{suc, ◌-◌, ◌≤◌, ◌≡◌};
ghost use Rattle.tiles.specs.Sizes.{heaviest};
ghost use Rattle.tiles.specs.Sums.{corner_total};
ghost use Rattle.fill.specs.Judge.{first_of, judged};
ghost use Rattle.fill.specs.Windows.{tiles_for_upper, tiles_for_lower, failing_within, failing_by, search_by, IsStart};

use crate::{Bound, Failure, Verdict};
use geometry::Rect;
use tiles::Corners;

// What a window of tiles is judged by: the tiles across it, and 10,000 times the
// least and the greatest load of one.
#[derive(Clone, Copy)]
pub(crate) struct Rule {
    pub cut: u64,
    pub low: u64,
    pub high: u64,
}

// The windows of a layout that begin at its tiles, by the loads of these. The bounds
// are held to the windows themselves, or with a margin of a tile.
#[derive(Clone, Copy)]
pub(crate) struct Windows<'a> {
    pub loads: &'a Corners,
    pub rule: Rule,
    pub margin: u64,
    ghost thin: { margin ≤ 1 },
    ghost fits: { rule.cut ≤ loads.now.across },
}

impl Windows<'_> {
    // The tiles whose load the upper bound is held to, a box that counts in tiles:
    // those of the window at a start, and `margin` more, cut off at the edge.
    fn tiles_for_upper(self, column: u64, row: u64) -> Rect
        requires { IsStart self.rule self.loads.now.across column row }
        ensures { result ≡ tiles_for_upper self.entry.rule self.entry.loads.now.across self.entry.margin column row }
    {
        Rect {
            x1: column,
            y1: row,
            x2: (column + self.rule.cut + self.margin).min(self.loads.across),
            y2: (row + self.rule.cut + self.margin).min(self.loads.across),
        }
    }

    // The tiles whose load the lower bound is held to, a box that counts in tiles:
    // those of the window at a start, less the first `margin`, if it has so many: a
    // box never ends before it begins.
    fn tiles_for_lower(self, column: u64, row: u64) -> Rect
        requires { IsStart self.rule self.loads.now.across column row }
        ensures { result ≡ tiles_for_lower self.entry.rule self.entry.margin column row }
    {
        Rect {
            x1: (column + self.margin).min(column + self.rule.cut),
            y1: (row + self.margin).min(row + self.rule.cut),
            x2: column + self.rule.cut,
            y2: row + self.rule.cut,
        }
    }

    // The bound that the windows of a start fail.
    fn failing_at(self, column: u64, row: u64) -> Option<Failure>
        requires { IsStart self.rule self.loads.now.across column row }
        ensures { let w = self.entry in result ≡ failing_by (corner_total w.loads.now.sums.items w.loads.now.across) w.rule w.loads.now.across w.margin column row }
    {
        let outer = self.loads.load(self.tiles_for_upper(column, row));
        let inner = self.loads.load(self.tiles_for_lower(column, row));
        failed(self.rule, column, row, outer, inner)
    }

    // The first failing start of a row.
    fn failing_in_row(self, row: u64) -> Option<Failure>
        requires { IsStart self.rule self.loads.now.across 0 row }
        ensures { let w = self.entry in result ≡ first_of (λ column. failing_by (corner_total w.loads.now.sums.items w.loads.now.across) w.rule w.loads.now.across w.margin column row) (suc (w.loads.now.across - w.rule.cut)) }
    {
        let last = self.loads.across - self.rule.cut;
        (0..=last).find_map(|column| self.failing_at(column, row))
    }

    // The first failing start, rows in order, in a row columns in order.
    pub fn first_failing(self) -> Option<Failure>
        ensures { let w = self.entry in result ≡ search_by (corner_total w.loads.now.sums.items w.loads.now.across) w.rule w.loads.now.across w.margin }
    {
        let last = self.loads.across - self.rule.cut;
        (0..=last).find_map(|row| self.failing_in_row(row))
    }
}

// The bound that a start fails, U before L: `outer` and `inner` are the sums that
// U and L are judged by.
fn failed(rule: Rule, column: u64, row: u64, outer: u64, inner: u64) -> Option<Failure>
    requires { (outer ≤ heaviest) × (inner ≤ heaviest) }
    ensures { result ≡ failing_within rule column row outer inner }
{
    let bound = if rule.high < 10000 * outer {
        Bound::Over
    } else if 10000 * inner < rule.low {
        Bound::Under
    } else {
        return None;
    };
    Some(Failure { bound, column, row })
}

// The verdict on the loads of all tiles.
pub(crate) fn judge_loads(loads: &Corners, rule: Rule) -> Verdict
    requires { rule.cut ≤ loads.now.across }
    ensures { let across = loads.now.across in let total = corner_total loads.now.sums.items across in result ≡ judged (search_by total rule across 0) (search_by total rule across 1) }
{
    let standard = Windows {
        loads,
        rule,
        margin: 0,
    };
    let wider = Windows {
        loads,
        rule,
        margin: 1,
    };
    if let Some(f) = standard.first_failing() {
        return Verdict::Broken(f);
    }
    match wider.first_failing() {
        Some(f) => Verdict::Undecided(f),
        None => Verdict::Safe,
    }
}
