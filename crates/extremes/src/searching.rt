// The search along a row: its windows are tried in any order, a better one leads,
// and of two as good the earlier one.
ghost use Rattle.std.specs.Prelude.{◌+◌, ◌≤◌, ◌≡◌, [], ◌∷◌};
ghost use Rattle.std.specs.List.Sorted.{IsNonDecreasingBy};
ghost use Rattle.extremes.specs.Search.{leads, leading, window_at, leading_along, positions_of, tried_row};

use crate::listing::near_and_far;
use crate::search::Row;
use geometry::{Sense, Spot};
use sweep::{Sweep, Upright};

// Whether a window goes before the one that stands: it is better, or as good with a
// smaller y, or the same y and a smaller x.
fn goes_first(sense: Sense, new: Spot, old: Spot) -> bool
    ensures { result ≡ leads sense new old }
{
    geometry::is_better(sense, new.area, old.area)
        || new.area == old.area && (new.y, new.x) < (old.y, old.x)
}

// What stands after one more window was tried.
fn leading_of(sense: Sense, old: Spot, new: Spot) -> Spot
    ensures { result ≡ leading sense old new }
{
    if goes_first(sense, new, old) {
        new
    } else {
        old
    }
}

// Moves a sweep of the row to the window at x and tries it.
fn try_window(row: Row<'_>, x: u64, sweep: &mut Sweep<'_>, best: Spot) -> Spot
    requires along { sweep.old.strip.now ≡ row.strip.now }
    requires left_later { sweep.old.frame.left ≤ x }
    requires right_later { sweep.old.frame.right ≤ x + row.search.w }
    requires within { x ≤ row.search.last }
    ensures along { sweep.new.strip.now ≡ row.entry.strip.now }
    ensures left { sweep.new.frame.left ≡ x }
    ensures right { sweep.new.frame.right ≡ x + row.entry.search.w }
    ensures best { result ≡ leading row.entry.search.sense best (window_at row.entry x) }
{
    sweep.move_to(x, x + row.search.w);
    let new = Spot {
        area: sweep.frame.area,
        x,
        y: row.strip.y1,
    };
    leading_of(row.search.sense, best, new)
}

// Tries the windows whose edges meet the sides of a list, from left to right: their
// low edges for a shift of 0, their high edges for a shift of w.
fn search_sides(row: Row<'_>, sides: &[Upright], shift: u64, best: Spot) -> Spot
    requires { IsNonDecreasingBy (λ u. u.column) sides.now }
    ensures { result ≡ leading_along row.entry (positions_of shift row.entry.search.last sides.now) best }
{
    let mut sweep = Sweep::start(row.strip);
    let mut leader = best;
    for side in sides {
        if shift <= side.column && side.column - shift <= row.search.last {
            leader = try_window(row, side.column - shift, &mut sweep, leader);
        }
    }
    leader
}

// Tries the windows at 0 and at the last position.
fn search_ends(row: Row<'_>, best: Spot) -> Spot
    ensures { result ≡ leading_along row.entry (0 ∷ row.entry.search.last ∷ []) best }
{
    let mut sweep = Sweep::start(row.strip);
    let first = try_window(row, 0, &mut sweep, best);
    try_window(row, row.search.last, &mut sweep, first)
}

// Tries the windows of a row at every candidate.
pub(crate) fn search_row(row: Row<'_>, best: Spot) -> Spot
    ensures { let r = row.entry in result ≡ leading_along r (tried_row r.search.sense r.search.w r.search.last r.strip.now.sorted.now r.strip.now.y1) best }
{
    let lows = row.strip.lows.as_slice();
    let highs = row.strip.highs.as_slice();
    let (near, far) = near_and_far(row.search.sense, lows, highs);
    let ends = search_ends(row, best);
    let by_near = search_sides(row, near, 0, ends);
    search_sides(row, far, row.search.w, by_near)
}
