// The rows that are tried.
ghost use Rattle.std.specs.Prelude.{◌+◌, ◌<◌, ◌≤◌, ◌≡◌, [], length, All};
ghost use Rattle.arrayvec.specs.ArrayVec.{array_vec_len};
ghost use Rattle.geometry.specs.Sizes.{most_rects};
ghost use Rattle.extremes.specs.Listing.{near_of, far_of, with_position, with_end, with_sides, candidates};

use crate::search::Search;
use arrayvec::ArrayVec;
use geometry::{MOST_RECTS, Rect, Sense};

// Room for 0, the last row, and two for each rectangle.
const ROWS_ROOM: usize = 2 * MOST_RECTS + 2;

// What the window's low and high edge meet at a first extreme, of a low and a high
// side or of what stands for them.
pub(crate) fn near_and_far<S>(sense: Sense, low: S, high: S) -> (S, S)
    ensures near { result.0 ≡ near_of sense low high }
    ensures far { result.1 ≡ far_of sense low high }
{
    match sense {
        Sense::Greatest => (low, high),
        Sense::Least => (high, low),
    }
}

// Adds a position, unless it is past the last one or listed already: so no row is
// searched twice.
fn add_position(rows: &mut ArrayVec<u64, ROWS_ROOM>, p: u64, last: u64)
    requires { array_vec_len rows.old < ROWS_ROOM }
    ensures { rows.new.items ≡ with_position last p rows.old.items }
{
    if p <= last && !rows.contains(&p) {
        rows.push(p);
    }
}

// Adds the position whose window ends at a side.
fn add_end(rows: &mut ArrayVec<u64, ROWS_ROOM>, end: u64, w: u64, last: u64)
    requires { array_vec_len rows.old < ROWS_ROOM }
    ensures { rows.new.items ≡ with_end last w end rows.old.items }
{
    if w <= end {
        add_position(rows, end - w, last);
    }
}

// Adds the positions at which the window meets a rectangle.
fn add_sides(rows: &mut ArrayVec<u64, ROWS_ROOM>, r: Rect, search: Search)
    requires { array_vec_len rows.old + 1 < ROWS_ROOM }
    ensures { rows.new.items ≡ with_sides search.sense search.last search.w rows.old.items r }
{
    let (near, far) = near_and_far(search.sense, r.y1, r.y2);
    add_position(rows, near, search.last);
    add_end(rows, far, search.w, search.last);
}

// Lists the rows that are tried, in an empty list.
pub(crate) fn list_rows(rects: &[Rect], search: Search, rows: &mut ArrayVec<u64, ROWS_ROOM>)
    requires few { length rects.now ≤ most_rects }
    requires empty { rows.old.items ≡ [] }
    ensures rows { rows.new.items ≡ candidates search.sense search.last search.w rects.now }
    ensures within { All (λ y. y ≤ search.last) rows.new.items }
{
    rows.push(0);
    add_position(rows, search.last, search.last);
    for &r in rects {
        add_sides(rows, r, search);
    }
}
