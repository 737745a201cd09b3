// The exact run: the greatest and the least window over every position.
//
// Only candidates are tried: 0, the last position, and those where an edge of the
// window meets a rectangle's side; in a row, a side of a rectangle that the row's
// windows reach. The first extreme is among them, so the work is set by the number
// of rectangles and not by coordinates. Along a row the area is carried from one
// window to the next.
#![tactic(auto)]

mod listing;
mod search;
mod searching;

ghost use Rattle.std.specs.Prelude.{◌≤◌, ◌≡◌};
ghost use Rattle.geometry.specs.Sizes.{widest};
ghost use Rattle.geometry.specs.Layout.{Layer};
ghost use Rattle.geometry.specs.Extreme.{spot_at};
ghost use Rattle.geometry.specs.Positions.{window_area};
ghost use Rattle.extremes.specs.Exact.{extreme, exact_run};

use arrayvec::ArrayVec;
use geometry::{Rect, Sense, Spot};
use search::{Row, Search};
use sweep::{Sorted, Strip};

// The exact run's answer: the greatest and the least window.
#[derive(Clone, Copy)]
pub struct Extremes {
    pub greatest: Spot,
    pub least: Spot,
}

// The window at the origin, with which every search begins.
pub fn first_window(rects: &[Rect], w: u64) -> Spot
    requires { Layer rects.now }
    ensures { result ≡ spot_at (window_area rects.now w) 0 0 }
{
    let cover = geometry::cover_of(rects, geometry::window_box(w, 0, 0));
    Spot {
        area: cover.area,
        x: 0,
        y: 0,
    }
}

// The extreme over all positions, with its window of least y, then least x.
fn find_extreme(sorted: &Sorted<'_>, n: u64, w: u64, sense: Sense) -> Spot
    requires fits { w ≤ n }
    requires small { n ≤ widest }
    ensures { result ≡ extreme sense sorted.now.rects.now n w }
{
    let last = n - w;
    let search = Search { sense, w, last };
    let mut strip = Strip::new(sorted);
    let mut best = first_window(sorted.rects, w);
    let mut rows = ArrayVec::new();
    listing::list_rows(sorted.rects, search, &mut rows);
    for &y in rows.as_slice() {
        strip.set_rows(y, y + w);
        let row = Row {
            search,
            strip: &strip,
        };
        best = searching::search_row(row, best);
    }
    best
}

// The exact run. The sorted rectangles are lent, since a job's other runs take them
// too.
pub fn exact_run(sorted: &Sorted<'_>, n: u64, w: u64) -> Extremes
    requires fits { w ≤ n }
    requires small { n ≤ widest }
    ensures { result ≡ exact_run sorted.now.rects.now n w }
{
    let greatest = find_extreme(sorted, n, w, Sense::Greatest);
    let least = find_extreme(sorted, n, w, Sense::Least);
    Extremes { greatest, least }
}
