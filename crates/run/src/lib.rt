// The phases of a job in turn: the answer's numbers.
#![tactic(auto)]

ghost use Rattle.std.specs.Prelude.{◌≡◌};
ghost use Rattle.geometry.specs.Layout.{Layer};
ghost use Rattle.geometry.specs.Positions.{window_shapes};
ghost use Rattle.run.specs.Answering.{counts_of, answer_for};
ghost use Rattle.run.specs.Ready.{SmallSpot, SmallSpots, Ready};

use answers::{Answer, Counts};
use extremes::Extremes;
use forms::Head;
use geometry::{Rect, Sense, Spot};
use sweep::Sorted;
use zoom::{Asked, Quick};

// The shapes under a named window of side w.
fn shapes_at(rects: &[Rect], w: u64, p: Spot) -> u64
    requires layer { Layer rects.now }
    requires small_spot { SmallSpot w p }
    ensures { result ≡ window_shapes rects.now w p.x p.y }
{
    geometry::cover_of(rects, geometry::window_box(w, p.x, p.y)).shapes
}

// The shapes under the windows that the runs name, counted once for each: no
// search carries them along.
fn counts_of(rects: &[Rect], w: u64, exact: Extremes, greatest: Quick, least: Quick) -> Counts
    requires layer { Layer rects.now }
    requires small_spots { SmallSpots w exact greatest least }
    ensures { result ≡ counts_of rects.now w exact greatest least }
{
    Counts {
        max: shapes_at(rects, w, exact.greatest),
        min: shapes_at(rects, w, exact.least),
        floor: shapes_at(rects, w, greatest.last.named),
        high: shapes_at(rects, w, least.last.named),
    }
}

// The answer to a job whose rectangles are sorted. The exact run's windows are handed
// to the quick runs, so that nothing is searched twice.
fn run_sorted(head: Head, sorted: &Sorted, amounts: &[u64]) -> Answer
    requires { Ready head sorted.now.rects.now amounts.now }
    ensures { result ≡ answer_for head sorted.now.rects.now amounts.now }
{
    let rects = sorted.rects;
    let exact = extremes::exact_run(sorted, head.size, head.window);
    let max = exact.greatest;
    let min = exact.least;
    let asked = Asked {
        size: head.size,
        window: head.window,
        accuracy: head.accuracy,
        levels: head.levels,
    };
    let greatest = zoom::quick_run(Sense::Greatest, sorted, asked, max);
    let least = zoom::quick_run(Sense::Least, sorted, asked, min);
    let counts = counts_of(rects, head.window, exact, greatest, least);
    let density = zoom::density(head.window, greatest.last.named.area, greatest.last.limit);
    let positions = positions::count_positions(
        rects,
        head.size,
        head.window,
        head.lower,
        head.upper,
    );
    let verdict = fill::judge(sorted, amounts, standing::plan_of(head));
    Answer {
        exact,
        greatest,
        least,
        counts,
        density,
        positions,
        verdict,
    }
}

// The answer to a job. Its rectangles are sorted once, for all runs.
pub fn run(head: Head, rects: &[Rect], amounts: &[u64]) -> Answer
    requires { Ready head rects.now amounts.now }
    ensures { result ≡ answer_for head rects.now amounts.now }
{
    let mut sorted = Sorted::new();
    sorted.sort(rects);
    run_sorted(head, &sorted, amounts)
}
