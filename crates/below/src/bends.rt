// A rectangle and the windows of a box of positions: the squares that some window or
// every window has, and whether the overlap may bend inside the box.
ghost use Rattle.std.specs.Prelude.{◌+◌, ◌^◌, ◌≤◌, ◌<◌, ◌≡◌, ◌||◌};
ghost use Rattle.geometry.specs.Sizes.{widest};
ghost use Rattle.geometry.specs.Cuts.{FullBox};
ghost use Rattle.below.specs.Counting.{reached, shared, inside, bends_between, bends};

use geometry::Rect;

// The squares that some window from the box has, its far sides included.
pub(crate) fn reached_box(w: u64, b: Rect) -> Rect
    requires { (w ≤ widest) × FullBox b }
    ensures { result ≡ reached w b }
{
    Rect {
        x1: b.x1,
        y1: b.y1,
        x2: b.x2 + w,
        y2: b.y2 + w,
    }
}

// The squares that every window from the box has, its far sides included. As one
// function with the one above, told which sides to take, it would be no plainer.
pub(crate) fn shared_box(w: u64, b: Rect) -> Rect
    requires { (w ≤ widest) × FullBox b }
    ensures { result ≡ shared w b }
{
    Rect {
        x1: b.x2,
        y1: b.y2,
        x2: b.x1 + w,
        y2: b.y1 + w,
    }
}

// Whether a place lies strictly inside a span.
fn is_inside(low: u64, high: u64, at: u64) -> bool
    ensures { result ≡ inside low high at }
{
    low < at && at < high
}

// Whether one of two places does.
fn one_inside(low: u64, high: u64, c: u64, d: u64) -> bool
    ensures { result ≡ (inside low high c || inside low high d) }
{
    is_inside(low, high, c) || is_inside(low, high, d)
}

// Whether an edge of a window, moving between two positions, meets an end of a span
// from c to d.
fn bends_between(w: u64, c: u64, d: u64, low: u64, high: u64) -> bool
    requires { (low + w < 2 ^ 64) × (high + w < 2 ^ 64) }
    ensures { result ≡ bends_between w c d low high }
{
    one_inside(low, high, c, d) || one_inside(low + w, high + w, c, d)
}

// Whether the overlap of a rectangle with the window may bend inside the box.
pub(crate) fn may_bend(w: u64, b: Rect, r: Rect) -> bool
    requires { (w ≤ widest) × FullBox b }
    ensures { result ≡ bends w b r }
{
    bends_between(w, r.x1, r.x2, b.x1, b.x2) || bends_between(w, r.y1, r.y2, b.y1, b.y2)
}
