// Regions that another one makes idle: it holds all squares of a box that they hold.
// Where arcs of many shapes nearly coincide, few regions are left by this.
//
// A region holds a square if its squared distance is below the squared reach. So the
// region c holds all that t holds if at every square of the box the squared distance
// from t exceeds that from c by at least the squared reach of t less that of c. A
// squared distance is a part across plus a part up. On one side of both cores the
// difference of two such parts, (x − p)² − (x − q)², has no x² left: it rises or
// falls all the way, so that it is least at one of the two ends of the box.
ghost use Rattle.std.specs.Prelude.{◌*◌, ◌≤◌, ◌≡◌};
ghost use Rattle.spacing.specs.Nearness.{gain_base, gain_at, least_gain, is_idle, is_spare, depth_in};
ghost use Rattle.spacing.specs.Sizes.{SmallBox, longest};
ghost use Rattle.spacing.specs.Span.{SmallSpans};

use crate::Region;
use crate::near::squared;
use crate::span::Span;
use geometry::Rect;

// Distances and reaches are at most this.
const LONGEST: u64 = 4194304;

// Differences of squares are formed above this, the largest square that is formed,
// so that none goes below 0.
const GAIN_BASE: u64 = LONGEST * LONGEST;

// By how much t squared is more than c squared, above the base.
fn gain_at(t: u64, c: u64) -> u64
    requires { (t ≤ longest) × (c ≤ longest) }
    ensures value { result ≡ gain_at t c }
    ensures fits { result ≤ 2 * gain_base }
{
    t * t + GAIN_BASE - c * c
}

// The least gain of the distances of a span to t over those to c: between its two ends
// it rises or falls all the way.
fn least_gain(s: Span, t: Span, c: Span) -> u64
    requires { SmallSpans s t c }
    ensures value { result ≡ least_gain s t c }
    ensures fits { result ≤ 2 * gain_base }
{
    let near = gain_at(s.nearest(t), s.nearest(c));
    let far = gain_at(s.farthest(t), s.farthest(c));
    near.min(far)
}

impl Region {
    // True only where the region c holds all that this one holds of a box; false says
    // nothing.
    fn is_idle(self, c: Region, b: Rect) -> bool
        requires { SmallBox b }
        ensures { result ≡ is_idle self c b }
    {
        let (bx, tx, cx) = (
            Span::across(b),
            Span::across(self.core),
            Span::across(c.core),
        );
        let (by, ty, cy) = (Span::up(b), Span::up(self.core), Span::up(c.core));
        bx.same_side(tx, cx)
            && by.same_side(ty, cy)
            && self.reach * self.reach + GAIN_BASE + GAIN_BASE
                <= least_gain(bx, tx, cx) + least_gain(by, ty, cy) + c.reach * c.reach
    }

    // The same where this is the region at place i of a table, and c the one at place
    // `lead`, which does not make itself idle.
    pub fn is_spare(self, i: usize, lead: usize, c: Region, b: Rect) -> bool
        requires { SmallBox b }
        ensures { result ≡ is_spare i lead self c b }
    {
        i != lead && self.is_idle(c, b)
    }

    // How deep the nearest square of a box lies in it, by squares.
    pub fn depth_in(self, b: Rect) -> u64
        requires { SmallBox b }
        ensures { result ≡ depth_in self b }
    {
        let (u, v) = self.nearest(b);
        (self.reach * self.reach).saturating_sub(squared(u, v))
    }
}
