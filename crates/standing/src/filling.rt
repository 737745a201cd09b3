// What fill is told of a job.
ghost use Rattle.std.specs.Prelude.{◌≡◌};
ghost use Rattle.standing.specs.Filling.{plan_of};

use forms::{Head, tile_side, tiles_across};
use tiles::Plan;

// What a job's fill is judged by.
pub fn plan_of(h: Head) -> Plan
    ensures { result ≡ plan_of h }
{
    Plan {
        across: tiles_across(h),
        cut: h.cut,
        side: tile_side(h),
        window: h.window,
        lower: h.lower,
        upper: h.upper,
    }
}
