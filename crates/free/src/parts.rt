// The part of a table whose regions come near a box.
ghost use Rattle.std.specs.Prelude.{MatchOption};
ghost use Rattle.spacing.specs.Sizes.{SmallBox};
ghost use Rattle.free.specs.Parts.{AllFar, FirstNear, LastNear};

use geometry::Rect;
use spacing::Region;

pub(crate) fn first_near(regions: &[Region], b: Rect) -> Option<usize>
    requires { SmallBox b }
    ensures { MatchOption result (AllFar b regions.now) (FirstNear regions.now b) }
{
    regions.iter().position(|r| r.is_near(b))
}

pub(crate) fn last_near(regions: &[Region], b: Rect) -> Option<usize>
    requires { SmallBox b }
    ensures { MatchOption result (AllFar b regions.now) (LastNear regions.now b) }
{
    regions.iter().rposition(|r| r.is_near(b))
}
