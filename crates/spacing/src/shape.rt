// The region that a shape keeps free of fill.
ghost use Rattle.std.specs.Prelude.{◌+◌, ◌*◌, ◌≤◌, ◌≡◌};
ghost use Rattle.geometry.specs.Sizes.{widest};
ghost use Rattle.spacing.specs.Sizes.{SmallKeepout};
ghost use Rattle.spacing.specs.Regions.{grown, IsRegionOf};

use crate::{Keepout, Region};
use geometry::Rect;

// A rectangle grown on all sides, cut off at 0.
pub(crate) fn grow(r: Rect, by: u64) -> Rect
    requires { (r.x2 + by ≤ 4 * widest) × (r.y2 + by ≤ 4 * widest) }
    ensures { result ≡ grown r by }
{
    Rect {
        x1: r.x1.saturating_sub(by),
        y1: r.y1.saturating_sub(by),
        x2: r.x2 + by,
        y2: r.y2 + by,
    }
}

impl Keepout {
    // The region of a shape. With a gap the squares that touch the shape, whose gap is
    // 0, are in the core too.
    pub fn region(self) -> Region
        requires { SmallKeepout self }
        ensures { IsRegionOf self result }
    {
        let beside = self.gap.min(1);
        Region {
            core: grow(self.rect, beside),
            reach: self.gap.max(1),
        }
    }
}
