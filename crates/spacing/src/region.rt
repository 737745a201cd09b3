// The regions that shapes keep free of fill, formed once for a job and lent as a
// table, so that what counts by them knows neither shapes nor gaps.
ghost use Rattle.spacing.specs.Sizes.{SmallRegion};

use crate::shape::grow;
use geometry::Rect;

// All places nearer to a core than a reach, by straight distance.
#[derive(Clone, Copy)]
pub struct Region {
    pub core: Rect,
    pub reach: u64,
    ghost small: { SmallRegion core reach },
}

// In an unused place of a list: it holds no square.
impl Default for Region {
    ghost use Rattle.std.specs.Prelude.{◌≡◌};

    fn default() -> Region
        ensures { result.reach ≡ 0 }
    {
        Region {
            core: Rect::default(),
            reach: 0,
        }
    }
}

impl Region {
    ghost use Rattle.std.specs.Prelude.{◌-◌, ◌≡◌};
    ghost use Rattle.spacing.specs.Regions.{grown};

    // The rectangle of its straight edges.
    pub fn outline(self) -> Rect
        ensures { result ≡ grown self.core (self.reach - 1) }
    {
        grow(self.core, self.reach.saturating_sub(1))
    }
}
