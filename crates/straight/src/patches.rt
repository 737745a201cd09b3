// Values at the corners of a box: their sum, the least and the most of them, and what
// they come to at a cut.
ghost use Rattle.std.specs.Prelude.{◌≤◌, ◌<◌, ◌≡◌};
ghost use Rattle.geometry.specs.declared.Cut.TheVariants.{Column};
ghost use Rattle.geometry.specs.Sizes.{widest, largest};
ghost use Rattle.geometry.specs.Cuts.{Cuts, before, behind};
ghost use Rattle.straight.specs.Flatness.{between, corners_of, value_at, Flat, SmallCorners, flipped, flipped_corners, least_corner, most_corner, corner_sum};

use crate::{Corners, Parts, Patch};
use geometry::{Cut, Rect};

impl Corners {
    // With those of something else added.
    pub fn plus(self, u: Corners) -> Corners
        requires small_corners { SmallCorners self }
        requires small_corners_2 { SmallCorners u }
        ensures { result ≡ corner_sum self u }
    {
        Corners {
            southwest: self.southwest + u.southwest,
            southeast: self.southeast + u.southeast,
            northwest: self.northwest + u.northwest,
            northeast: self.northeast + u.northeast,
        }
    }

    pub fn least(self) -> u64
        ensures { result ≡ least_corner self }
    {
        let south = self.southwest.min(self.southeast);
        let north = self.northwest.min(self.northeast);
        south.min(north)
    }

    // One function over `min` and `max` would be no plainer.
    pub fn most(self) -> u64
        ensures { result ≡ most_corner self }
    {
        let south = self.southwest.max(self.southeast);
        let north = self.northwest.max(self.northeast);
        south.max(north)
    }

    // With the axes exchanged.
    fn flip(self) -> Corners
        ensures { result ≡ flipped_corners self }
    {
        Corners {
            southeast: self.northwest,
            northwest: self.southeast,
            ..self
        }
    }
}

// The value i of n steps on from a, where n steps lead straight to b.
fn value_between(a: u64, b: u64, i: u64, n: u64) -> u64
    requires a_le_largest { (a ≤ largest) × (b ≤ largest) }
    requires i_le_n { (i ≤ n) × (0 < n) × (n ≤ widest) }
    ensures { result ≡ between a b i n }
{
    (a * (n - i) + b * i) / n
}

impl Patch {
    // With the values of something else that runs straight added.
    pub fn plus(self, u: Corners) -> Patch
        requires flat { Flat self.extent u }
        requires small { SmallCorners (corner_sum self.corners u) }
        ensures extent { result.extent ≡ self.extent }
        ensures corners { result.corners ≡ corner_sum self.corners u }
    {
        Patch {
            extent: self.extent,
            corners: self.corners.plus(u),
        }
    }

    // With the axes exchanged.
    pub(crate) fn flip(self) -> Patch
        ensures extent { result.extent ≡ flipped self.extent }
        ensures corners { result.corners ≡ flipped_corners self.corners }
    {
        let b = self.extent;
        Patch {
            extent: Rect {
                x1: b.y1,
                y1: b.x1,
                x2: b.y2,
                y2: b.x2,
            },
            corners: self.corners.flip(),
        }
    }

    // The parts at a cut between columns.
    fn cut_at_column(self, x: u64) -> Parts
        requires { Cuts self.extent (Column x) }
        ensures before { result.before.extent ≡ before self.extent (Column x) }
        ensures behind { result.behind.extent ≡ behind self.extent (Column x) }
        ensures before_corners { result.before.corners ≡ corners_of (value_at self.extent self.corners) (before self.extent (Column x)) }
        ensures behind_corners { result.behind.corners ≡ corners_of (value_at self.extent self.corners) (behind self.extent (Column x)) }
    {
        let b = self.extent;
        let v = self.corners;
        let i = x - b.x1;
        let n = b.x2 - b.x1;
        let south = value_between(v.southwest, v.southeast, i, n);
        let north = value_between(v.northwest, v.northeast, i, n);
        Parts {
            before: Patch {
                extent: Rect { x2: x, ..b },
                corners: Corners {
                    southeast: south,
                    northeast: north,
                    ..v
                },
            },
            behind: Patch {
                extent: Rect { x1: x, ..b },
                corners: Corners {
                    southwest: south,
                    northwest: north,
                    ..v
                },
            },
        }
    }

    // The parts at a cut; the corners of each are what the whole tells there.
    pub fn cut(self, at: Cut) -> Parts
        requires { Cuts self.extent at }
        ensures before { result.before.extent ≡ before self.extent at }
        ensures behind { result.behind.extent ≡ behind self.extent at }
        ensures before_corners { result.before.corners ≡ corners_of (value_at self.extent self.corners) (before self.extent at) }
        ensures behind_corners { result.behind.corners ≡ corners_of (value_at self.extent self.corners) (behind self.extent at) }
    {
        match at {
            Cut::Column(x) => self.cut_at_column(x),
            Cut::Row(y) => {
                let parts = self.flip().cut_at_column(y);
                Parts {
                    before: parts.before.flip(),
                    behind: parts.behind.flip(),
                }
            }
        }
    }
}
