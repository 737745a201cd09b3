// The gap that fill keeps from a shape, by its kind.
ghost use Rattle.std.specs.Prelude.{◌≡◌};
ghost use Rattle.forms.specs.Shapes.{gap_for};

use crate::{Gap, Kind};

// The least gap between fill and a shape of a kind.
pub fn gap_for(gap: Gap, kind: Kind) -> u64
    ensures { result ≡ gap_for gap kind }
{
    match (gap, kind) {
        (Gap::Both(b), _) => b,
        (Gap::Each(b, _), Kind::Drawn) => b,
        (Gap::Each(_, d), Kind::Dummy) => d,
    }
}
