// The span of a window on an axis, bloated or shrunk by a reach. With reach 0 it is
// that of the standard window.
ghost use Rattle.std.specs.Prelude.{◌+◌, ◌≤◌, ◌≡◌};
ghost use Rattle.levels.specs.Sizes.{span_room};
ghost use Rattle.levels.specs.Spans.{span_from, span_to};

use geometry::Sense;

pub(crate) fn span_from(sense: Sense, reach: u64, x: u64) -> u64
    requires { x + reach ≤ span_room }
    ensures { result ≡ span_from sense reach x }
{
    match sense {
        Sense::Greatest => x,
        Sense::Least => x + reach,
    }
}

// A bloated window is cut off at the layout's edge.
pub(crate) fn span_to(sense: Sense, size: u64, window: u64, reach: u64, x: u64) -> u64
    requires { x + window + reach ≤ span_room }
    ensures { result ≡ span_to sense size window reach x }
{
    match sense {
        Sense::Greatest => (x + window + reach).min(size),
        Sense::Least => x + window,
    }
}
