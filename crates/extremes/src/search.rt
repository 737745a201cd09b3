// What a search is told.
ghost use Rattle.std.specs.Prelude.{◌+◌, ◌≤◌, ◌≡◌};
ghost use Rattle.geometry.specs.Sizes.{widest};

use geometry::Sense;
use sweep::Strip;

// A search for an extreme: its sense, the window's side, and the last position on
// an axis.
#[derive(Clone, Copy)]
pub(crate) struct Search {
    pub sense: Sense,
    pub w: u64,
    pub last: u64,
    ghost small: { last + w ≤ widest },
}

// A row of its windows, and the strip that they lie in.
#[derive(Clone, Copy)]
pub(crate) struct Row<'a> {
    pub search: Search,
    pub strip: &'a Strip<'a>,
    ghost as_high: { strip.now.y2 ≡ strip.now.y1 + search.w },
}
