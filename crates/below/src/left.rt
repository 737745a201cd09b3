// The rectangles of a layer that are left for a box, by their places. Places are small
// numbers, so that the lists of all boxes under way take little room.
ghost use Rattle.std.specs.Prelude.{◌≤◌, ◌≡◌, length, All};
ghost use Rattle.geometry.specs.Sizes.{most_rects, SmallSides};
ghost use Rattle.geometry.specs.Overlaps.{overlap_sum};
ghost use Rattle.geometry.specs.Places.{Listed};
ghost use Rattle.below.specs.Counting.{listed_rects};

use arrayvec::ArrayVec;
use geometry::{MOST_RECTS, Rect, overlap_of};

// Room for the places of all rectangles of a layer.
pub(crate) type Places = ArrayVec<u16, MOST_RECTS>;

// The rectangles of a layer at some places.
#[derive(Clone, Copy)]
pub(crate) struct Left<'a> {
    pub(crate) rects: &'a [Rect],
    pub(crate) places: &'a [u16],
    ghost small: { All SmallSides rects.now },
    ghost listed: { Listed rects.now places.now },
    ghost few: { length places.now ≤ most_rects },
}

// The places of all rectangles of a layer.
pub(crate) fn all_places(rects: &[Rect]) -> Places
    requires { length rects.now ≤ most_rects }
    ensures listed { Listed rects.now result.items }
    ensures all { listed_rects rects.now result.items ≡ rects.now }
{
    let mut places = ArrayVec::new();
    for place in 0..rects.len() as u16 {
        places.push(place);
    }
    places
}

impl Left<'_> {
    // The unit squares that its rectangles share with a box, added up.
    pub(crate) fn overlaps(self, b: Rect) -> u64
        ensures { result ≡ overlap_sum (listed_rects self.entry.rects.now self.entry.places.now) b }
    {
        let mut total = 0;
        for &place in self.places {
            total += overlap_of(self.rects[place as usize], b);
        }
        total
    }
}
