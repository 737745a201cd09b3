// The regions of a table that are left for a box.
ghost use Rattle.std.specs.Prelude.{◌≤◌, length};
ghost use Rattle.spacing.specs.Sizes.{live_room};
ghost use Rattle.geometry.specs.Cuts.{FullBox};
ghost use Rattle.geometry.specs.Places.{Listed};

use arrayvec::ArrayVec;
use geometry::{MOST_RECTS, Rect};
use spacing::Region;

// How many regions may be left for a box, or be live.
pub(crate) const LIVE_ROOM: usize = MOST_RECTS;

// A box that has squares, and the regions of a table that are left for it, by their
// places. Places are small numbers, so that the lists of all boxes under way take little
// room.
#[derive(Clone, Copy)]
pub(crate) struct Left<'a> {
    pub(crate) bounds: Rect,
    pub(crate) regions: &'a [Region],
    pub(crate) places: &'a [u16],
    ghost full: { FullBox bounds },
    ghost listed: { Listed regions.now places.now },
    ghost few: { length places.now ≤ live_room },
}

impl<'a> Left<'a> {
    ghost use Rattle.std.specs.Prelude.{◌<◌, ◌≡◌, [], true, MatchOption, Contains, Some, slice_get};
    ghost use Rattle.free.specs.Free.{held_by, AgreeOn};
    ghost use Rattle.free.specs.Counting.{regions_left, Enough};

    // The region at a place.
    pub(crate) fn region(self, place: u16) -> Region
        requires { place < length self.regions.now }
        ensures { slice_get self.entry.regions.now place ≡ Some result }
    {
        self.regions[usize::from(place)]
    }

    // Those that come near the box and that the one at place `lead` does not make idle,
    // listed in `own`, or none where one covers it. The contract leaves open which are
    // kept: they hold all squares of the box that the others do.
    pub(crate) fn keep_near<'b>(
        self,
        lead: u16,
        own: &'b mut ArrayVec<u16, LIVE_ROOM>,
    ) -> Option<Left<'b>>
    where
        'a: 'b,
        requires has_lead { Contains self.places.now lead }
        requires empty { own.old.items ≡ [] }
        ensures { MatchOption result (AgreeOn self.entry.bounds (held_by (regions_left self.entry)) (λ x y. true)) (λ left. Enough self.entry left) }
    {
        let c = self.region(lead);
        for &place in self.places {
            let r = self.region(place);
            if r.is_near(self.bounds) {
                if r.covers_box(self.bounds) {
                    return None;
                }
                if !r.is_spare(usize::from(place), usize::from(lead), c, self.bounds) {
                    own.push(place);
                }
            }
        }
        Some(Left {
            bounds: self.bounds,
            regions: self.regions,
            places: own.as_slice(),
        })
    }

    // The place of the region that the nearest square of the box lies deepest in: it is
    // likely to make many others idle. The contract leaves open which it is, since every
    // one gives the same count. No `max_by_key`: that its closure may be called for each
    // place did not close.
    pub(crate) fn deepest(self) -> u16
        requires { 0 < length self.places.now }
        ensures { Contains self.entry.places.now result }
    {
        let mut lead = self.places[0];
        let mut most = 0;
        for &place in self.places {
            let depth = self.region(place).depth_in(self.bounds);
            if most < depth {
                lead = place;
                most = depth;
            }
        }
        lead
    }
}
