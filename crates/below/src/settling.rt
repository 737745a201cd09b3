// What is settled for a box of positions: rectangles that no window meets, and those
// whose overlap runs straight along both axes, which the corners then tell.
ghost use Rattle.std.specs.Prelude.{◌≤◌, ◌≡◌, []};
ghost use Rattle.geometry.specs.Sizes.{widest, SmallRect};
ghost use Rattle.geometry.specs.Layout.{window_box};
ghost use Rattle.geometry.specs.Overlaps.{overlap};
ghost use Rattle.geometry.specs.Cuts.{FullBox};
ghost use Rattle.geometry.specs.Places.{Listed};
ghost use Rattle.straight.specs.Flatness.{corners_of};
ghost use Rattle.below.specs.Counting.{Bending, Settled};

use crate::bends::{may_bend, reached_box};
use crate::left::{Left, Places};
use geometry::{Rect, overlap_of, window_box};
use straight::{Corners, Patch};

// What a rectangle adds to the windows at the corners.
fn corner_overlaps(w: u64, b: Rect, r: Rect) -> Corners
    requires w_le_widest { (w ≤ widest) × FullBox b }
    requires small_rect { SmallRect r }
    ensures { result ≡ corners_of (λ x y. overlap r (window_box w x y)) b }
{
    Corners {
        southwest: overlap_of(r, window_box(w, b.x1, b.y1)),
        southeast: overlap_of(r, window_box(w, b.x2, b.y1)),
        northwest: overlap_of(r, window_box(w, b.x1, b.y2)),
        northeast: overlap_of(r, window_box(w, b.x2, b.y2)),
    }
}

// Lists the places of the rectangles that are left for a box, and adds those that are
// settled to its corners. The contract leaves open which are left: with the corners
// they make the whole area of every window.
pub(crate) fn settle(left: Left, w: u64, p: Patch, own: &mut Places) -> Patch
    requires settled { Settled left.rects.now left.places.now w p.extent p.corners }
    requires none_yet { own.old.items ≡ [] }
    ensures extent { result.extent ≡ p.extent }
    ensures listed { Listed left.entry.rects.now own.new.items }
    ensures bending { Bending left.entry.rects.now own.new.items w p.extent }
    ensures settled { Settled left.entry.rects.now own.new.items w p.extent result.corners }
{
    let b = p.extent;
    let reach = reached_box(w, b);
    let mut settled = p;
    for &place in left.places {
        let r = left.rects[place as usize];
        if 0 < overlap_of(r, reach) {
            if may_bend(w, b, r) {
                own.push(place);
            } else {
                settled = settled.plus(corner_overlaps(w, b, r));
            }
        }
    }
    settled
}
