// Strips: what some rows hold of the rectangles, as two lists of sides.
ghost use Rattle.std.specs.Prelude.{◌≤◌, ◌≡◌, length};
ghost use Rattle.geometry.specs.Sizes.{most_rects};
ghost use Rattle.sweep.specs.Strips.{strip_sides, StripOf};

use crate::{Side, Sorted, Upright};
use arrayvec::ArrayVec;
use geometry::{MOST_RECTS, Rect};

// The strip of the rows from y1 to before y2: the low sides and the high sides that
// these rows hold, along which a box's area is the true one.
#[derive(Drop)]
pub struct Strip<'a> {
    pub sorted: &'a Sorted<'a>,
    pub y1: u64,
    pub y2: u64,
    pub lows: ArrayVec<Upright, MOST_RECTS>,
    pub highs: ArrayVec<Upright, MOST_RECTS>,
    pub ghost strip: { StripOf sorted.now.rects.now y1 y2 lows.items highs.items },
}

impl<'a> Strip<'a> {
    // The strip of no rows.
    pub fn new(sorted: &'a Sorted<'a>) -> Self
        ensures { result.sorted.now ≡ sorted.now }
    {
        Strip {
            sorted,
            y1: 0,
            y2: 0,
            lows: ArrayVec::new(),
            highs: ArrayVec::new(),
        }
    }

    // Makes it that of the rows y1 to y2.
    pub fn set_rows(&mut self, y1: u64, y2: u64)
        ensures sorted { self.new.sorted.now ≡ self.old.sorted.now }
        ensures first { self.new.y1 ≡ y1 }
        ensures last { self.new.y2 ≡ y2 }
    {
        set_sides(&mut self.lows, &self.sorted.lows, Side::Low, y1, y2);
        set_sides(&mut self.highs, &self.sorted.highs, Side::High, y1, y2);
        self.y1 = y1;
        self.y2 = y2;
    }
}

// The sides that the rows y1 to y2 hold, in the order of the rectangles.
fn set_sides(out: &mut ArrayVec<Upright, MOST_RECTS>, rects: &[Rect], side: Side, y1: u64, y2: u64)
    requires { length rects.now ≤ most_rects }
    ensures { out.new.items ≡ strip_sides rects.now side y1 y2 }
{
    out.clear();
    for &r in rects {
        let rows = geometry::common_length(r.y1, r.y2, y1, y2);
        if 0 < rows {
            let column = side.column(r);
            out.push(Upright { column, rows });
        }
    }
}
