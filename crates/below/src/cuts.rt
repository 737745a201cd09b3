// Where a box of positions is cut in two: where an edge of the window meets a side of
// a rectangle that is left, nearest the middle. Every cut inside the box is right, so
// no contract says which one is taken.
ghost use Rattle.std.specs.Prelude.{◌≤◌, ◌<◌, length};
ghost use Rattle.geometry.specs.Cuts.{FullBox, InBox, Cuts};
ghost use Rattle.below.specs.Counting.{Bending, Crossed, NearestBend, Offered, LinesFor};

use crate::Axis;
use crate::left::Left;
use geometry::{Cut, Lines, Rect, nearer_middle};

// Of the line so far and the positions where an edge of the window meets an end of the
// span from c to d, that nearest the middle.
fn nearest_bend(w: u64, c: u64, d: u64, low: u64, high: u64, line: u64) -> u64
    requires { (low ≤ line) × (line < high) }
    ensures { NearestBend w c d low high result }
{
    let at_low = nearer_middle(low, high, line, c);
    let at_high = nearer_middle(low, high, at_low, d);
    let far_low = nearer_middle(low, high, at_high, c.saturating_sub(w));
    nearer_middle(low, high, far_low, d.saturating_sub(w))
}

// The better of the lines so far and those by a rectangle.
fn offer(w: u64, b: Rect, r: Rect, l: Lines) -> Lines
    requires { InBox b l }
    ensures { Offered w b r result }
{
    Lines {
        column: nearest_bend(w, r.x1, r.x2, b.x1, b.x2, l.column),
        row: nearest_bend(w, r.y1, r.y2, b.y1, b.y2, l.row),
    }
}

// The line of an axis if it crosses the box, else that of the other one.
fn choose(axis: Axis, b: Rect, l: Lines) -> Cut
    requires in_box { InBox b l }
    requires crossed { Crossed b l }
    ensures { Cuts b result }
{
    let by_column = match axis {
        Axis::Across => b.x1 < l.column,
        Axis::Down => l.row <= b.y1,
    };
    if by_column {
        Cut::Column(l.column)
    } else {
        Cut::Row(l.row)
    }
}

impl Left<'_> {
    // The lines nearest the middle by all its rectangles.
    fn lines(self, w: u64, b: Rect) -> Lines
        requires full_box { FullBox b }
        requires bending { Bending self.rects.now self.places.now w b }
        ensures { LinesFor (length self.entry.places.now) b result }
    {
        let mut lines = Lines {
            column: b.x1,
            row: b.y1,
        };
        for &place in self.places {
            lines = offer(w, b, self.rects[place as usize], lines);
        }
        lines
    }

    // A cut of a box in which the overlap of each of its rectangles may bend.
    pub(crate) fn cut_for(self, w: u64, axis: Axis, b: Rect) -> Cut
        requires full_box { FullBox b }
        requires bending { Bending self.rects.now self.places.now w b }
        requires places_nonzero { 0 < length self.places.now }
        ensures { Cuts b result }
    {
        choose(axis, b, self.lines(w, b))
    }
}
