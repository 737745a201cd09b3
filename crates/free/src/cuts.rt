// Where a box is cut in two. Every cut inside it is right; a good one follows the
// straight edge of a region, which then no longer crosses either part. One outside
// the middle half of the box is moved there, so that the parts get small soon, and
// the edge is met in a later cut.
ghost use Rattle.std.specs.Prelude.{◌-◌, ◌<◌};
ghost use Rattle.geometry.specs.Cuts.{FullBox, InBox, Cuts};
ghost use Rattle.spacing.specs.Nearness.{Divisible};

use crate::left::Left;
use geometry::{Cut, Lines, Rect, nearer_middle, smaller_part};

// The better of the lines so far and a rectangle's sides.
fn offer(l: Lines, b: Rect, r: Rect) -> Lines
    requires { InBox b l }
    ensures { InBox b result }
{
    let left = nearer_middle(b.x1, b.x2, l.column, r.x1);
    let low = nearer_middle(b.y1, b.y2, l.row, r.y1);
    Lines {
        column: nearer_middle(b.x1, b.x2, left, r.x2),
        row: nearer_middle(b.y1, b.y2, low, r.y2),
    }
}

// A line moved into the middle half of a side.
fn in_middle_half(low: u64, high: u64, at: u64) -> u64
    requires { (low < at) × (at < high) }
    ensures { (low < result) × (result < high) }
{
    let quarter = (high - low) / 4;
    at.clamp(low + quarter, high - quarter)
}

// The middle of the longer side.
fn middle(b: Rect) -> Cut
    requires full_box { FullBox b }
    requires divisible { Divisible b }
    ensures { Cuts b result }
{
    let across = b.x2 - b.x1;
    let up = b.y2 - b.y1;
    if up <= across {
        Cut::Column(b.x1 + across / 2)
    } else {
        Cut::Row(b.y1 + up / 2)
    }
}

// The line with the larger smaller part; where there is none, the middle of the longer
// side.
fn choose(b: Rect, l: Lines) -> Cut
    requires full_box { FullBox b }
    requires divisible { Divisible b }
    requires in_box { InBox b l }
    ensures { Cuts b result }
{
    let across = smaller_part(b.x1, b.x2, l.column);
    let up = smaller_part(b.y1, b.y2, l.row);
    if across + up == 0 {
        middle(b)
    } else if up <= across {
        Cut::Column(in_middle_half(b.x1, b.x2, l.column))
    } else {
        Cut::Row(in_middle_half(b.y1, b.y2, l.row))
    }
}

impl<'a> Left<'a> {
    // The lines nearest the middle among the straight edges of all regions left.
    fn edges(self) -> Lines
        ensures { InBox self.entry.bounds result }
    {
        let mut lines = Lines {
            column: self.bounds.x1,
            row: self.bounds.y1,
        };
        for &place in self.places {
            lines = offer(lines, self.bounds, self.region(place).outline());
        }
        lines
    }

    // The same with the sides of the core, where one region is left: they part its
    // corners from its edges.
    fn lines(self) -> Lines
        ensures { InBox self.entry.bounds result }
    {
        let lines = self.edges();
        match self.places {
            &[place] => offer(lines, self.bounds, self.region(place).core),
            _ => lines,
        }
    }

    // Where the box is cut. The contract leaves open where, since every cut gives the
    // same count.
    pub(crate) fn cut(self) -> Cut
        requires { Divisible self.bounds }
        ensures { Cuts self.entry.bounds result }
    {
        choose(self.bounds, self.lines())
    }
}
