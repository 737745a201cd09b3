// Boxes that are cut in two, and the lines that they may be cut at.
ghost use Rattle.std.specs.Prelude.{◌-◌, ◌≤◌, ◌<◌, min, ◌≡◌};
ghost use Rattle.geometry.specs.Cuts.{FullBox, Nearer, before, behind, size_of};

use crate::{Cut, Rect};

// The number of unit squares of a box.
pub fn box_size(b: Rect) -> u64
    requires { FullBox b }
    ensures { result ≡ size_of b }
{
    (b.x2 - b.x1) * (b.y2 - b.y1)
}

// The smaller of the two parts of a side.
pub fn smaller_part(low: u64, high: u64, at: u64) -> u64
    requires { (low ≤ at) × (at < high) }
    ensures { result ≡ min (at - low) (high - at) }
{
    (at - low).min(high - at)
}

// Of the line so far and another one that nearer the middle; one that does not cross
// the side is not taken. The contract leaves open which it is, since every cut inside
// a box is right.
pub fn nearer_middle(low: u64, high: u64, line: u64, at: u64) -> u64
    requires { (low ≤ line) × (line < high) }
    ensures { Nearer low high line at result }
{
    if at <= low {
        return line;
    }
    if high <= at {
        return line;
    }
    if smaller_part(low, high, at) <= smaller_part(low, high, line) {
        return line;
    }
    at
}

// The part of a box before a cut.
pub fn part_before(b: Rect, c: Cut) -> Rect
    ensures { result ≡ before b c }
{
    match c {
        Cut::Column(x) => Rect { x2: x, ..b },
        Cut::Row(y) => Rect { y2: y, ..b },
    }
}

// The part behind it.
pub fn part_behind(b: Rect, c: Cut) -> Rect
    ensures { result ≡ behind b c }
{
    match c {
        Cut::Column(x) => Rect { x1: x, ..b },
        Cut::Row(y) => Rect { y1: y, ..b },
    }
}
