// Sums over the sides of a strip that are carried along.
ghost use Rattle.std.specs.Prelude.{◌≡◌};
ghost use Rattle.sweep.specs.Strips.{Sides};
ghost use Rattle.sweep.specs.Cursors.{cursor_at, edges_at, StandsBefore, EdgesBefore};

use crate::Upright;

// Where a sum over the sides of a strip stands, at some column: how many of the
// sides are left of it, the sum of their rows and the sum of rows × column, which
// are carried along; and the sum of their ramps, which these give.
#[derive(Clone, Copy)]
pub struct Cursor {
    pub passed: usize,
    pub rows: u64,
    pub moment: u64,
    pub ramps: u64,
}

// The cursors over one list of sides at both edges of a box.
#[derive(Clone, Copy)]
pub struct Edges {
    pub left: Cursor,
    pub right: Cursor,
}

impl Cursor {
    // From the sums at one column to those at a later one: the sides between are
    // taken in.
    fn advance(self, sides: &[Upright], x: u64) -> Cursor
        requires sides { Sides sides.now }
        requires stands_before { StandsBefore sides.now self x }
        ensures { result ≡ cursor_at sides.now x }
    {
        let mut passed = self.passed;
        let mut rows = self.rows;
        let mut moment = self.moment;
        for side in &sides[self.passed..] {
            if x <= side.column {
                break;
            }
            passed += 1;
            rows += side.rows;
            moment += side.rows * side.column;
        }
        Cursor {
            passed,
            rows,
            moment,
            ramps: rows * x - moment,
        }
    }
}

impl Edges {
    // The same for both edges of a box.
    pub(crate) fn advance(self, sides: &[Upright], left: u64, right: u64) -> Edges
        requires sides { Sides sides.now }
        requires edges_before { EdgesBefore sides.now self left right }
        ensures { result ≡ edges_at sides.now left right }
    {
        Edges {
            left: self.left.advance(sides, left),
            right: self.right.advance(sides, right),
        }
    }
}
