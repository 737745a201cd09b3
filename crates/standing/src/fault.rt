// What may be wrong with a job.
ghost use Rattle.std.specs.Prelude.{◌≡◌};
ghost use Rattle.standing.specs.Fault.{fault_number};

// The faults, numbered from 1 on as in the answer (refused NUMBER LINE).
#[derive(Clone, Copy, PartialEq, Eq)]
pub enum Fault {
    TooLong = 1, // 1: the file has more bytes than are allowed
    NotSpelled, // 2: a line is none of the spellings
    OutOfRange, // 3: a number is not in its range
    OutOfTurn, // 4: a form comes where it may not
    HeadDisagrees, // 5: the head does not agree with itself
    OutsideLayout, // 6: a shape's corners are swapped, or past the layout
    NoSuchTile, // 7: a fill is for no tile of the layout
    TooManyShapes, // 8: as many shapes as are allowed stand already
    SharedSquare, // 9: a shape shares a unit square with one that stands
    FilledTwice, // 10: a tile has a fill already
    NoRoom, // 11: a fill exceeds its tile's fillable area
    NoEnd, // 12: the file stops before an (end)
    ShortBuffer, // 13: the buffer is shorter than the answer
}

impl Fault {
    pub fn number(self) -> u64
        ensures { result ≡ fault_number self }
    {
        self as u64
    }
}
