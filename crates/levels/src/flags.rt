// One flag to a start of the level before, in a table that may be shorter than
// the starts are many: what does not fit is not passed over.
ghost use Rattle.std.specs.Prelude.{◌*◌, ◌≤◌, min, ◌≡◌, set};
ghost use Rattle.levels.specs.Sizes.{flags_room, starts_room};
ghost use Rattle.levels.specs.Passing.{flag_above};

// The flags of a level, one to a start, fit up to 505 starts on an axis, which the
// largest legal job has at level 3, the last whose flags are read. Where there
// are more, those without a flag are not passed over.
pub const MOST_FLAGS: usize = 505 * 505;

// How many flags a level has with so many starts on an axis, as far as its table
// goes.
pub fn flag_count(starts: u64) -> usize
    requires { starts ≤ starts_room }
    ensures { result ≡ min (starts * starts) flags_room }
{
    (starts * starts).min(MOST_FLAGS as u64) as usize
}

// The flags of the level before, `stride` to a row of its starts.
#[derive(Clone, Copy)]
pub struct Flags<'a> {
    pub table: &'a [bool],
    pub stride: u64,
    pub ghost few: { stride ≤ starts_room },
}

impl Flags<'_> {
    // The flag that decides on start (i, j): that of the start of the level before
    // that it lies next to.
    pub(crate) fn above(self, i: u64, j: u64) -> bool
        requires column { i ≤ starts_room }
        requires row { j ≤ starts_room }
        ensures { result ≡ flag_above self.entry.table.now self.entry.stride i j }
    {
        let at = j / 2 * self.stride + i / 2;
        self.table.get(at as usize).copied().unwrap_or(false)
    }
}

// Writes a flag at a place of a table. Written by its index, since the contract of
// a slice's `get_mut` leaves open what the slice holds afterwards.
pub(crate) fn put_flag(flags: &mut [bool], at: u64, flag: bool)
    ensures { flags.new ≡ set flags.old at flag }
{
    let i = at as usize;
    if i < flags.len() {
        flags[i] = flag;
    }
}
