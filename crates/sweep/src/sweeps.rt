// Sweeps: boxes that are carried along a strip.
ghost use Rattle.std.specs.Prelude.{◌≤◌, ◌≡◌};
ghost use Rattle.sweep.specs.Cursors.{Behind, ColumnsInOrder};
ghost use Rattle.sweep.specs.Sweeps.{strip_area};

use crate::{Frame, Strip, frames};

// A box that moves to the right along a strip. Wherever it stands, its area is the
// true one.
#[derive(Clone, Copy)]
pub struct Sweep<'a> {
    pub strip: &'a Strip<'a>,
    pub frame: Frame,
    pub ghost stands: { Behind strip.now.lows.items strip.now.highs.items frame frame.left frame.right },
}

impl<'a> Sweep<'a> {
    // From the empty box at column 0.
    pub fn start(strip: &'a Strip<'a>) -> Self
        ensures strip { result.strip.now ≡ strip.now }
        ensures left { result.frame.left ≡ 0 }
        ensures right { result.frame.right ≡ 0 }
    {
        Sweep {
            strip,
            frame: frames::start_frame(),
        }
    }

    // Moves the box to the right, each of its edges by itself. A quick run does so at
    // up to a million starts a level, where a call would make it a third slower.
    #[inline(always)]
    pub fn move_to(&mut self, left: u64, right: u64)
        requires left_later { self.old.frame.left ≤ left }
        requires right_later { self.old.frame.right ≤ right }
        requires columns_in_order { ColumnsInOrder left right }
        ensures strip { self.new.strip.now ≡ self.old.strip.now }
        ensures left { self.new.frame.left ≡ left }
        ensures right { self.new.frame.right ≡ right }
        ensures area { self.new.frame.area ≡ strip_area self.old.strip.now left right }
    {
        let strip = self.strip;
        self.frame = frames::move_to(&strip.lows, &strip.highs, self.frame, left, right);
    }
}
