// Which lines are spellings.
ghost use Rattle.std.specs.Prelude.{◌≡◌};
ghost use Rattle.forms.specs.Forms.{known};

use crate::Form;

// Whether a line is one of the spellings.
pub fn is_known(f: Form) -> bool
    ensures { result ≡ known f }
{
    !matches!(f, Form::Unknown)
}
