// The unit for other languages, as a static library.
#![tactic(auto)]

ghost use Rattle.std.specs.Prelude.{◌≡◌, length};
ghost use Rattle.unit.specs.Whole.{reply_for, code_of};
ghost use Rattle.unit.specs.Guarantee.{Guarantee};

// The unit's entry of that name, under the same clauses.
#[unsafe(no_mangle)]
pub extern "C" fn density_answer(file: &[u8], out: &mut [u8]) -> u64
    ensures code { result ≡ code_of (reply_for file.now (length out.old)) }
    ensures guarantee { Guarantee file.now out.old (reply_for file.now (length out.old)) out.new }
{
    unit::density_answer(file, out)
}
