// Quotients rounded to the nearest whole number, in whole numbers.
#![tactic(auto)]

ghost use Rattle.std.specs.Prelude.{◌≤◌, ◌≡◌};
ghost use Rattle.rounding.specs.Nearest.{rounded};

// a / b rounded to the nearest, an exact half to the even neighbour. What is past
// the lower neighbour is held to what is missing to the upper one, and not twice
// the remainder to b: that could overflow.
pub fn rounded(a: u64, b: u64) -> u64
    requires { 1 ≤ b }
    ensures { result ≡ rounded a b }
{
    let lower = a / b;
    let past = a % b;
    let missing = b - past;
    if past < missing {
        return lower;
    }
    if missing < past {
        return lower + 1;
    }
    if lower % 2 == 0 {
        return lower;
    }
    lower + 1
}
