// Lines by pattern: the one speller that reads job lines and writes answer lines.
#![tactic(auto)]

ghost use Rattle.std.specs.Prelude.{◌≡◌, ◌+◌, ◌≤◌, ◌<◌, ◌∷◌, [], ◌++◌, length, is_some, IfSome, option_map};
ghost use Rattle.arrayvec.specs.ArrayVec.{array_vec_len};
ghost use Rattle.spelling.specs.Scanning.{digits_room, places, padded, line_length};
ghost use Rattle.spelling.specs.Decimal.{decimal, digits_of, past_digits, value_from, is_spelling, is_numeral};
ghost use Rattle.spelling.specs.Pattern.{spell, read_as};

use arrayvec::ArrayVec;
use itoa::Buffer;

// The length of the first line of a text: up to its first line feed, or all of
// the text where there is none.
pub fn first_line(text: &[u8]) -> usize
    ensures { result ≡ line_length text.now }
{
    text.iter().position(|b| *b == b'\n').unwrap_or(text.len())
}

// The digits with which a text begins, and what follows them.
fn split_digits(text: &[u8]) -> (&[u8], &[u8])
    ensures digits { result.0.now ≡ digits_of text.now }
    ensures rest { result.1.now ≡ past_digits text.now }
{
    let end = text
        .iter()
        .position(|b| !b.is_ascii_digit())
        .unwrap_or(text.len());
    text.split_at(end)
}

// Whether digits spell a number: there are some, and no zero leads them but for
// 0 itself.
#[tactic(auto, using(crate::proofs::Digits::spells_none, crate::proofs::Digits::spells_one, crate::proofs::Digits::spells_more))]
fn is_spelling(digits: &[u8]) -> bool
    requires { digits_of digits.now ≡ digits.now }
    ensures { result ≡ is_spelling digits.now }
{
    match digits {
        [] => false,
        [_] => true,
        [first, ..] => *first != b'0',
    }
}

// The number that digits stand for.
#[tactic(auto, using(crate::proofs::Digits::digit_at, crate::proofs::Digits::value_all))]
fn value_of(digits: &[u8]) -> u64
    requires are_digits { digits_of digits.now ≡ digits.now }
    requires few { length digits.now ≤ digits_room }
    ensures { result ≡ value_from 0 digits.now }
{
    let mut value = 0;
    for b in digits {
        value = 10 * value + u64::from(b - b'0');
    }
    value
}

// The number with which a text begins, of at most so many digits, and what
// follows it.
#[tactic(auto, using(crate::proofs::Digits::digits_twice))]
fn read_number(text: &[u8], most: usize) -> Option<(u64, &[u8])>
    requires { most ≤ digits_room }
    ensures is_number { is_some result ≡ is_numeral most (digits_of text.now) }
    ensures value { IfSome result (λ n. n.0 ≡ value_from 0 (digits_of text.now)) }
    ensures rest { IfSome result (λ n. n.1.now ≡ past_digits text.now) }
{
    let (digits, rest) = split_digits(text);
    if digits.len() <= most && is_spelling(digits) {
        Some((value_of(digits), rest))
    } else {
        None
    }
}

// Reads a line against a pattern, each number of at most so many digits: its
// numbers in order, 0 behind them.
pub fn read_as<const N: usize>(line: &[u8], pattern: &[u8], most: usize) -> Option<[u64; N]>
    requires numbers { places pattern.now ≤ N }
    requires digits_fit { most ≤ digits_room }
    ensures { result ≡ option_map (padded N) (read_as most pattern.now line.now) }
{
    let mut values = [0u64; N];
    let mut count = 0;
    let mut rest = line;
    for c in pattern {
        if *c == b'#' {
            let (value, others) = read_number(rest, most)?;
            values[count] = value;
            count += 1;
            rest = others;
        } else {
            rest = rest.strip_prefix(&[*c])?;
        }
    }
    if rest.is_empty() { Some(values) } else { None }
}

// Writes a number behind a text.
#[tactic(auto, using(crate::proofs::Writing::printed_so))]
fn write_number<const N: usize>(n: u64, text: &mut ArrayVec<u8, N>)
    requires { array_vec_len text.old + length (decimal n) ≤ N }
    ensures { text.new.items ≡ text.old.items ++ decimal n }
{
    let mut buffer = Buffer::new();
    let _fits = text.try_extend_from_slice(buffer.format(n).as_bytes());
}

// Writes a pattern with numbers behind a text.
pub fn write_as<const N: usize>(pattern: &[u8], values: &[u64], text: &mut ArrayVec<u8, N>)
    requires { array_vec_len text.old + length (spell pattern.now values.now) ≤ N }
    ensures { text.new.items ≡ text.old.items ++ spell pattern.now values.now }
{
    let mut left = values;
    for c in pattern {
        match left.split_first() {
            Some((n, others)) if *c == b'#' => {
                write_number(*n, text);
                left = others;
            }
            _ => text.push(*c),
        }
    }
}
