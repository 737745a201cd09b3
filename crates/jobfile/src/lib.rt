// The job file: its reader.
#![tactic(auto)]

ghost use Rattle.std.specs.Prelude.{◌≡◌, ◌≤◌, length};
ghost use Rattle.spelling.specs.Text.{pieces};
ghost use Rattle.forms.specs.Limits.{unit_limits};
ghost use Rattle.standing.specs.Faults.{before_head};
ghost use Rattle.jobfile.specs.File.{outcome_of, read_lines};
ghost use Rattle.jobfile.specs.Lined.{LineRead, told_by, told};

use faults::check_line;
use forms::MOST_BYTES;
use lines::form_of;
use spelling::first_line;
use standing::{Fault, Standing, Turn};

// What a file is refused for: its first fault, and the line that has it; 0 where it
// is a fault of no line.
#[derive(Clone, Copy)]
pub struct Refusal {
    pub fault: Fault,
    pub line: u64,
}

// Reads the first line of what is left of a file; what comes back is its length with
// its line feed.
fn read_line(rest: &[u8], s: &mut Standing) -> Result<usize, Fault>
    ensures { LineRead rest.now s.old result s.new }
{
    let n = first_line(rest);
    if rest.len() <= n {
        return Err(Fault::NotSpelled);
    }
    let form = form_of(&rest[..n]);
    check_line(s, form)?;
    s.enter(form);
    Ok(n + 1)
}

// Reads all lines of a file that is not too long.
fn read_lines(file: &[u8], s: &mut Standing) -> Result<(), Refusal>
    requires few { length file.now ≤ unit_limits.bytes }
    requires start { s.old ≡ before_head }
    ensures { told_by result s.new ≡ read_lines unit_limits before_head 1 (pieces file.now) }
{
    let mut line = 1;
    let mut rest = file;
    while !rest.is_empty() {
        match read_line(rest, s) {
            Ok(used) => {
                rest = &rest[used..];
                line += 1;
            }
            Err(fault) => return Err(Refusal { fault, line }),
        }
    }
    match s.turn() {
        Turn::Done => Ok(()),
        _ => Err(Refusal {
            fault: Fault::NoEnd,
            line,
        }),
    }
}

// Reads a job file into what stands before its first line: what stands at its end, or
// what it is refused for. What stands is lent, since it is large.
#[tactic(auto, unfolding(crate::specs::File::outcome_of))]
pub fn read_into(file: &[u8], s: &mut Standing) -> Result<(), Refusal>
    requires { s.old ≡ before_head }
    ensures { told_by result s.new ≡ outcome_of unit_limits file.now }
{
    if MOST_BYTES < file.len() {
        return Err(Refusal {
            fault: Fault::TooLong,
            line: 0,
        });
    }
    read_lines(file, s)
}

// The same, with what stands at the end handed back.
pub fn read(file: &[u8]) -> Result<Standing, Refusal>
    ensures { told result ≡ outcome_of unit_limits file.now }
{
    let mut s = Standing::new();
    read_into(file, &mut s)?;
    Ok(s)
}
