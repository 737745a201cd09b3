// The density unit: from a job file's bytes to the answer's bytes.
#![tactic(auto)]

mod render;

ghost use Rattle.std.specs.Prelude.{◌^◌, ◌<◌, ◌≤◌, ◌≡◌, length};
ghost use Rattle.arrayvec.specs.ArrayVec.{array_vec_len};
ghost use Rattle.buffers.specs.Written.{Front};
ghost use Rattle.jobfile.specs.File.{refused};
ghost use Rattle.standing.specs.Fault.{fault_number};
ghost use Rattle.unit.specs.Whole.{reply_of, reply_for, code_of, printed_of};
ghost use Rattle.unit.specs.Guarantee.{Guarantee, Reported};

pub use answers::ANSWER_ROOM;
use answers::{Text, write_line};
use arrayvec::ArrayVec;
pub use jobfile::Refusal;
use render::render;
pub use standing::Fault;

// Copies a text to the front of a buffer, and gives its length.
fn copy_front(text: &Text, out: &mut [u8]) -> usize
    requires { array_vec_len text.now ≤ length out.old }
    ensures { Front out.old text.now.items out.new result }
{
    let length = text.len();
    out[..length].copy_from_slice(text.as_slice());
    length
}

// Answers a job file into a lent buffer, and replies with the answer's length, or
// with what the job is refused for. An accepted file's answer stands at the front of
// the buffer, and nothing behind it changes; a refused file, a buffer that is too
// short included, leaves every byte as it was.
pub fn answer(file: &[u8], out: &mut [u8]) -> Result<usize, Refusal>
    ensures { Guarantee file.now out.old (reply_of result) out.new }
{
    let text = render(file)?;
    if out.len() < text.len() {
        return Err(Refusal {
            fault: Fault::ShortBuffer,
            line: 0,
        });
    }
    Ok(copy_front(&text, out))
}

// The line that a refused file prints.
#[tactic(auto, unfolding(spelling::specs::Text::bytes))]
fn refusal_line(refusal: Refusal) -> Text
    ensures { result.items ≡ printed_of (refused (fault_number refusal.fault) refusal.line) }
{
    let mut text = ArrayVec::new();
    let values = [refusal.fault.number(), refusal.line];
    write_line(b"(refused # #)\n", &values, &mut text);
    text
}

// What the program prints for a file, at the front of a buffer that always
// holds it.
pub fn report(file: &[u8], out: &mut [u8; ANSWER_ROOM]) -> usize
    ensures { Reported file.now out.old result out.new }
{
    let text = render(file).unwrap_or_else(refusal_line);
    copy_front(&text, out)
}

// A reply as one number: its length, or 100000 times the fault's number and its
// line.
fn code(reply: Result<usize, Refusal>) -> u64
    requires { code_of (reply_of reply) < 2 ^ 64 }
    ensures { result ≡ code_of (reply_of reply) }
{
    match reply {
        Ok(bytes) => bytes as u64,
        Err(refusal) => 100000 * refusal.fault.number() + refusal.line,
    }
}

// The unit for other languages: `answer`, with its reply as one number. `unit_c`
// exports it.
pub fn density_answer(file: &[u8], out: &mut [u8]) -> u64
    ensures code { result ≡ code_of (reply_for file.now (length out.old)) }
    ensures guarantee { Guarantee file.now out.old (reply_for file.now (length out.old)) out.new }
{
    code(answer(file, out))
}
