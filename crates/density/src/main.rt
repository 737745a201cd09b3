// The program: a job file on standard input, its answer or its refusal on
// standard output.
#![tactic(auto)]

use reading::read_full;

// A file that fills the buffer is longer than any that is accepted, so no more
// of it is read. A read that fails counts as the end of the file, and a write that
// fails ends the program.
fn main(rt: HostRuntime) {
    let mut file = [0u8; 65536];
    let n = read_full(&mut rt.stdin(), &mut file);
    let mut text = [0u8; unit::ANSWER_ROOM];
    let length = unit::report(&file[..n], &mut text);
    let _ = rt.write_all(&text[..length]);
}
