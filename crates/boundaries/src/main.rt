// Files at the limits that document 01 asks to be run, with dummies among the shapes
// too, and at the ends of the ranges of numbers: what the program prints for each.
#![tactic(auto)]

use reading::read_full;
use std::fs;
use std::rt::Files;

// Prints what the program prints for a file. One that cannot be opened is named on
// standard error and passed over.
fn show(rt: &(impl Files + Print + Eprint), path: &str) {
    let mut input = match fs::open(rt, path) {
        Ok(input) => input,
        Err(e) => {
            let _ = eprintln!(rt; "{path}: {e}");
            return;
        }
    };
    let mut file = [0u8; 65536];
    let n = read_full(&mut input, &mut file);
    let mut text = [0u8; unit::ANSWER_ROOM];
    let length = unit::report(&file[..n], &mut text);
    let _ = rt.write_all(&text[..length]);
}

// Document 01's limits and edges.
const LIMITS: [&str; 19] = [
    "bytes_60000.job",
    "bytes_60001.job",
    "rects_256.job",
    "rects_257.job",
    "shapes_256.job",
    "shapes_257.job",
    "tiles_64.job",
    "tiles_65.job",
    "fill_all.job",
    "fill_one_more.job",
    "rects_touch.job",
    "corners_touch.job",
    "one_square_shared.job",
    "accuracy_0.job",
    "accuracy_1000.job",
    "window_is_layout.job",
    "empty.job",
    "no_end.job",
    "no_line_feed.job",
];

// The largest numbers, each with the next one, and at last positions among bounds in
// the largest layout.
const RANGES: [&str; 17] = [
    "side_1000000.job",
    "side_1000001.job",
    "window_1000000.job",
    "window_1000001.job",
    "gap_1000000.job",
    "gap_1000000_one_more.job",
    "gap_1000001.job",
    "dummy_gap_1000000.job",
    "dummy_gap_1000000_one_more.job",
    "dummy_gap_1000001.job",
    "corner_1000000.job",
    "corner_1000001.job",
    "amount_1000000000000.job",
    "amount_1000000000001.job",
    "digits_13.job",
    "digits_14.job",
    "positions_1000000.job",
];

fn main(rt: HostRuntime) {
    for path in LIMITS {
        show(&rt, path);
    }
    for path in RANGES {
        show(&rt, path);
    }
}
