// What a job is answered, and its six lines, written by pattern: the contracts fix
// each byte, of which those of a Display would say nothing.
#![tactic(auto, unfolding(spelling::specs::Text::bytes))]

ghost use Rattle.std.specs.Prelude.{◌≡◌, ◌+◌, ◌*◌, ◌≤◌, ◌++◌, length};
ghost use Rattle.arrayvec.specs.ArrayVec.{array_vec_len};
ghost use Rattle.spelling.specs.Pattern.{spell};
ghost use Rattle.answers.specs.Lines.{exact_line, zoom_word, end_word, level_part, zoom_line, density_line, positions_line, bound_word, failing_start, verdict_line, text_of};
ghost use Rattle.answers.specs.Room.{number_room, exact_room, zoom_word_room, end_room, level_part_room, zoom_room, density_room, positions_room, bound_room, start_room, verdict_room, answer_room};

use arrayvec::ArrayVec;
use extremes::Extremes;
use fill::{Bound, Failure, Verdict};
use geometry::Sense;
use levels::Level;
use positions::Tally;
use zoom::{End, Quick};

// The room that every answer fits, with 20 digits to each number: the six
// lines take at most 200, 208, 208, 40, 80 and 72 bytes.
pub const ANSWER_ROOM: usize = 200 + 208 + 208 + 40 + 80 + 72;

// A text that grows, in fixed memory.
pub type Text = ArrayVec<u8, ANSWER_ROOM>;

// The shapes under each window that an answer names, by the word it stands after.
#[derive(Clone, Copy)]
pub struct Counts {
    pub max: u64,
    pub min: u64,
    pub floor: u64,
    pub high: u64,
}

// What an accepted job is answered, before it is written as text.
#[derive(Clone, Copy)]
pub struct Answer {
    pub exact: Extremes, // the exact run
    pub greatest: Quick, // the quick run for the greatest window
    pub least: Quick, // the quick run for the least window
    pub counts: Counts, // the shapes under the windows that these name
    pub density: u64, // of the bracket of the greatest
    pub positions: Tally, // under, within and over the bounds
    pub verdict: Verdict, // on the fill
}

// Writes a pattern's text behind a text where there is room for the most digits
// that a number takes.
#[tactic(auto, using(crate::proofs::Length::spell_fits))]
pub fn write_line<const N: usize>(pattern: &[u8], values: &[u64], text: &mut ArrayVec<u8, N>)
    requires { array_vec_len text.old + (length pattern.now + number_room * length values.now) ≤ N }
    ensures written { text.new.items ≡ text.old.items ++ spell pattern.now values.now }
    ensures within { array_vec_len text.new ≤ array_vec_len text.old + (length pattern.now + number_room * length values.now) }
{
    spelling::write_as(pattern, values, text);
}

// Writes bytes as they stand.
fn write_word(word: &[u8], text: &mut Text)
    requires { array_vec_len text.old + length word.now ≤ answer_room }
    ensures written { text.new.items ≡ text.old.items ++ word.now }
    ensures within { array_vec_len text.new ≤ array_vec_len text.old + length word.now }
{
    let _fits = text.try_extend_from_slice(word);
}

fn write_exact(e: Extremes, counts: Counts, text: &mut Text)
    requires { array_vec_len text.old + exact_room ≤ answer_room }
    ensures written { text.new.items ≡ text.old.items ++ exact_line e counts }
    ensures within { array_vec_len text.new ≤ array_vec_len text.old + exact_room }
{
    let values = [
        e.greatest.area,
        e.greatest.x,
        e.greatest.y,
        counts.max,
        e.least.area,
        e.least.x,
        e.least.y,
        counts.min,
    ];
    write_line(b"(exact (max # # # #) (min # # # #))\n", &values, text);
}

fn zoom_word(sense: Sense) -> &'static [u8]
    ensures { result.now ≡ zoom_word sense }
{
    match sense {
        Sense::Greatest => b"(zoom ",
        Sense::Least => b"(zoommin ",
    }
}

fn end_word(end: End) -> &'static [u8]
    ensures { result.now ≡ end_word end }
{
    match end {
        End::Met => b"met",
        End::Stopped => b"stopped",
        End::Exact => b"exact",
    }
}

fn write_level(sense: Sense, done: u64, last: Level, shapes: u64, text: &mut Text)
    requires { array_vec_len text.old + level_part_room ≤ answer_room }
    ensures written { text.new.items ≡ text.old.items ++ level_part sense done last shapes }
    ensures within { array_vec_len text.new ≤ array_vec_len text.old + level_part_room }
{
    let p = last.named;
    match sense {
        Sense::Greatest => {
            let values = [done, p.area, p.x, p.y, shapes, last.limit, last.kept];
            write_line(
                b" (levels #) (floor # # # #) (ceiling #) (kept #))\n",
                &values,
                text,
            );
        }
        Sense::Least => {
            let values = [done, last.limit, p.area, p.x, p.y, shapes, last.kept];
            write_line(
                b" (levels #) (low #) (high # # # #) (kept #))\n",
                &values,
                text,
            );
        }
    }
}

fn write_quick(sense: Sense, q: Quick, shapes: u64, text: &mut Text)
    requires { array_vec_len text.old + zoom_room ≤ answer_room }
    ensures written { text.new.items ≡ text.old.items ++ zoom_line sense q shapes }
    ensures within { array_vec_len text.new ≤ array_vec_len text.old + zoom_room }
{
    write_word(zoom_word(sense), text);
    write_word(end_word(q.end), text);
    write_level(sense, q.done, q.last, shapes, text);
}

fn write_density(density: u64, text: &mut Text)
    requires { array_vec_len text.old + density_room ≤ answer_room }
    ensures written { text.new.items ≡ text.old.items ++ density_line density }
    ensures within { array_vec_len text.new ≤ array_vec_len text.old + density_room }
{
    write_line(b"(density #)\n", &[density], text);
}

fn write_positions(t: Tally, text: &mut Text)
    requires { array_vec_len text.old + positions_room ≤ answer_room }
    ensures written { text.new.items ≡ text.old.items ++ positions_line t }
    ensures within { array_vec_len text.new ≤ array_vec_len text.old + positions_room }
{
    write_line(b"(positions # # #)\n", &[t.under, t.within, t.over], text);
}

fn bound_word(b: Bound) -> &'static [u8]
    ensures { result.now ≡ bound_word b }
{
    match b {
        Bound::Over => b" over",
        Bound::Under => b" under",
    }
}

// Writes a verdict's word and the failing start that it names.
fn write_failing(word: &[u8], f: Failure, text: &mut Text)
    requires { array_vec_len text.old + (length word.now + start_room) ≤ answer_room }
    ensures written { text.new.items ≡ text.old.items ++ (word.now ++ failing_start f) }
    ensures within { array_vec_len text.new ≤ array_vec_len text.old + (length word.now + start_room) }
{
    write_word(word, text);
    write_word(bound_word(f.bound), text);
    write_line(b" # #)\n", &[f.column, f.row], text);
}

fn write_verdict(v: Verdict, text: &mut Text)
    requires { array_vec_len text.old + verdict_room ≤ answer_room }
    ensures written { text.new.items ≡ text.old.items ++ verdict_line v }
    ensures within { array_vec_len text.new ≤ array_vec_len text.old + verdict_room }
{
    match v {
        Verdict::Safe => write_word(b"(fill safe)\n", text),
        Verdict::Broken(f) => write_failing(b"(fill broken", f, text),
        Verdict::Undecided(f) => write_failing(b"(fill undecided", f, text),
    }
}

// The six lines.
#[tactic(auto, unfolding(crate::specs::Lines::text_of))]
pub fn text_of(a: Answer) -> Text
    ensures { result.items ≡ text_of a }
{
    let mut text = ArrayVec::new();
    write_exact(a.exact, a.counts, &mut text);
    write_quick(Sense::Greatest, a.greatest, a.counts.floor, &mut text);
    write_quick(Sense::Least, a.least, a.counts.high, &mut text);
    write_density(a.density, &mut text);
    write_positions(a.positions, &mut text);
    write_verdict(a.verdict, &mut text);
    text
}
