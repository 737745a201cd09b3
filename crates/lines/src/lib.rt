// The form that a line of a job file spells.
#![tactic(auto, using(spelling::proofs::Inverse::whole_table), unfolding(spelling::specs::Text::bytes, spelling::specs::Scanning::places, crate::specs::Spellings::one_gap_pattern, crate::specs::Spellings::two_gaps_pattern, crate::specs::Spellings::rect_pattern, crate::specs::Spellings::dummy_pattern, crate::specs::Spellings::fill_pattern, crate::specs::Spellings::end_pattern))]

ghost use Rattle.std.specs.Prelude.{◌≡◌, option_map};
ghost use Rattle.spelling.specs.Pattern.{read_as};
ghost use Rattle.forms.specs.Limits.{unit_limits};
ghost use Rattle.lines.specs.Spellings.{one_gap_pattern, two_gaps_pattern, shape_pattern, fill_pattern, end_pattern};
ghost use Rattle.lines.specs.Reading.{one_gap_form, two_gaps_form, shape_form, fill_form, end_form, form_of};

use forms::{Form, Gap, Head, Kind, MOST_DIGITS, Shape};
use geometry::Rect;
use spelling::read_as;

// What a line spells by one pattern, if it does.
fn one_gap(line: &[u8]) -> Option<Form>
    ensures { result ≡ option_map one_gap_form (read_as unit_limits.digits one_gap_pattern line.now) }
{
    let [size, window, cut, both, lower, upper, accuracy, levels] = read_as::<8>(
        line,
        b"(job (size #) (window #) (cut #) (gap #) (bounds # #) (zoom # #))",
        MOST_DIGITS,
    )?;
    Some(Form::Heading(Head {
        size,
        window,
        cut,
        gap: Gap::Both(both),
        lower,
        upper,
        accuracy,
        levels,
    }))
}

fn two_gaps(line: &[u8]) -> Option<Form>
    ensures { result ≡ option_map two_gaps_form (read_as unit_limits.digits two_gaps_pattern line.now) }
{
    let [
        size,
        window,
        cut,
        drawn,
        dummy,
        lower,
        upper,
        accuracy,
        levels,
    ] = read_as::<9>(
        line,
        b"(job (size #) (window #) (cut #) (gap # #) (bounds # #) (zoom # #))",
        MOST_DIGITS,
    )?;
    Some(Form::Heading(Head {
        size,
        window,
        cut,
        gap: Gap::Each(drawn, dummy),
        lower,
        upper,
        accuracy,
        levels,
    }))
}

fn shape(kind: Kind, line: &[u8]) -> Option<Form>
    ensures { result ≡ option_map (shape_form kind) (read_as unit_limits.digits (shape_pattern kind) line.now) }
{
    let [x1, y1, x2, y2] = match kind {
        Kind::Drawn => read_as::<4>(line, b"(rect # # # #)", MOST_DIGITS)?,
        Kind::Dummy => read_as::<4>(line, b"(dummy # # # #)", MOST_DIGITS)?,
    };
    let rect = Rect { x1, y1, x2, y2 };
    Some(Form::Metal(Shape { kind, rect }))
}

fn fill(line: &[u8]) -> Option<Form>
    ensures { result ≡ option_map fill_form (read_as unit_limits.digits fill_pattern line.now) }
{
    let [column, row, amount] = read_as::<3>(line, b"(fill # # #)", MOST_DIGITS)?;
    Some(Form::Fill {
        column,
        row,
        amount,
    })
}

fn end(line: &[u8]) -> Option<Form>
    ensures { result ≡ option_map end_form (read_as unit_limits.digits end_pattern line.now) }
{
    read_as::<0>(line, b"(end)", MOST_DIGITS)?;
    Some(Form::End)
}

// The form that a line spells, without its line feed. Most lines of a long file
// are fills, so these are tried first.
pub fn form_of(line: &[u8]) -> Form
    ensures { result ≡ form_of unit_limits line.now }
{
    fill(line)
        .or_else(|| shape(Kind::Drawn, line))
        .or_else(|| shape(Kind::Dummy, line))
        .or_else(|| end(line))
        .or_else(|| one_gap(line))
        .or_else(|| two_gaps(line))
        .unwrap_or(Form::Unknown)
}
