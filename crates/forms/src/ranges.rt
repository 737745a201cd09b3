// The ranges of a form's numbers.
ghost use Rattle.std.specs.Prelude.{◌≡◌};
ghost use Rattle.forms.specs.Limits.{unit_limits};
ghost use Rattle.forms.specs.Forms.{in_span, gap_in_range, head_in_range, rect_in_range, fill_in_range, in_range};

use crate::limits::{MOST_ACCURACY, MOST_AMOUNT, MOST_BOUND, MOST_LEVELS, MOST_SIDE, MOST_TILES};
use crate::{Form, Gap, Head};
use geometry::Rect;

fn in_span(lo: u64, hi: u64, n: u64) -> bool
    ensures { result ≡ in_span lo hi n }
{
    (lo..=hi).contains(&n)
}

fn gap_in_range(gap: Gap) -> bool
    ensures { result ≡ gap_in_range unit_limits gap }
{
    match gap {
        Gap::Both(b) => in_span(0, MOST_SIDE, b),
        Gap::Each(b, d) => in_span(0, MOST_SIDE, b) && in_span(0, MOST_SIDE, d),
    }
}

fn head_in_range(h: Head) -> bool
    ensures { result ≡ head_in_range unit_limits h }
{
    let sides = in_span(1, MOST_SIDE, h.size) && in_span(1, MOST_SIDE, h.window);
    let gap = h.gap;
    let tiles = in_span(1, MOST_TILES, h.cut) && gap_in_range(gap);
    let bounds = in_span(0, MOST_BOUND, h.lower) && in_span(0, MOST_BOUND, h.upper);
    let zoom = in_span(0, MOST_ACCURACY, h.accuracy) && in_span(1, MOST_LEVELS, h.levels);
    sides && tiles && bounds && zoom
}

fn rect_in_range(r: Rect) -> bool
    ensures { result ≡ rect_in_range unit_limits r }
{
    let lower_left = in_span(0, MOST_SIDE, r.x1) && in_span(0, MOST_SIDE, r.y1);
    let upper_right = in_span(0, MOST_SIDE, r.x2) && in_span(0, MOST_SIDE, r.y2);
    lower_left && upper_right
}

fn fill_in_range(column: u64, row: u64, amount: u64) -> bool
    ensures { result ≡ fill_in_range unit_limits column row amount }
{
    in_span(0, MOST_TILES - 1, column)
        && in_span(0, MOST_TILES - 1, row)
        && in_span(1, MOST_AMOUNT, amount)
}

// Whether every number of a form is in its range.
pub fn in_range(f: Form) -> bool
    ensures { result ≡ in_range unit_limits f }
{
    match f {
        Form::Unknown | Form::End => true,
        Form::Heading(h) => head_in_range(h),
        Form::Metal(shape) => rect_in_range(shape.rect),
        Form::Fill {
            column,
            row,
            amount,
        } => fill_in_range(column, row, amount),
    }
}
