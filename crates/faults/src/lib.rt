// The faults of one line, by what already stands.
#![tactic(auto)]

ghost use Rattle.std.specs.Prelude.{◌≡◌, ◌≢◌, true};
ghost use Rattle.forms.specs.Limits.{unit_limits};
ghost use Rattle.forms.specs.Forms.{agrees, GoodHead};
ghost use Rattle.standing.specs.declared.Turn.TheVariants.{Before};
ghost use Rattle.standing.specs.Fault.{fault_code};
ghost use Rattle.standing.specs.Faults.{in_turn, check, shape_fault, room_of, fill_fault, own_fault, line_fault};
ghost use Rattle.standing.specs.Sound.{TileIn};

use forms::{
    Form, Head, MOST_SHAPES, fits_layout, has_tile, head_agrees, in_range, is_known, tile_side,
};
use geometry::{Rect, shares_square};
use spacing::tile_box;
use standing::{Fault, Standing, Turn};

// Whether a form comes in turn: the head, shapes, fills, the end.
fn in_turn(t: Turn, f: Form) -> bool
    ensures { result ≡ in_turn t f }
{
    match t {
        Turn::Before => matches!(f, Form::Heading(_)),
        Turn::Shapes => matches!(f, Form::Metal(_) | Form::Fill { .. } | Form::End),
        Turn::Fills => matches!(f, Form::Fill { .. } | Form::End),
        Turn::Done => false,
    }
}

fn check_head(h: Head) -> Result<(), Fault>
    ensures { fault_code result ≡ check (agrees unit_limits h) 5 0 }
{
    if !head_agrees(h) {
        return Err(Fault::HeadDisagrees);
    }
    Ok(())
}

// The faults of a shape; its kind and the amounts play no part in them.
#[tactic(auto, unfolding(standing::specs::Faults::shape_fault))]
fn check_shape(s: &Standing, r: Rect) -> Result<(), Fault>
    ensures { fault_code result ≡ shape_fault unit_limits s.now r }
{
    let rects = s.rects();
    if !fits_layout(s.head(), r) {
        return Err(Fault::OutsideLayout);
    }
    if MOST_SHAPES <= rects.len() {
        return Err(Fault::TooManyShapes);
    }
    if shares_square(rects, r) {
        return Err(Fault::SharedSquare);
    }
    Ok(())
}

// The fillable area of tile (i, j).
fn tile_room(s: &Standing, i: u64, j: u64) -> u64
    requires good { GoodHead s.now.head }
    requires tile_in { TileIn s.now.head i j }
    ensures { result ≡ room_of s.now i j }
{
    let b = tile_box(tile_side(s.head()), i, j);
    s.fillable(j, b)
}

// The faults of a fill.
#[tactic(auto, unfolding(standing::specs::Faults::fill_fault))]
fn check_fill(s: &Standing, i: u64, j: u64, p: u64) -> Result<(), Fault>
    requires { s.now.turn ≢ Before }
    ensures { fault_code result ≡ fill_fault s.now.head s.now.amounts (room_of s.now i j) i j p }
{
    if !has_tile(s.head(), i, j) {
        return Err(Fault::NoSuchTile);
    }
    if s.amount(i, j) != 0 {
        return Err(Fault::FilledTwice);
    }
    if tile_room(s, i, j) < p {
        return Err(Fault::NoRoom);
    }
    Ok(())
}

// The faults that are each form's own.
fn check_own(s: &Standing, f: Form) -> Result<(), Fault>
    requires { in_turn s.now.turn f ≡ true }
    ensures { fault_code result ≡ own_fault unit_limits s.now f }
{
    match f {
        Form::Unknown => Err(Fault::NotSpelled),
        Form::Heading(h) => check_head(h),
        Form::Metal(shape) => check_shape(s, shape.rect),
        Form::Fill {
            column,
            row,
            amount,
        } => check_fill(s, column, row, amount),
        Form::End => Ok(()),
    }
}

// The fault of a line with the lowest number, if it has any.
#[tactic(auto, unfolding(standing::specs::Faults::line_fault))]
pub fn check_line(s: &Standing, f: Form) -> Result<(), Fault>
    ensures { fault_code result ≡ line_fault unit_limits s.now f }
{
    if !is_known(f) {
        return Err(Fault::NotSpelled);
    }
    if !in_range(f) {
        return Err(Fault::OutOfRange);
    }
    if !in_turn(s.turn(), f) {
        return Err(Fault::OutOfTurn);
    }
    check_own(s, f)
}
