// The forms of the job file: what each line may say, and what is asked of it by
// itself, or by the head alone.
#![tactic(auto)]

mod gaps;
mod known;
mod layout;
mod limits;
mod ranges;

pub use gaps::gap_for;
use geometry::Rect;
pub use known::is_known;
pub use layout::{fits_layout, has_tile, head_agrees, tile_count, tile_side, tiles_across};
pub use limits::{MOST_BYTES, MOST_DIGITS, MOST_SHAPES, MOST_TILES};
pub use ranges::in_range;

// What the head says of the least gap between fill and metal: (gap B), the same for
// drawn metal and for dummies, or (gap B D), B for drawn metal and D for dummies.
#[derive(Clone, Copy)]
pub enum Gap {
    Both(u64),
    Each(u64, u64),
}

// The numbers of the head, in the order of their spelling.
#[derive(Clone, Copy)]
pub struct Head {
    pub size: u64, // N, the side of the layout
    pub window: u64, // W, the side of the window
    pub cut: u64, // R, the tiles across a window
    pub gap: Gap, // B and D, the least gaps between fill and metal
    pub lower: u64, // L, a bound in ten-thousandths
    pub upper: u64, // U, a bound in ten-thousandths
    pub accuracy: u64, // E, in thousandths
    pub levels: u64, // V, the levels that each quick run may do
}

// Metal that is drawn, or a dummy of an earlier pass.
#[derive(Clone, Copy, Default)]
pub enum Kind {
    #[default]
    Drawn,
    Dummy,
}

// A rectangle of metal, with its kind.
#[derive(Clone, Copy)]
pub struct Shape {
    pub kind: Kind,
    pub rect: Rect,
}

// What a line spells. Unknown is a line that is none of the spellings: a form and no
// `None`, since `line_fault` lists its fault, 2, before those of the others.
#[derive(Clone, Copy)]
pub enum Form {
    Unknown,
    Heading(Head),
    Metal(Shape),
    Fill { column: u64, row: u64, amount: u64 },
    End,
}
