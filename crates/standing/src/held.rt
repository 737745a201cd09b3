// What stands, held in fixed tables.
ghost use Rattle.std.specs.Prelude.{◌≡◌, map, ⊤};
ghost use Rattle.geometry.specs.Layout.{Layer};
ghost use Rattle.spacing.specs.Eligible.{fillable_area};
ghost use Rattle.tiles.specs.Tiles.{tile_index, number_at};
ghost use Rattle.forms.specs.declared.Form.TheVariants.{Metal, Fill};
ghost use Rattle.forms.specs.Limits.{unit_limits};
ghost use Rattle.forms.specs.Shapes.{rectangles};
ghost use Rattle.forms.specs.Forms.{tiles_across, GoodHead};
ghost use Rattle.standing.specs.declared.Turn.TheVariants.{Before};
ghost use Rattle.standing.specs.Filling.{keepouts};
ghost use Rattle.standing.specs.Faults.{no_head, before_head, line_fault, stands_after};
ghost use Rattle.standing.specs.Sound.{TileIn, InRow};

use crate::Turn;
use crate::near::{Near, near_row, part_for};
use arrayvec::ArrayVec;
use forms::{
    Form, Gap, Head, Kind, MOST_SHAPES, MOST_TILES, Shape, gap_for, tile_count, tiles_across,
};
use geometry::Rect;
use spacing::{Keepout, Region};
use std::alloc::AllocError;
use std::marker::Model;

// How many amounts the table has room for, one to a tile.
pub const AMOUNTS_ROOM: usize = (MOST_TILES * MOST_TILES) as usize;

// What stands while a job file is read, as standing/specs/Faults defines it. Rectangles
// and regions are tables of their own, since areas are formed of the ones and fillable
// areas of the others, and no test looks at kinds.
#[derive(Drop)]
pub struct Standing {
    turn: Turn,
    head: Head,
    rects: ArrayVec<Rect, MOST_SHAPES>,
    kinds: ArrayVec<Kind, MOST_SHAPES>,
    regions: ArrayVec<Region, MOST_SHAPES>,
    amounts: [u64; AMOUNTS_ROOM],
    near: Option<Near>,
}

impl Model for Standing {
    ghost use Rattle.standing.specs.Faults.{Standing};

    ghost Value = { Standing };

    ghost use Rattle.standing.specs.Held.{standing_of, Held};

    ghost view = { standing_of };

    ghost invariant = { Held };
}

// Before the head.
pub fn no_head() -> Head
    ensures { result ≡ no_head }
{
    Head {
        size: 0,
        window: 0,
        cut: 0,
        gap: Gap::Both(0),
        lower: 0,
        upper: 0,
        accuracy: 0,
        levels: 0,
    }
}

// The place of tile (i, j) in the table of amounts.
pub fn tile_place(h: Head, i: u64, j: u64) -> usize
    requires { TileIn h i j }
    ensures { result ≡ tile_index (tiles_across h) i j }
{
    let across = tiles_across(h);
    (j * across + i) as usize
}

impl Standing {
    // Before the first line.
    pub fn new() -> Self
        ensures { result ≡ before_head }
    {
        Standing {
            turn: Turn::Before,
            head: no_head(),
            rects: ArrayVec::new(),
            kinds: ArrayVec::new(),
            regions: ArrayVec::new(),
            amounts: [0; AMOUNTS_ROOM],
            near: None,
        }
    }

    pub fn turn(&self) -> Turn
        ensures { result ≡ self.now.turn }
    {
        self.turn
    }

    pub fn head(&self) -> Head
        ensures value { result ≡ self.now.head }
        ensures good { (self.now.turn ≡ Before → ⊥) → GoodHead self.now.head }
    {
        self.head
    }

    // The rectangles of all shapes.
    pub fn rects(&self) -> &[Rect]
        ensures value { result.now ≡ rectangles self.now.shapes }
        ensures layer { Layer result.now }
    {
        self.rects.as_slice()
    }

    // The kinds of all shapes.
    pub fn kinds(&self) -> &[Kind]
        ensures { result.now ≡ map (λ s. s.kind) self.now.shapes }
    {
        self.kinds.as_slice()
    }

    // The amounts of the tiles, row by row.
    pub fn amounts(&self) -> &[u64]
        ensures { result.now ≡ self.now.amounts }
    {
        let count = tile_count(self.head);
        &self.amounts[..count]
    }

    // The amount of tile (i, j).
    pub fn amount(&self, i: u64, j: u64) -> u64
        requires { TileIn self.now.head i j }
        ensures { result ≡ number_at self.now.amounts (tiles_across self.now.head) i j }
    {
        self.amounts[tile_place(self.head, i, j)]
    }

    // The fillable area of a box in a row of tiles.
    pub fn fillable(&self, row: u64, b: Rect) -> u64
        requires { InRow self.now.head row b }
        ensures { result ≡ fillable_area (keepouts self.now.head.gap self.now.shapes) b }
    {
        let part = part_for(self.near, row, self.regions.len());
        free::fillable(self.regions.as_slice(), part, b)
    }

    // A shape behind those that stand, and the region that it keeps free of fill.
    fn add_shape(&mut self, shape: Shape)
        requires { line_fault unit_limits self.old (Metal shape) ≡ 0 }
        ensures { self.new ≡ stands_after self.old (Metal shape) }
    {
        let keepout = Keepout {
            rect: shape.rect,
            gap: gap_for(self.head.gap, shape.kind),
        };
        self.rects.push(shape.rect);
        self.kinds.push(shape.kind);
        self.regions.push(keepout.region());
        self.near = None;
        self.turn = Turn::Shapes;
    }

    // A fill, and the part of the table of regions for its row.
    fn add_fill(&mut self, column: u64, row: u64, amount: u64)
        requires { line_fault unit_limits self.old (Fill column row amount) ≡ 0 }
        ensures { self.new ≡ stands_after self.old (Fill column row amount) }
    {
        let at = tile_place(self.head, column, row);
        self.amounts[at] = amount;
        let near = near_row(self.near, self.head, self.regions.as_slice(), row);
        self.near = Some(near);
        self.turn = Turn::Fills;
    }

    // Enters a good line.
    pub fn enter(&mut self, f: Form)
        requires { line_fault unit_limits self.old f ≡ 0 }
        ensures { self.new ≡ stands_after self.old f }
    {
        match f {
            Form::Unknown => {}
            Form::Heading(h) => {
                self.head = h;
                self.near = None;
                self.turn = Turn::Shapes;
            }
            Form::Metal(shape) => self.add_shape(shape),
            Form::Fill {
                column,
                row,
                amount,
            } => self.add_fill(column, row, amount),
            Form::End => self.turn = Turn::Done,
        }
    }
}

// What stands once more. It takes no memory, so that it never fails.
impl Clone for Standing {
    ghost is_clone = { λ x y. y ≡ x };

    ghost is_infallible = { λ _. ⊤ };

    fn clone(&self) -> Result<Standing, AllocError> {
        Ok(Standing {
            turn: self.turn,
            head: self.head,
            rects: self.rects.clone()?,
            kinds: self.kinds.clone()?,
            regions: self.regions.clone()?,
            amounts: self.amounts,
            near: self.near,
        })
    }
}
