// The loads of all tiles of a layout, and the load of any box of tiles.
#![tactic(auto)]

mod corners;
mod tiling;

pub use corners::Corners;
pub use tiling::tile_loads;

// How many tiles may lie across a layout, and how many there may be.
const MOST_ACROSS: usize = 64;

pub const TILES_ROOM: usize = MOST_ACROSS * MOST_ACROSS;

// What a fill is judged by: how the layout is cut into tiles, and the bounds on
// the density of its windows, in ten-thousandths.
#[derive(Clone, Copy)]
pub struct Plan {
    pub across: u64, // tiles across the layout
    pub cut: u64, // tiles across a window
    pub side: u64, // side of a tile
    pub window: u64, // side of a window
    pub lower: u64,
    pub upper: u64,
}
