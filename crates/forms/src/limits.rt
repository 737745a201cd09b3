// The limits and ranges of the job file, each once, by name.
pub const MOST_BYTES: usize = 60000;

pub const MOST_DIGITS: usize = 13;

pub const MOST_SHAPES: usize = 256;

// N, W, B, D and corners.
pub(crate) const MOST_SIDE: u64 = 1000000;

// R, tiles across a window, and tiles across a layout.
pub const MOST_TILES: u64 = 64;

// L and U, in ten-thousandths.
pub(crate) const MOST_BOUND: u64 = 10000;

// E, in thousandths.
pub(crate) const MOST_ACCURACY: u64 = 1000;

pub(crate) const MOST_LEVELS: u64 = 6;

// P, the area of the largest tile.
pub(crate) const MOST_AMOUNT: u64 = 1000000000000;
