// What a head says of its layout: its tiles, whether it agrees, and what lies in it.
ghost use Rattle.std.specs.Prelude.{◌≡◌, ◌/◌, ◌%◌, ◌≤◌, eqb};
ghost use Rattle.forms.specs.Limits.{unit_limits};
ghost use Rattle.forms.specs.Forms.{tile_side, tiles_across, tile_count, agrees, fits_layout, has_tile};

use crate::Head;
use crate::limits::MOST_TILES;
use geometry::Rect;

// The quotient, 0 by 0.
fn quotient(a: u64, b: u64) -> u64
    ensures { result ≡ a / b }
{
    a.checked_div(b).unwrap_or(0)
}

// Whether b divides a; 0 divides 0 alone.
fn is_multiple(a: u64, b: u64) -> bool
    ensures { result ≡ eqb (a % b) 0 }
{
    a.checked_rem(b).unwrap_or(a) == 0
}

// The tile side W/R.
pub fn tile_side(h: Head) -> u64
    ensures { result ≡ tile_side h }
{
    quotient(h.window, h.cut)
}

// N/(W/R), the number of tiles across the layout.
pub fn tiles_across(h: Head) -> u64
    ensures { result ≡ tiles_across h }
{
    quotient(h.size, tile_side(h))
}

// The number of tiles of a layout.
pub fn tile_count(h: Head) -> usize
    requires { tiles_across h ≤ unit_limits.tiles }
    ensures { result ≡ tile_count h }
{
    let across = tiles_across(h);
    (across * across) as usize
}

// Whether a head agrees with itself.
pub fn head_agrees(h: Head) -> bool
    ensures { result ≡ agrees unit_limits h }
{
    h.window <= h.size
        && is_multiple(h.window, h.cut)
        && is_multiple(h.size, tile_side(h))
        && tiles_across(h) <= MOST_TILES
        && h.lower <= h.upper
}

// A rectangle has its corners in order and lies in the layout.
pub fn fits_layout(h: Head, r: Rect) -> bool
    ensures { result ≡ fits_layout h r }
{
    r.x1 < r.x2 && r.y1 < r.y2 && r.x2 <= h.size && r.y2 <= h.size
}

// Tile (i, j) lies in the layout.
pub fn has_tile(h: Head, i: u64, j: u64) -> bool
    ensures { result ≡ has_tile h i j }
{
    let across = tiles_across(h);
    i < across && j < across
}
