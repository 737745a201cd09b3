// Corner sums, by which the load of any box of tiles is four lookups. The corner sum
// of tile (i, j) is the load of all tiles in columns 0 to i and rows 0 to j.
ghost use Rattle.std.specs.Prelude.{suc, ◌*◌, ◌<◌, ◌≤◌, ◌≡◌, length};
ghost use Rattle.tiles.specs.Sizes.{most_across};
ghost use Rattle.tiles.specs.Tiles.{number_at};
ghost use Rattle.tiles.specs.Sums.{Tabled, Loads, corner_sum, corner_of, CornersOf, CornerSums};

use crate::TILES_ROOM;
use arrayvec::ArrayVec;
use geometry::Rect;

// The corner sums of a layout's tiles, row by row, and how many are across.
#[derive(Drop)]
pub struct Corners {
    pub sums: ArrayVec<u64, TILES_ROOM>,
    pub across: u64,
    pub ghost corner_sums: { CornerSums sums.items across },
}

impl Corners {
    ghost use Rattle.tiles.specs.Sums.{TilesInLayout, corner_total};

    // The corner sums of loads, which stand row by row.
    pub fn of(loads: &[u64], across: u64) -> Self
        requires { Loads loads.now across }
        ensures across { result.across ≡ across }
        ensures corners { CornersOf (number_at loads.now across) result.sums.items across }
    {
        let mut sums = ArrayVec::new();
        for j in 0..across {
            push_sums(loads, across, j, &mut sums);
        }
        Corners { sums, across }
    }

    // The load of a box of tiles, which counts in tiles.
    pub fn load(&self, b: Rect) -> u64
        requires { TilesInLayout self.now.across b }
        ensures { result ≡ corner_total self.now.sums.items self.now.across b }
    {
        let more = self.before(b.x2, b.y2) + self.before(b.x1, b.y1);
        let less = self.before(b.x1, b.y2) + self.before(b.x2, b.y1);
        more - less
    }

    // The load of the tiles left of column x and below row y.
    fn before(&self, x: u64, y: u64) -> u64
        requires { (x ≤ self.now.across) × (y ≤ self.now.across) }
        ensures { result ≡ corner_of self.now.sums.items self.now.across x y }
    {
        corner(&self.sums, self.across, x, y)
    }
}

// The load of the tiles left of column x and below row y, where the corner sums of
// these rows are there.
fn corner(sums: &[u64], across: u64, x: u64, y: u64) -> u64
    requires few { across ≤ most_across }
    requires columns { x ≤ across }
    requires rows { y ≤ across }
    requires there { y * across ≤ length sums.now }
    ensures { result ≡ corner_of sums.now across x y }
{
    if x == 0 || y == 0 {
        0
    } else {
        sums[((y - 1) * across + (x - 1)) as usize]
    }
}

// Adds the corner sums of row j to those of the rows below.
fn push_sums(loads: &[u64], across: u64, j: u64, sums: &mut ArrayVec<u64, TILES_ROOM>)
    requires loads { Loads loads.now across }
    requires row { j < across }
    requires below { Tabled (corner_sum loads.now across) (j * across) sums.old.items }
    ensures { Tabled (corner_sum loads.now across) (suc j * across) sums.new.items }
{
    let mut run: u64 = 0;
    for i in 0..across {
        run += loads[(j * across + i) as usize];
        let below = corner(sums, across, i + 1, j);
        sums.push(run + below);
    }
}
