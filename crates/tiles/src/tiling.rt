// The loads of all tiles, one row of tiles at a time.
ghost use Rattle.std.specs.Prelude.{suc, ◌*◌};
ghost use Rattle.tiles.specs.Sizes.{Tiled};
ghost use Rattle.tiles.specs.Sums.{Tabled, TileRow, load_of};

use crate::{Plan, TILES_ROOM};
use arrayvec::ArrayVec;
use sweep::{Sorted, Strip, Sweep};

// Adds the loads of the tiles of row j, by its strip, to those of the rows below.
fn push_loads(
    strip: &Strip,
    amounts: &[u64],
    plan: Plan,
    j: u64,
    loads: &mut ArrayVec<u64, TILES_ROOM>,
)
    requires tiled { Tiled amounts.now plan }
    requires tile_row { TileRow strip.now plan j }
    requires below { Tabled (load_of strip.now.sorted.now.rects.now amounts.now plan) (j * plan.across) loads.old.items }
    ensures { Tabled (load_of strip.now.sorted.now.rects.now amounts.now plan) (suc j * plan.across) loads.new.items }
{
    let mut sweep = Sweep::start(strip);
    for i in 0..plan.across {
        sweep.move_to(i * plan.side, (i + 1) * plan.side);
        let amount = amounts[(j * plan.across + i) as usize];
        loads.push(sweep.frame.area + amount);
    }
}

// The load of each tile, row by row.
pub fn tile_loads(sorted: &Sorted, amounts: &[u64], plan: Plan) -> ArrayVec<u64, TILES_ROOM>
    requires { Tiled amounts.now plan }
    ensures { Tabled (load_of sorted.now.rects.now amounts.now plan) (plan.across * plan.across) result.items }
{
    let mut loads = ArrayVec::new();
    let mut strip = Strip::new(sorted);
    for j in 0..plan.across {
        strip.set_rows(j * plan.side, (j + 1) * plan.side);
        push_loads(&strip, amounts, plan, j, &mut loads);
    }
    loads
}
