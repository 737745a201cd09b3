// What stands while a job file is read, a good line entered, and what fill is told of
// it.
#![tactic(auto)]

mod fault;
mod filling;
mod held;
mod near;

pub use fault::Fault;
pub use filling::plan_of;
pub use held::{AMOUNTS_ROOM, Standing, no_head, tile_place};
pub use near::{Near, part_for};

// What a file has come to: nothing yet, its shapes, its fills, its end.
#[derive(Clone, Copy)]
pub enum Turn {
    Before,
    Shapes,
    Fills,
    Done,
}
