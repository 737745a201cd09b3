// How many window positions have less than an area.
#![tactic(auto)]

mod bends;
mod cuts;
mod halving;
mod left;
mod settling;

pub use halving::count_below;

// What is counted: positions whose window of this side has less than this area.
#[derive(Clone, Copy)]
pub struct Threshold {
    pub window: u64,
    pub area: u64,
}

// The axis along which a box is cut where it can be.
#[derive(Clone, Copy)]
enum Axis {
    Across,
    Down,
}
