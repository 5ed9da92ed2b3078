//! Drawings to try things on, each made from a number.
#![tactic(auto)]

mod cells;
mod cube;
mod cubes;
mod laws;
mod making;
mod ticks;

pub use laws::small_cubes;
pub use making::make;
