//! The blocks of a grid.
#![tactic(auto)]

mod grid_blocks;

pub use grid_blocks::blocks_of;
