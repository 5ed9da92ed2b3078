//! The pseudo wire frame of a grid.
#![tactic(auto)]

mod drawn_points;
mod edges;
mod wire;

pub use wire::wire_of;
