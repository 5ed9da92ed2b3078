//! The grid of a drawing: the positions along each axis at which it shows something, and the styles
//! of the segments between them.
#![tactic(auto)]

mod coordinates;
mod grid;
mod panels;
mod positions;

pub use grid::grid_of;
