//! The virtual faces of a grid.
#![tactic(auto)]

mod faces;

pub use faces::faces_of;
