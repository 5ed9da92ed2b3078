//! The components of a finite graph, and the enclosed ones of a box with walls and what leads out
//! of it.
//!
//! A crate of its own, on `cell_rows` and `solid_model` alone: virtual faces, blocks and the faces
//! of solids are floods, and none of their crates has to stand on another one for it.
#![tactic(auto)]

mod cell_bars;
mod enclosed;
mod flood;
mod graph;
mod leading;
mod numbering;
mod passages;
mod ring;
mod row_flood;
mod row_words;
mod walls;

pub use enclosed::{EnclosedNumbers, enclosed_components};
pub use graph::Graph;
pub use leading::leading_out;
pub use numbering::{Numbering, components, components_of};
pub use walls::Walls;
