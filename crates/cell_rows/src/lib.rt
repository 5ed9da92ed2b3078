//! Rows of the cells of a box, as words: a bit that is set is a marked cell.
//!
//! A grid has at most 63 cells in a row, so a row is one word. No larger box has a `CellRows`: so
//! the crates that count on it take this type, in place of a condition on each call.
#![tactic(auto)]

mod bit_places;
mod block_rows;
mod changed_planes;
mod layer_rows;
mod row_spans;
mod rows;
mod span;

pub use bit_places::{has_bit, next_place};
pub use block_rows::BlockRows;
pub use changed_planes::{ChangedPlanes, PlanesAcross};
pub use layer_rows::LayerRows;
pub use row_spans::RowSpans;
pub use rows::CellRows;
pub use span::Span;
