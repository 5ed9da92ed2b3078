//! Columns of cells and the styles that two of them draw: of one pair, and by lanes, of eight pairs
//! at once and one by one of those that are left over.
#![tactic(auto)]

mod column;
mod lanes;
mod met_bytes;
mod style_bytes;

pub use column::{Column, style_of};
pub use met_bytes::still_meets;
pub use style_bytes::{style_byte, styles};
