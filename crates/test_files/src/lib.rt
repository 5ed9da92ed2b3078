//! What the tables of tests are made of: rows, the boxes of cells, and the files, that they tell; and
//! a gate that holds the workers of a test.
#![tactic(auto)]

mod boxes;
mod files;
mod gates;
mod rows;

pub use boxes::{cells, numbers, rows_of};
pub use files::{drawing_file, file_bytes, file_of, layer_of, padded_file};
pub use gates::Slow;
pub use rows::{Row, lines_hold, row_of, rows_tell};
