//! The laws over the definitions. Each is the contract of a function that does nothing.

mod files;
mod lacking;
mod lines;

pub use files::{matching_solids_have_one_file, one_written_file, small_file};
pub use lacking::no_solid_lacks_a_file;
pub use lines::{sheet_lines_are_few, sheet_lines_draw_the_solid};
