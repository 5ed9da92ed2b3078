//! The pairs of a DXF text, and the numerals in them.
#![tactic(auto)]

mod code_test;
mod codes;
mod groups;
mod laws;
mod numerals;
mod pair;
mod pairs;
mod span;
mod text_lines;

pub use code_test::CodeTest;
pub use groups::Groups;
pub use laws::{
    lines_behind_lines, numerals_are_spelled_so, small_decimals, small_numerals, small_rests,
    small_texts,
};
pub use numerals::{NumeralFault, scaled, whole};
pub use pair::Pair;
pub use span::Span;
pub use text_lines::feed_place;
