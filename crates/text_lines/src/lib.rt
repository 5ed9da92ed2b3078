//! Lines of words in a text, read without a list for each line.
//!
//! A line is cut at its first space, the rest of it again, and the last word of a form is all that
//! is left: so a space too many is part of a word, which no form has.
#![tactic(auto)]

mod laws;
mod lines;
mod numbers;
mod words;

pub use laws::{lines_are_cut_as_joined, numbers_are_read_as_spelled};
pub use lines::first_line;
pub use numbers::number;
pub use words::{cut, either, is_word};
