//! Pairs of a group code and a value.
//!
//! A pair carries beside its line number that this is at most 134,217,728, so that the line of its
//! value can be told.

ghost use Rattle.std.specs.Prelude.{◌≤◌};

use crate::span::Span;

/// A pair of a text: its group code, where its value stands in the text, and the number of the
/// line of its code, from 1.
#[derive(Clone, Copy, Debug, PartialEq, Eq)]
pub struct Pair {
    pub code: i32,
    pub value: Span,
    pub line: u32,
    ghost counted: { line ≤ 134217728 },
}
