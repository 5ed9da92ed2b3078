//! The stated order of choices.
//!
//! Words of blocks are compared, and not block by block: an answer of several workers is sorted,
//! and neighbours in it begin alike.

ghost use Rattle.std.specs.Prelude.{◌≡◌, ◌↔◌, length};
ghost use Rattle.std.specs.declared.cmp.Ordering.TheVariants.{Less, Equal, Greater};
ghost use Rattle.solid_model.specs.Choices.{ChoicePrecedes};

use crate::choice::Choice;
use std::cmp::Ordering;

/// Which of two choices of the same blocks comes first in the stated order: at the first block at
/// which they differ, it is the one that has it full.
pub fn compare(a: &Choice, b: &Choice) -> Ordering
    requires { length a.now ≡ length b.now }
    ensures less { (result ≡ Less) ↔ ChoicePrecedes a.now b.now }
    ensures equal { (result ≡ Equal) ↔ (a.now ≡ b.now) }
    ensures greater { (result ≡ Greater) ↔ ChoicePrecedes b.now a.now }
{
    let same = a.shared(b);
    if same == a.len() {
        return Ordering::Equal;
    }
    if a.get(same) {
        Ordering::Less
    } else {
        Ordering::Greater
    }
}
