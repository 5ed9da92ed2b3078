//! Choices are put into the stated order.
//!
//! A sort takes an order of all lists of truth values, so the shorter one comes first, though the
//! choices of a problem are equally long.

ghost use Rattle.std.specs.Prelude.{◌≡◌, ◌≢◌, ℕ, length, IsPermutation};
ghost use Rattle.solid_model.specs.Choices.{ChoicePrecedes};
ghost use Rattle.lemmas.specs.Lists.{Each, Ascends};
ghost use Rattle.solid_model.specs.Sorting.{order_of};

use crate::choice::Choice;
use crate::choice_order::compare;
use std::cmp::Ordering;

/// Which of two choices comes first: the shorter one, and of two of the same blocks that which
/// comes first in the stated order.
fn by_length(a: &Choice, b: &Choice) -> Ordering
    ensures { result ≡ order_of a.now b.now }
{
    if a.len() == b.len() {
        compare(a, b)
    } else {
        a.len().cmp(&b.len())
    }
}

/// Puts different choices of the same blocks into the stated order.
pub fn sort_choices(choices: &mut [Choice])
    requires lengths { (n : ℕ) × Each (λ choice. length choice ≡ n) choices.old }
    requires once { Ascends ◌≢◌ choices.old }
    ensures permutation { IsPermutation choices.old choices.new }
    ensures ordered { Ascends ChoicePrecedes choices.new }
{
    choices.sort_unstable_by(|a, b| by_length(a, b));
}
