//! Lists of different choices are put together.

ghost use Rattle.std.specs.Prelude.{◌≡◌, ◌≢◌, ◌⊎◌, ◌≤◌, ◌++◌, Bool, List, length, IfOk};
ghost use Rattle.solid_model.specs.Blocks.{ProblemParts};
ghost use Rattle.lemmas.specs.Lists.{Member, Each, Ascends};
ghost use Rattle.solid_model.specs.Solutions.{AreSolutions};
ghost use Rattle.search_end.specs.Handed.{AreFewSolutions};

use crate::left::left_over;
use solid_model::{Choice, Memory};
use std::alloc::Global;

/// These choices, and those of a list that aren't among them, as far as there is room. An `Err` is
/// out of memory.
pub fn join_choices(
    alloc: Global,
    first: Vec<Choice>,
    list: &[Choice],
    most: usize,
) -> Result<Vec<Choice>, Memory>
    requires few { length first.items ≤ most }
    requires once { Ascends ◌≢◌ list.now }
    ensures begins { IfOk result
        (λ all. (more : List (List Bool)) × (all.items ≡ first.items ++ more)) }
    ensures solutions { IfOk result (λ all. (p : ProblemParts) → AreSolutions p first.items
        → AreSolutions p list.now → AreFewSolutions p most all.items) }
    ensures covers { IfOk result (λ all.
        Each (Member all.items) list.now ⊎ (length all.items ≡ most)) }
{
    let room = most - first.len();
    let mut left = left_over(alloc, first.as_slice(), list, room)?;
    let mut all = first;
    all.append(&mut left)?;
    Ok(all)
}
