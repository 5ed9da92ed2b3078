//! Choices of which blocks are full.

ghost use Rattle.std.specs.Prelude.{◌≡◌, IfOk};

use crate::memory::Memory;
use crate::prefix::Prefix;
use std::alloc::Global;
use std::marker::Model;

/// A choice says for each block whether it is full, in the order of the blocks: a prefix of all of
/// them. Contracts see it as that list.
#[derive(Debug, Drop)]
pub struct Choice {
    full: Prefix,
}

impl Model for Choice {
    ghost use Rattle.std.specs.Prelude.{List, Bool};

    ghost Value = { List Bool };

    ghost view = { λ s. s.full };
}

impl Choice {
    ghost use Rattle.std.specs.Prelude.{◌≡◌, ◌<◌, false, length, slice_index_or, IfOk};
    ghost use Rattle.std.specs.List.{common_prefix_len};
    ghost use Rattle.lemmas.specs.Truth.{agree};
    ghost use Rattle.solid_model.specs.Choices.{is_chosen};

    /// The choice with these values, block by block. An `Err` is out of memory.
    pub fn from_bools(alloc: Global, values: &[bool]) -> Result<Choice, Memory>
        ensures { IfOk result (λ choice. choice ≡ values.now) }
    {
        let full = Prefix::from_bools(alloc, values)?;
        Ok(Choice { full })
    }

    /// The choice that says the same as a prefix of all blocks.
    pub(crate) fn of(full: Prefix) -> Choice
        ensures { result ≡ full }
    {
        Choice { full }
    }

    /// The same choice once more. An `Err` is out of memory.
    pub fn try_clone(&self) -> Result<Choice, Memory>
        ensures { IfOk result (λ choice. choice ≡ self.now) }
    {
        let full = self.full.try_clone()?;
        Ok(Choice { full })
    }

    /// Of how many blocks it says whether they are full.
    pub fn len(&self) -> usize
        ensures { result ≡ length self.now }
    {
        self.full.len()
    }

    /// How many of the first blocks it has full or empty as the other does.
    pub(crate) fn shared(&self, other: &Choice) -> usize
        ensures { result ≡ common_prefix_len agree self.now other.now }
    {
        self.full.shared(&other.full)
    }

    /// Whether the block of this number is full.
    pub fn get(&self, at: usize) -> bool
        requires { at < length self.now }
        ensures { result ≡ slice_index_or self.now at false }
    {
        self.full.get(at)
    }

    /// Whether it fills what belongs to a block, or to none.
    pub fn fills(&self, block: Option<u16>) -> bool
        ensures { result ≡ is_chosen self.now block }
    {
        match block {
            Some(block) => usize::from(block) < self.len() && self.get(usize::from(block)),
            None => false,
        }
    }
}

/// These choices once more. An `Err` is out of memory.
pub fn copy_choices(alloc: Global, choices: &[Choice]) -> Result<Vec<Choice>, Memory>
    ensures { IfOk result (λ copies. copies.items ≡ choices.now) }
{
    let mut copies = Vec::with_capacity(alloc, choices.len())?;
    for choice in choices {
        copies.push(choice.try_clone()?)?;
    }
    Ok(copies)
}
