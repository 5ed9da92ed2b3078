//! Choices that several lists share.

use crate::shared::share_all;
use solid_model::{Choice, Memory};
use std::alloc::Global;
use std::marker::Model;
use std::sync::Arc;

/// Some choices, each of which other batches may share. Contracts see it as their list.
#[derive(Drop)]
pub struct Batch {
    members: Vec<Arc<Choice>>,
}

impl Model for Batch {
    ghost use Rattle.std.specs.Prelude.{List, Bool, map};
    ghost use Rattle.std.specs.Arc.{arc_value};

    ghost Value = { List (List Bool) };

    ghost view = { λ s. map (λ m. arc_value m) s.members.items };
}

impl Batch {
    ghost use Rattle.std.specs.Prelude.{◌≡◌, ◌<◌, [], ◌∷◌, ◌++◌, length, slice_index_or, IfOk, OnOk};

    /// No choices.
    pub fn new(alloc: Global) -> Batch
        ensures { result ≡ [] }
    {
        Batch {
            members: Vec::new(alloc),
        }
    }

    /// How many there are.
    pub fn len(&self) -> usize
        ensures { result ≡ length self.now }
    {
        self.members.len()
    }

    /// The choice at a place.
    pub fn get(&self, at: usize) -> &Choice
        requires { at < length self.now }
        ensures { result.now ≡ slice_index_or self.now at [] }
    {
        &self.members[at]
    }

    /// Adds a copy of a choice. An `Err` is out of memory.
    pub fn push(&mut self, alloc: Global, choice: &Choice) -> Result<(), Memory>
        ensures { OnOk result (self.new ≡ self.old ++ choice.now ∷ []) }
    {
        self.members.push(Arc::new(alloc, choice.try_clone()?)?)?;
        Ok(())
    }

    /// The same choices, shared. An `Err` is out of memory.
    pub fn share(&self, alloc: Global) -> Result<Batch, Memory>
        ensures { IfOk result (λ batch. batch ≡ self.now) }
    {
        let members = share_all(alloc, self.members.as_slice())?;
        Ok(Batch { members })
    }
}
