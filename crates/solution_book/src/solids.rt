//! The list of solids of an edition.
//!
//! A publishing copies the pointers of the last batch, and once in 256 solids those of all full
//! ones: so 65,536 solids that are published one by one copy some eight million pointers. Fewer in
//! a batch would copy less of the last one, and more of the full ones.

ghost use Rattle.std.specs.Prelude.{◌≡◌, ◌↔◌, ◌∷◌, [], ◌++◌, map, IsTrue, IfOk};
ghost use Rattle.std.specs.Arc.{arc_value};

use crate::batch::Batch;
use crate::shared::share_all;
use solid_model::{Choice, Memory, compare};
use std::alloc::Global;
use std::cmp::Ordering;
use std::marker::Model;
use std::sync::Arc;

/// How many choices a full batch has.
const FULL: usize = 256;

/// A list of choices in full batches and a last one, so that a list that goes on with another one
/// shares all that is full, and copies no more than the pointers of the last batch. Contracts see
/// it as the list.
#[derive(Drop)]
pub struct Solids {
    full: Arc<Vec<Arc<Batch>>>,
    last: Batch,
    count: usize,
}

impl Model for Solids {
    ghost use Rattle.std.specs.Prelude.{List, Bool, map};
    ghost use Rattle.std.specs.Arc.{arc_value};
    ghost use Rattle.solution_book.specs.Batches.{in_batches, AreBatches};

    ghost Value = { List (List Bool) };

    ghost view = { λ s. in_batches (map (λ b. arc_value b) (arc_value s.full).items) s.last };

    ghost invariant = { λ s.
        AreBatches (map (λ b. arc_value b) (arc_value s.full).items) s.last s.count };
}

/// Whether two choices are the same.
fn is_same(a: &Choice, b: &Choice) -> bool
    ensures { IsTrue result ↔ (a.now ≡ b.now) }
{
    if a.len() != b.len() {
        return false;
    }
    match compare(a, b) {
        Ordering::Equal => true,
        _ => false,
    }
}

/// Full batches, shared, and one more. An `Err` is out of memory.
fn with_batch(
    alloc: Global,
    full: &[Arc<Batch>],
    last: Batch,
) -> Result<Arc<Vec<Arc<Batch>>>, Memory>
    ensures { IfOk result (λ more. map (λ b. arc_value b) (arc_value more).items
        ≡ map (λ b. arc_value b) full.now ++ last ∷ []) }
{
    let mut more = share_all(alloc, full)?;
    more.push(Arc::new(alloc, last)?)?;
    Ok(Arc::new(alloc, more)?)
}

impl Solids {
    ghost use Rattle.std.specs.Prelude.{◌≡◌, ◌<◌, ◌↔◌, ◌∷◌, [], ◌++◌, length, take, drop, slice_index_or, IsTrue, IfOk};
    ghost use Rattle.solution_book.specs.Editions.{StartsWith};

    /// No choices. An `Err` is out of memory.
    pub fn new(alloc: Global) -> Result<Solids, Memory>
        ensures { IfOk result (λ solids. solids ≡ []) }
    {
        Ok(Solids {
            full: Arc::new(alloc, Vec::new(alloc))?,
            last: Batch::new(alloc),
            count: 0,
        })
    }

    /// How many there are.
    pub fn len(&self) -> usize
        ensures { result ≡ length self.now }
    {
        self.count
    }

    /// The choice at a place.
    pub fn get(&self, place: usize) -> &Choice
        requires { place < length self.now }
        ensures { result.now ≡ slice_index_or self.now place [] }
    {
        let batch = place / FULL;
        if batch < self.full.len() {
            return self.full[batch].get(place % FULL);
        }
        self.last.get(place - self.full.len() * FULL)
    }

    /// Copies of a part of them: at most so many, from a place on. An `Err` is out of memory.
    pub fn part(&self, alloc: Global, from: usize, most: usize) -> Result<Vec<Choice>, Memory>
        ensures { IfOk result (λ part. part.items ≡ take most (drop from self.now)) }
    {
        let mut part = Vec::new(alloc);
        for place in from..from.saturating_add(most).min(self.count) {
            part.push(self.get(place).try_clone()?)?;
        }
        Ok(part)
    }

    /// Whether they begin with all of these, which are compared choice by choice.
    pub fn begin_with(&self, earlier: &Solids) -> bool
        ensures { IsTrue result ↔ StartsWith self.now earlier.now }
    {
        if self.count < earlier.count {
            return false;
        }
        for place in 0..earlier.count {
            if !is_same(self.get(place), earlier.get(place)) {
                return false;
            }
        }
        true
    }

    /// The same choices, shared. An `Err` is out of memory.
    fn share(&self, alloc: Global) -> Result<Solids, Memory>
        ensures { IfOk result (λ same. same ≡ self.now) }
    {
        Ok(Solids {
            full: Arc::try_clone(&self.full)?,
            last: self.last.share(alloc)?,
            count: self.count,
        })
    }

    /// These choices, and a copy of one more. An `Err` is out of memory.
    fn with_one(self, alloc: Global, choice: &Choice) -> Result<Solids, Memory>
        ensures { IfOk result (λ longer. longer ≡ self ++ choice.now ∷ []) }
    {
        let Solids {
            full,
            mut last,
            count,
        } = self;
        let Some(count) = count.checked_add(1) else {
            return Err(Memory);
        };
        last.push(alloc, choice)?;
        if last.len() != FULL {
            return Ok(Solids { full, last, count });
        }
        Ok(Solids {
            full: with_batch(alloc, full.as_slice(), last)?,
            last: Batch::new(alloc),
            count,
        })
    }

    /// These choices, shared, and copies of more. An `Err` is out of memory.
    pub fn with(&self, alloc: Global, more: &[Choice]) -> Result<Solids, Memory>
        ensures { IfOk result (λ longer. longer ≡ self.now ++ more.now) }
    {
        let mut longer = self.share(alloc)?;
        for choice in more {
            longer = longer.with_one(alloc, choice)?;
        }
        Ok(longer)
    }
}
