//! What a ledger keeps of a report.

ghost use Rattle.std.specs.Prelude.{IfOk};
ghost use Rattle.search_core.specs.Copies.{AreCopies};

use prefix_tree::alike;
use solid_model::{Choice, Memory, Prefix, copy_choices};
use std::alloc::Global;

/// Copies of a report's choices, which a ledger keeps, a list with room for the places of its rest,
/// and with how many same values each prefix of the rest and the next one begin.
#[derive(Drop)]
pub struct Copies {
    pub found: Vec<Choice>,
    pub places: Vec<u32>,
    pub alike: Vec<usize>,
}

impl Copies {
    /// Copies of these choices, and a list for the places of this rest. An `Err` is out of memory.
    pub fn new(alloc: Global, found: &[Choice], rest: &[Prefix]) -> Result<Copies, Memory>
        ensures { IfOk result (AreCopies found.now rest.now) }
    {
        Ok(Copies {
            found: copy_choices(alloc, found)?,
            places: Vec::with_capacity(alloc, rest.len())?,
            alike: alike(alloc, rest)?,
        })
    }
}
