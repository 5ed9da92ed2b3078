//! Reports that are ready for a desk.
//!
//! Comparing the prefixes of a rest under the lock would take more than a fifth of an answer's
//! instructions; so the copies of the choices, and with how many same values each prefix and the
//! next one begin, are made before. The report may be a stranger's or a late one: then they are let
//! go.

use crate::copies::Copies;
use solid_model::Expansion;
use std::alloc::Global;
use std::marker::Model;

/// A report with what a desk keeps of it, or needs to keep it, and the number of the worker whose
/// it is: a desk knows for each worker where it reported last. Who makes this before the desk is
/// locked holds the lock for less time. Contracts see it as the report.
#[derive(Drop)]
pub struct ReadyReport {
    pub(crate) expansion: Expansion,
    pub(crate) copies: Copies,
    pub(crate) by: usize,
}

impl Model for ReadyReport {
    ghost use Rattle.solid_model.specs.Reports.{Report};
    ghost use Rattle.search_core.specs.Copies.{AreCopies};

    ghost Value = { Report };

    ghost view = { λ s. s.expansion };

    ghost invariant = { λ s. AreCopies s.expansion.found s.expansion.rest s.copies };
}

impl ReadyReport {
    ghost use Rattle.std.specs.Prelude.{◌≡◌, MatchResult};

    /// The report, ready, of the worker of this number. An `Err` is out of memory, and hands it
    /// back.
    pub fn new(alloc: Global, expansion: Expansion, by: usize) -> Result<ReadyReport, Expansion>
        ensures { MatchResult result (λ ready. ready ≡ expansion) (λ back. back ≡ expansion) }
    {
        match Copies::new(alloc, expansion.found(), expansion.rest()) {
            Ok(copies) => Ok(ReadyReport {
                expansion,
                copies,
                by,
            }),
            Err(_) => Err(expansion),
        }
    }
}
