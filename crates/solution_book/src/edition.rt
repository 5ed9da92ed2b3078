//! What is published, as it is after one publishing.

use crate::solids::Solids;
use solid_model::{Choice, Memory, Problem};
use std::alloc::Global;
use std::marker::Model;
use std::sync::Arc;

/// A problem, and solids that match its drawing, none twice. Contracts see it as both.
#[derive(Drop)]
pub struct Edition {
    problem: Arc<Problem>,
    solids: Solids,
}

impl Model for Edition {
    ghost use Rattle.solution_book.specs.Editions.{EditionParts, IsEdition};

    ghost Value = { EditionParts };

    ghost use Rattle.std.specs.Arc.{arc_value};

    ghost view = { λ s. record { problem = arc_value s.problem; solids = s.solids } };

    ghost invariant = { λ s. IsEdition record
        { problem = arc_value s.problem; solids = s.solids } };
}

impl Edition {
    ghost use Rattle.std.specs.Prelude.{◌≡◌, ◌≢◌, ◌++◌, ◌↔◌, [], IsTrue, IfOk};
    ghost use Rattle.std.specs.Arc.{arc_value};
    ghost use Rattle.lemmas.specs.Lists.{Each, Ascends};
    ghost use Rattle.solid_model.specs.Solutions.{IsSolutionOf};
    ghost use Rattle.solution_book.specs.Editions.{EditionParts, IsEdition, GoesOn};

    /// A problem, without a solid yet. An `Err` is out of memory.
    pub fn new(alloc: Global, problem: Arc<Problem>) -> Result<Edition, Memory>
        ensures { IfOk result
            (λ edition. edition ≡ record { problem = arc_value problem; solids = [] }) }
    {
        let solids = Solids::new(alloc)?;
        Ok(Edition { problem, solids })
    }

    /// Its solids are solutions of its problem, none of them twice.
    pub fn known(&self)
        ensures { IsEdition self.now }
    {
        let _ = &self.solids;
    }

    /// The problem.
    pub fn problem(&self) -> &Problem
        ensures { result.now ≡ self.now.problem }
    {
        &self.problem
    }

    /// The solids.
    pub fn solids(&self) -> &Solids
        ensures solids { result.now ≡ self.now.solids }
        ensures kept { IsEdition self.now }
    {
        &self.solids
    }

    /// Whether it goes on from another one.
    pub fn goes_on(&self, earlier: &Edition) -> bool
        ensures { IsTrue result ↔ GoesOn self.now earlier.now }
    {
        self.problem.same(&earlier.problem) && self.solids.begin_with(&earlier.solids)
    }

    /// The same with more solids. An `Err` is out of memory.
    pub fn with(&self, alloc: Global, more: &[Choice]) -> Result<Edition, Memory>
        requires each { Each (IsSolutionOf self.now.problem) more.now }
        requires once { Ascends ◌≢◌ (self.now.solids ++ more.now) }
        ensures { IfOk result (λ longer. longer ≡ record {
          problem = self.now.problem;
          solids = self.now.solids ++ more.now;
        }) }
    {
        Ok(Edition {
            solids: self.solids.with(alloc, more)?,
            problem: Arc::try_clone(&self.problem)?,
        })
    }
}
