//! Problems that are searched.

ghost use Rattle.std.specs.Prelude.{IfOk, MatchResult};
ghost use Rattle.std.specs.Arc.{arc_value};
ghost use Rattle.recon_run.specs.Searched.{IsFittingSearchOf, IsSearchOf};
ghost use Rattle.page_calls.specs.Pages.{CountsFaults, HasAllPaged, HasPaged};

use crate::crew::Crew;
use crate::sought::Sought;
use fit_lanes::FurtherSieve;
use further_views::Further;
use page_calls::sift;
use report::head_text;
use search_run::{NoPages, PageOut, RunFault, run_search};
use solid_model::{Ended, Limits, Memory, Problem};
use std::alloc::Global;
use std::marker::Model;
use std::sync::{Arc, Wait};
use std::thread::Threads;
use tv_base::Gate;

/// A problem, and how the search of it ended.
#[derive(Drop)]
pub struct Searched {
    problem: Arc<Problem>,
    ended: Ended,
}

impl Model for Searched {
    ghost use Rattle.std.specs.Arc.{arc_value};
    ghost use Rattle.recon_run.specs.Searched.{SearchedParts, HasFewSolids};

    ghost Value = { SearchedParts };

    ghost view = { λ s. record { problem = arc_value s.problem; ended = s.ended } };

    ghost invariant = { λ s. HasFewSolids record {
      problem = arc_value s.problem;
      ended = s.ended;
    } };
}

impl Searched {
    ghost use Rattle.std.specs.Prelude.{◌≡◌, ◌≤◌, length, IfOk};
    ghost use Rattle.std.specs.Arc.{arc_value};
    ghost use Rattle.solid_model.specs.Limits.{most_solid_limit};
    ghost use Rattle.recon_run.specs.Searched.{HasFewSolids, IsFittingOf, search_head};

    /// A problem whose search has ended so.
    pub fn of(problem: Arc<Problem>, ended: Ended) -> Searched
        requires { length ended.solids ≤ most_solid_limit }
        ensures { result ≡ record { problem = arc_value problem; ended = ended } }
    {
        Searched { problem, ended }
    }

    /// It has no more solids than a limit can be.
    pub fn known(&self)
        ensures { HasFewSolids self.now }
    {
        let _ = &self.ended;
    }

    /// The problem.
    pub fn problem(&self) -> &Problem
        ensures { result.now ≡ self.now.problem }
    {
        &self.problem
    }

    /// How the search of it ended.
    pub fn ended(&self) -> &Ended
        ensures same { result.now ≡ self.now.ended }
        ensures few { HasFewSolids self.now }
    {
        &self.ended
    }

    /// The line that tells how the search within these limits ended.
    pub fn head(&self, alloc: Global, limits: Limits) -> Result<Vec<u8>, Memory>
        ensures { IfOk result (λ text. text.items ≡ search_head limits self.now) }
    {
        let blocks = self.problem().blocks().count();
        head_text(alloc, self.ended(), limits, blocks)
    }

    /// The same with those choices alone whose solids show these further views and sections; where
    /// none is asked for, nothing is looked at.
    pub fn fitting(self, alloc: Global, further: &Further) -> Result<Searched, Memory>
        ensures { IfOk result (IsFittingOf further.now self) }
    {
        if !further.asks() {
            return Ok(self);
        }
        let Searched { problem, ended } = self;
        let mut sieve = FurtherSieve::of(alloc, &problem, further)?;
        let solids = sift(alloc, &mut sieve, ended.solids.as_slice())?;
        drop(sieve);
        let ended = Ended {
            kind: ended.kind,
            opened: ended.opened,
            solids,
        };
        Ok(Searched { problem, ended })
    }
}

/// Searches a problem within limits, and hands out what is found in pages.
pub fn search_by<R: Threads + Wait + Sync, G: Gate, P: PageOut>(
    alloc: Global,
    problem: &Arc<Problem>,
    limits: Limits,
    crew: &Crew<'_, R, G>,
    pages: &mut P,
) -> Result<Searched, RunFault>
    ensures search { IfOk result (IsSearchOf limits (arc_value problem.now)) }
    ensures paged { MatchResult result
        (λ s. HasAllPaged (arc_value problem.now) (P.calls pages.old) (P.calls pages.new)
        s.ended.solids)
        (λ _. HasPaged (arc_value problem.now) limits.solids (P.calls pages.old)
        (P.calls pages.new)) }
    ensures faults { CountsFaults (P.faults pages.old) (P.faults pages.new) result
        RunFault.PageFault }
{
    let Ok(own) = Arc::try_clone(problem) else {
        return Err(RunFault::Memory);
    };
    let Ok(shared) = Arc::try_clone(problem) else {
        return Err(RunFault::Memory);
    };
    match run_search(
        crew.rt,
        alloc,
        shared,
        limits,
        crew.workers,
        crew.gate,
        pages,
    ) {
        Ok((ended, _)) => Ok(Searched {
            problem: own,
            ended,
        }),
        Err(fault) => Err(fault),
    }
}

/// The same without pages.
pub fn search<R: Threads + Wait + Sync, G: Gate>(
    alloc: Global,
    problem: Problem,
    limits: Limits,
    crew: &Crew<'_, R, G>,
) -> Result<Searched, Memory>
    ensures { IfOk result (IsSearchOf limits problem) }
{
    let Ok(problem) = Arc::new(alloc, problem) else {
        return Err(Memory);
    };
    match search_by(alloc, &problem, limits, crew, &mut NoPages) {
        Ok(searched) => Ok(searched),
        Err(RunFault::Memory) => Err(Memory),
        Err(RunFault::PageFault) => unreachable!(),
    }
}

/// Searches for what is sought within limits.
pub fn search_fitting<R: Threads + Wait + Sync, G: Gate>(
    alloc: Global,
    sought: Sought,
    limits: Limits,
    crew: &Crew<'_, R, G>,
) -> Result<Searched, Memory>
    ensures { IfOk result (IsFittingSearchOf limits sought) }
{
    let Sought { problem, further } = sought;
    search(alloc, problem, limits, crew)?.fitting(alloc, &further)
}
