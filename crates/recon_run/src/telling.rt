//! Searches that tell pages while they go on.

ghost use Rattle.std.specs.Prelude.{◌≡◌, ◌↔◌, ◌≤◌, Bool, List, true};
ghost use Rattle.six_views.specs.Further.{FitsChoice};
ghost use Rattle.recon_run.specs.Pages.{BeginsPages, TellsPages};
ghost use Rattle.recon_run.specs.Searched.{TellsSearch, run_failure};
ghost use Rattle.replies.specs.Writings.{EndsWriting};
ghost use Rattle.tv_base.specs.Faults.{Rose};

use crate::crew::Crew;
use crate::searched::{Searched, search_by, search_fitting};
use crate::sought::Sought;
use core::mem::replace_with;
use fit_lanes::FurtherSieve;
use replies::Failure;
use search_run::RunFault;
use sink_pages::{Begun, SinkPages};
use solid_model::{Limits, Memory};
use std::alloc::Global;
use std::marker::Brand;
use std::sync::{Arc, Wait};
use std::thread::Threads;
use tv_base::{Gate, Sink};

/// Why a run fails whose search failed so.
fn failure_of(fault: RunFault) -> Failure
    ensures { result ≡ run_failure fault }
{
    match fault {
        RunFault::PageFault => Failure::WriteFault,
        RunFault::Memory => Failure::Memory,
    }
}

/// Searches a problem within limits, tells pages of what fits further views to a sink, and gives it
/// back. What the sink held and which choices fit is that of `B`.
fn told_from<R: Threads + Wait + Sync, K: Sink, G: Gate, B: Begun>(
    alloc: Global,
    sought: Sought,
    limits: Limits,
    sink: K,
    crew: &Crew<'_, R, G>,
) -> (K, Result<Searched, Failure>)
    requires held { K.held sink ≡ B.held }
    requires fits { (choice : List Bool)
        → FitsChoice sought.problem sought.further choice ↔ B.fits choice }
    ensures later { K.faults sink ≤ K.faults result.0 }
    ensures ends { EndsWriting (TellsSearch limits sought (TellsPages true))
        (TellsSearch limits sought (BeginsPages true)) B.held (K.held result.0)
        (Rose (K.faults sink) (K.faults result.0)) result.1 }
{
    let Sought { problem, further } = sought;
    problem.known();
    further.known();
    let Ok(problem) = Arc::new(alloc, problem) else {
        return (sink, Err(Failure::Memory));
    };
    let Ok(sieve) = FurtherSieve::of(alloc, &problem, &further) else {
        return (sink, Err(Failure::Memory));
    };
    let mut pages = SinkPages::<K, B, FurtherSieve<'_>>::begin(alloc, sink, sieve);
    let found = search_by(alloc, &problem, limits, crew, &mut pages);
    let sink = pages.into_sink();
    match found {
        Ok(searched) => match searched.fitting(alloc, &further) {
            Ok(fitting) => (sink, Ok(fitting)),
            Err(Memory) => (sink, Err(Failure::Memory)),
        },
        Err(fault) => (sink, Err(failure_of(fault))),
    }
}

/// The same of any sink.
fn told<R: Threads + Wait + Sync, K: Sink, G: Gate>(
    alloc: Global,
    sought: Sought,
    limits: Limits,
    sink: K,
    crew: &Crew<'_, R, G>,
) -> (K, Result<Searched, Failure>)
    ensures later { K.faults sink ≤ K.faults result.0 }
    ensures ends { EndsWriting (TellsSearch limits sought (TellsPages true))
        (TellsSearch limits sought (BeginsPages true)) (K.held sink) (K.held result.0)
        (Rose (K.faults sink) (K.faults result.0)) result.1 }
{
    told_from::<R, K, G, Brand>(alloc, sought, limits, sink, crew)
}

/// The same of a sink that stays where it is.
fn tell<R: Threads + Wait + Sync, K: Sink, G: Gate>(
    alloc: Global,
    sought: Sought,
    limits: Limits,
    sink: &mut K,
    crew: &Crew<'_, R, G>,
) -> Result<Searched, Failure>
    ensures later { K.faults sink.old ≤ K.faults sink.new }
    ensures ends { EndsWriting (TellsSearch limits sought (TellsPages true))
        (TellsSearch limits sought (BeginsPages true)) (K.held sink.old) (K.held sink.new)
        (Rose (K.faults sink.old) (K.faults sink.new)) result }
{
    // The crew goes through the call: of one that is captured nothing would be known.
    replace_with(sink, (sought, crew), |own, (sought, crew)| {
        told(alloc, sought, limits, own, crew)
    })
}

/// Searches for what is sought within limits, and writes pages of what is found while it is found,
/// if they are asked for.
pub fn search_telling<R: Threads + Wait + Sync, K: Sink, G: Gate>(
    alloc: Global,
    sought: Sought,
    limits: Limits,
    pages: bool,
    sink: &mut K,
    crew: &Crew<'_, R, G>,
) -> Result<Searched, Failure>
    ensures later { K.faults sink.old ≤ K.faults sink.new }
    ensures ends { EndsWriting (TellsSearch limits sought (TellsPages pages))
        (TellsSearch limits sought (BeginsPages pages)) (K.held sink.old) (K.held sink.new)
        (Rose (K.faults sink.old) (K.faults sink.new)) result }
{
    if pages {
        tell(alloc, sought, limits, sink, crew)
    } else {
        Ok(search_fitting(alloc, sought, limits, crew)?)
    }
}
