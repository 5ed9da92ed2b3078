//! The search of a problem by several workers.
//!
//! `run_search` doesn't close its pool, as the search of `search.rt` doesn't.
//!
//! It keeps no receipt: whatever the caller reads too late of the book, `finish` hands out by the
//! desk.

ghost use Rattle.std.specs.Prelude.{◌≡◌, ◌≤◌, [], IfOk, MatchResult};
ghost use Rattle.std.specs.Arc.{arc_value};
ghost use Rattle.solid_model.specs.Forcing.{is_live};
ghost use Rattle.solid_model.specs.SearchEnds.{EndsSearch};
ghost use Rattle.search_tree.specs.BlockPaths.{IsWayOf};
ghost use Rattle.search_end.specs.Answers.{IsAnswer};
ghost use Rattle.search_end.specs.Handed.{PagesOn};
ghost use Rattle.page_calls.specs.Pages.{CountsFaults, HasPaged, HasAllPaged};

use crate::opening::{Opened, open_at};
use crate::paging::page_all;
use crate::worker::start_workers;
use crate::workshop::Workshop;
use page_calls::{PageOut, RunFault};
use search_core::Desk;
use search_end::{Handed, finish};
use search_tree::BlockPath;
use solid_model::{Ended, Limits, Problem};
use solution_book::BookReader;
use std::alloc::Global;
use std::sync::{Arc, Wait};
use std::thread;
use std::thread::Threads;
use steal_pool::WorkerSeat;
use tv_base::Gate;

/// Starts a worker at each seat, the first by this way down the tree of the problem's prefixes, and
/// hands out pages until all have returned. Where a page is refused, or memory runs out, all are to
/// stop.
fn search_together<'a, 's, R: Threads + Wait + Sync, G: Gate, P: PageOut>(
    rt: &'a R,
    alloc: Global,
    shop: &Workshop<'s, &'a R, G>,
    path: BlockPath<'s>,
    seats: Vec<WorkerSeat>,
    readers: Vec<BookReader<&'a R>>,
    pages: &mut P,
) -> Result<Handed, RunFault>
    requires way { IsWayOf (arc_value shop.now.problem.now) path }
    ensures paged { PagesOn (arc_value shop.now.problem.now) shop.now.limits.solids
        (P.calls pages.old) record { choices = []; pages = 0 } (P.calls pages.new) result }
    ensures faults { CountsFaults (P.faults pages.old) (P.faults pages.new) result
        RunFault.PageFault }
{
    let lent = &mut *pages;
    // What is written through `pages` is known only of what the closure hands back.
    let (back, handed) = thread::scope(
        thread::scope_env(),
        rt,
        move |scope| -> (&mut P, Result<Handed, RunFault>)
            requires way { IsWayOf (arc_value shop.now.problem.now) path }
            ensures same { result.0.ghost_name ≡ lent.entry.ghost_name }
            ensures paged { PagesOn (arc_value shop.entry.now.problem.now)
                shop.entry.now.limits.solids (P.calls lent.entry.now)
                record { choices = []; pages = 0 } (P.calls result.0.now) result.1 }
            ensures faults { CountsFaults (P.faults lent.entry.now) (P.faults result.0.now) result.1
                RunFault.PageFault }
        {
            start_workers(scope, rt, alloc, shop, path, seats);
            let handed = page_all(rt, alloc, shop, readers, lent);
            if handed.is_err() {
                shop.monitor.halt(rt);
            }
            (lent, handed)
        },
    );
    let _ = back;
    handed
}

/// The search of all prefixes of a problem within limits by so many workers, which pass the gate at
/// their points. Hands the choices out in pages as it goes on, each choice once, and answers how
/// the search ended, with all choices in the stated order, and the desk at which it did.
/// `PageFault` comes only where the count of faults of `pages` rose in this call.
pub fn run_search<R: Threads + Wait + Sync, G: Gate, P: PageOut>(
    rt: &R,
    alloc: Global,
    problem: Arc<Problem>,
    limits: Limits,
    workers: u32,
    gate: &G,
    pages: &mut P,
) -> Result<(Ended, Desk), RunFault>
    requires some { 1 ≤ workers }
    requires few { workers ≤ 64 }
    ensures answer { IfOk result (λ r. EndsSearch (is_live (arc_value problem))
        (arc_value problem).blocks.count limits r.0) }
    ensures desk { IfOk result (λ r. IsAnswer (arc_value problem) limits r.0 r.1) }
    ensures paged { MatchResult result
        (λ r. HasAllPaged (arc_value problem) (P.calls pages.old) (P.calls pages.new) r.0.solids)
        (λ _. HasPaged (arc_value problem) limits.solids (P.calls pages.old) (P.calls pages.new)) }
    ensures faults { CountsFaults (P.faults pages.old) (P.faults pages.new) result
        RunFault.PageFault }
{
    let is_read = pages.listens();
    let Ok(opened) = open_at(rt, alloc, &problem, limits, workers, 1, is_read) else {
        return Err(RunFault::Memory);
    };
    let Opened {
        path,
        seats,
        monitor,
        readers,
        goes_on,
    } = opened;
    let seats = if goes_on { seats } else { Vec::new(alloc) };
    let handed = {
        let shop = Workshop {
            problem: &problem,
            limits,
            monitor: &monitor,
            gate,
            workers,
        };
        search_together(rt, alloc, &shop, path, seats, readers, pages)
    };
    match handed {
        Ok(handed) => {
            let (desk, marks) = monitor.into_desk();
            finish(alloc, &problem, limits, desk, &marks, handed, pages)
        }
        Err(fault) => Err(fault),
    }
}
