//! The parts of a search, for a caller who starts its workers and readers.
//!
//! It keeps no way down the tree, which borrows the problem that it owns: each worker makes one.
//!
//! A search keeps no pool: what is left in the deques is in the desk's frontier too, and `finish`
//! makes from there what events are missing. So a seat of another search, or one that is left out,
//! does no harm, and no call has a condition on seats.

ghost use Rattle.std.specs.Prelude.{◌≡◌, ◌≤◌, false, length, IfOk};
ghost use Rattle.std.specs.Arc.{arc_value};
ghost use Rattle.lemmas.specs.Lists.{Each};
ghost use Rattle.query_session.specs.Tales.{IsReaderOf};
ghost use Rattle.search_end.specs.Stopped.{IsEndOf, ListsFound, WasStopped};
ghost use Rattle.search_run.specs.Worked.{HasWorked};
ghost use Rattle.steal_pool.specs.WorkerSeats.{state_of};

use crate::monitor::Monitor;
use crate::opening::{Opened, open_at, readers_of};
use crate::worker::work_at_seat;
use crate::workshop::Workshop;
use page_calls::NoPages;
use query_session::Waiter;
use search_end::{Handed, SearchEnd, end_search};
use solid_model::{Limits, Memory, Problem};
use solution_book::BookReader;
use std::alloc::Global;
use std::sync::{Arc, Wait};
use steal_pool::WorkerSeat;
use tv_base::Gate;

/// A worker's seats at a search.
#[derive(Drop)]
pub struct SearchSeat {
    pub seat: WorkerSeat,
}

/// A search of a problem within limits, which workers share, with a book that others read
/// meanwhile.
#[derive(Drop)]
pub struct Search<B: Wait + Drop> {
    problem: Arc<Problem>,
    limits: Limits,
    workers: u32,
    monitor: Monitor<B>,
}

/// The same seats, each as one of a search. An `Err` is out of memory.
fn search_seats(alloc: Global, seats: Vec<WorkerSeat>) -> Result<Vec<SearchSeat>, Memory>
    ensures { IfOk result (λ own. length own.items ≡ length seats.items) }
{
    let mut own = Vec::new(alloc);
    let mut left = seats.into_iter();
    while let Some(seat) = left.next() {
        own.push(SearchSeat { seat })?;
    }
    Ok(own)
}

impl<'a, R: Wait> Search<&'a R> {
    /// A search of a problem within limits by so many workers, all of whom count as at work, a seat
    /// for each of them, and so many readers of its book, each of which has looked at it. It may
    /// wait. An `Err` is out of memory.
    pub fn open(
        rt: &'a R,
        alloc: Global,
        problem: Arc<Problem>,
        limits: Limits,
        workers: u32,
        readers: u32,
    ) -> Result<(Search<&'a R>, Vec<SearchSeat>, Vec<BookReader<&'a R>>), Memory>
        requires workers { (1 ≤ workers) × (workers ≤ 64) }
        requires readers { (1 ≤ readers) × (readers ≤ 16) }
        ensures seats { IfOk result (λ r. length r.1.items ≡ workers) }
        ensures readers { IfOk result (λ r. Each (IsReaderOf (arc_value problem)) r.2.items) }
        ensures count { IfOk result (λ r. length r.2.items ≡ readers) }
    {
        let Opened {
            seats,
            monitor,
            readers: others,
            ..
        } = open_at(rt, alloc, &problem, limits, workers, readers, true)?;
        let seats = search_seats(alloc, seats)?;
        let others = readers_of(alloc, &problem, others)?;
        let search = Search {
            problem,
            limits,
            workers,
            monitor,
        };
        Ok((search, seats, others))
    }
}

impl<B: Wait + Drop> Search<B> {
    /// The work of the worker of this number, from its start until it leaves: it passes the gate at
    /// its points, and hands its seat back, with what it put, took and stole added. It may wait.
    pub fn work<R: Wait, G: Gate>(
        &self,
        rt: &R,
        alloc: Global,
        number: u32,
        seat: SearchSeat,
        gate: &G,
    ) -> SearchSeat
        ensures { HasWorked (state_of seat.seat) (state_of result.seat) }
    {
        let shop = Workshop {
            problem: &self.problem,
            limits: self.limits,
            monitor: &self.monitor,
            gate,
            workers: self.workers,
        };
        SearchSeat {
            seat: work_at_seat(rt, alloc, &shop, None, number, seat.seat),
        }
    }

    /// A worker that couldn't be started stops counting; its work is done by others.
    pub fn leave<R: Wait>(&self, rt: &R) {
        self.monitor.leave(rt);
    }

    /// Ends it, once all workers have returned, and given all its seats. Where it is to go on, the
    /// events that are missing are made, so that it has ended; else it may be stopped. What the
    /// desk found is listed, in the stated order. An `Err` is out of memory. It may
    /// wait for readers, and what a reader calls afterwards may never return.
    pub fn finish(
        self,
        alloc: Global,
        seats: Vec<SearchSeat>,
        problem: &Arc<Problem>,
        limits: Limits,
        go_on: bool,
    ) -> Result<SearchEnd, Memory>
        ensures end { IfOk result (IsEndOf (arc_value problem.now) limits) }
        ensures stopped { IfOk result (λ e. WasStopped e → go_on ≡ false) }
        ensures found { IfOk result ListsFound }
    {
        drop(seats);
        let Search { monitor, .. } = self;
        let (desk, marks) = monitor.into_desk();
        let handed = Handed::new(alloc);
        match end_search(
            alloc,
            problem,
            limits,
            desk,
            &marks,
            handed,
            go_on,
            &mut NoPages,
        ) {
            Ok(end) => Ok(end),
            Err(_) => Err(Memory),
        }
    }
}

impl<B: Wait + Drop> Waiter for Search<B> {
    /// Returns once so many solids are published, the desk has ended, it is stopped or no worker is
    /// at work.
    fn wait_for<R: Wait>(&self, rt: &R, count: usize) {
        self.monitor.wait_for(rt, count);
    }

    /// Sets the mark at which workers leave. The desk stays as it is, so that `finish` may go on.
    fn stop<R: Wait>(&self, rt: &R) {
        self.monitor.halt(rt);
    }
}
