//! Searches that are stopped while their workers are held up.

use super::TWICE_EIGHT_VOIDS;
use super::gates::{TURNS, wait_for};
use crate::searches::problem;
use query_session::{Ask, play};
use search_run::{Search, SearchEnd, SearchSeat};
use solid_model::{Limits, Memory};
use solution_book::BookReader;
use std::alloc::Global;
use std::sync::atomic::{AtomicU64, Ordering};
use std::sync::{Arc, Wait};
use std::test::*;
use std::thread;
use std::thread::Threads;
use tv_base::{Gate, OpenGate, Point};

/// What the unit cube shows in each view.
const UNIT_SQUARE: &str = "rect S 0 0 1 1";

/// Holds each worker at an expansion's beginning until the search was stopped, and counts those that
/// were held and those that gave up.
#[derive(Drop)]
struct StopFirst {
    stopped: AtomicU64,
    held: AtomicU64,
    given_up: AtomicU64,
}

impl Gate for StopFirst {
    fn pass(&self, _worker: u32, point: Point) {
        if point != Point::BeforeExpand {
            return;
        }
        self.held.fetch_add(1, Ordering::SeqCst);
        if !wait_for(&self.stopped, 1, TURNS) {
            self.given_up.fetch_add(1, Ordering::SeqCst);
        }
    }
}

/// Starts a worker at each seat, and stops the search by a reader who is asked to, before the gate
/// lets a worker through.
fn work_and_stop<R: Threads + Wait + Sync, B: Wait + Drop + Send>(
    rt: &R,
    alloc: Global,
    search: &Search<B>,
    seats: Vec<SearchSeat>,
    reader: BookReader<B>,
    gate: &StopFirst,
) -> Result<(), Memory> {
    thread::scope(
        thread::scope_env(),
        rt,
        move |scope| -> Result<(), Memory> {
            for seat in seats {
                let _started = scope.spawn(move || drop(search.work(rt, alloc, 0, seat, gate)));
            }
            let mut reader = reader;
            let pages = play(rt, alloc, &mut reader, &[Ask::Stop], search);
            gate.stopped.fetch_add(1, Ordering::SeqCst);
            pages?;
            Ok(())
        },
    )
}

/// How a search by two workers ends that was stopped before any expansion, if it is to go on or not;
/// an `Err` where no worker was held, or one gave up.
fn end_of_stopped<R: Threads + Wait + Sync>(
    rt: &R,
    alloc: Global,
    go_on: bool,
) -> Result<SearchEnd, Fail> {
    let gate = StopFirst {
        stopped: AtomicU64::new(0),
        held: AtomicU64::new(0),
        given_up: AtomicU64::new(0),
    };
    let problem = problem(alloc, [TWICE_EIGHT_VOIDS; 3])?;
    let own = Arc::try_clone(&problem)?;
    let (search, seats, mut readers) = Search::open(rt, alloc, own, Limits::DEFAULT, 2, 1)?;
    let Some(reader) = readers.pop() else {
        return Err(Fail::from("no reader"));
    };
    work_and_stop(rt, alloc, &search, seats, reader, &gate)?;
    if gate.held.load(Ordering::SeqCst) == 0 || gate.given_up.load(Ordering::SeqCst) > 0 {
        return Err(Fail::from("no stop before an expansion"));
    }
    Ok(search.finish(alloc, Vec::new(alloc), &problem, Limits::DEFAULT, go_on)?)
}

/// How many solids a search has found that has ended; `None` where it was stopped.
fn found_by(end: &SearchEnd) -> Option<usize> {
    match end {
        SearchEnd::Ended { ended, .. } => Some(ended.solids.len()),
        SearchEnd::Stopped { .. } => None,
    }
}

/// How a search of the unit cube by one worker, whom nobody stops, ends where it is taken for that
/// of a cube with these strokes, to go on or not.
fn end_as<R: Threads + Wait + Sync>(
    rt: &R,
    alloc: Global,
    view: &str,
    go_on: bool,
) -> Result<SearchEnd, Fail> {
    let own = problem(alloc, [UNIT_SQUARE; 3])?;
    let (search, seats, _readers) = Search::open(rt, alloc, own, Limits::DEFAULT, 1, 1)?;
    let mut back = Vec::new(alloc);
    for seat in seats {
        back.push(search.work(rt, alloc, 0, seat, &OpenGate))?;
    }
    let problem = problem(alloc, [view; 3])?;
    Ok(search.finish(alloc, back, &problem, Limits::DEFAULT, go_on)?)
}

#[test]
fn a_stopped_search_is_stopped(rt: HostRuntime) -> Result<(), Fail> {
    assert_eq!(rt; found_by(&end_of_stopped(&rt, rt.alloc(), false)?), None);
    Ok(())
}

#[test]
fn a_stopped_search_goes_on(rt: HostRuntime) -> Result<(), Fail> {
    assert_eq!(rt;
        found_by(&end_of_stopped(&rt, rt.alloc(), true)?),
        Some(1225)
    );
    Ok(())
}

#[test]
fn a_search_that_nobody_stops_ends(rt: HostRuntime) -> Result<(), Fail> {
    let end = end_as(&rt, rt.alloc(), UNIT_SQUARE, false)?;
    assert_eq!(rt; found_by(&end), Some(1));
    Ok(())
}

#[test]
fn a_search_of_another_problem_is_made_anew(rt: HostRuntime) -> Result<(), Fail> {
    let end = end_as(&rt, rt.alloc(), "lattice 2 2", true)?;
    assert_eq!(rt; found_by(&end), Some(35));
    Ok(())
}
