//! Gates that hold workers up until others have come as far, or give up.

use super::pages::Refusing;
use super::{TWICE_EIGHT_VOIDS, searched};
use crate::searches::problem;
use solid_model::Limits;
use std::alloc::Global;
use std::sync::Wait;
use std::sync::atomic::{AtomicU64, Ordering};
use std::test::*;
use std::thread;
use std::thread::Threads;
use tv_base::{Gate, Point};

/// After so many turns a gate gives up. A turn is one yield.
pub const TURNS: u32 = 20_000_000;

/// After so many the one of a meeting does: a worker that starts late may find that the other one
/// keeps all pieces, and then they don't meet in that search.
const MEETING_TURNS: u32 = 200_000;

/// In so many searches two workers that work at once have met.
const SEARCHES: u32 = 40;

/// Waits so many turns until a count has reached a number. False: it gave up.
pub fn wait_for(count: &AtomicU64, number: u64, turns: u32) -> bool {
    for _ in 0..turns {
        if count.load(Ordering::SeqCst) >= number {
            return true;
        }
        thread::yield_now();
    }
    false
}

/// Holds each of two workers inside its second expansion's beginning until the other one has come
/// there too, so that both are inside at once, and counts those that met the other.
#[derive(Drop)]
struct Meeting {
    first: AtomicU64,
    second: AtomicU64,
    met: AtomicU64,
}

impl Gate for Meeting {
    fn pass(&self, worker: u32, point: Point) {
        if point != Point::BeforeExpand {
            return;
        }
        let (own, other) = if worker == 0 {
            (&self.first, &self.second)
        } else {
            (&self.second, &self.first)
        };
        let before = own.fetch_add(1, Ordering::SeqCst);
        if before == 1 && wait_for(other, 2, MEETING_TURNS) {
            self.met.fetch_add(1, Ordering::SeqCst);
        }
    }
}

/// Holds each of two workers at its third expansion's beginning until a page was written, and
/// counts those that were held and those that gave up.
#[derive(Drop)]
struct PageFirst {
    first: AtomicU64,
    second: AtomicU64,
    pages: AtomicU64,
    held: AtomicU64,
    given_up: AtomicU64,
}

impl Gate for PageFirst {
    fn pass(&self, worker: u32, point: Point) {
        match point {
            Point::BeforeExpand => {
                let own = if worker == 0 {
                    &self.first
                } else {
                    &self.second
                };
                let before = own.fetch_add(1, Ordering::SeqCst);
                if before == 2 {
                    self.held.fetch_add(1, Ordering::SeqCst);
                    if !wait_for(&self.pages, 1, TURNS) {
                        self.given_up.fetch_add(1, Ordering::SeqCst);
                    }
                }
            }
            Point::AfterReport => {}
            Point::PageWritten => {
                self.pages.fetch_add(1, Ordering::SeqCst);
            }
        }
    }
}

/// How many solids a search of the cubes with eight voids finds by two workers, who pass a gate.
fn found_by_two<R: Threads + Wait + Sync, G: Gate>(
    rt: &R,
    alloc: Global,
    gate: &G,
) -> Result<usize, Fail> {
    let problem = problem(alloc, [TWICE_EIGHT_VOIDS; 3])?;
    let mut pages = Refusing::after(u32::MAX);
    match searched(rt, alloc, problem, Limits::DEFAULT, 2, gate, &mut pages) {
        Ok(ended) => Ok(ended.solids.len()),
        Err(_) => Err(Fail::from("no answer")),
    }
}

/// How many solids a search finds at a gate that both workers meet at; `None`: they didn't.
fn found_if_met<R: Threads + Wait + Sync>(rt: &R, alloc: Global) -> Result<Option<usize>, Fail> {
    let gate = Meeting {
        first: AtomicU64::new(0),
        second: AtomicU64::new(0),
        met: AtomicU64::new(0),
    };
    let found = found_by_two(rt, alloc, &gate)?;
    if gate.met.load(Ordering::SeqCst) == 2 {
        return Ok(Some(found));
    }
    Ok(None)
}

/// How many solids a search with a meeting finds, if in one of some searches both workers met.
fn found_at_meeting<R: Threads + Wait + Sync>(rt: &R, alloc: Global) -> Result<usize, Fail> {
    for _ in 0..SEARCHES {
        if let Some(found) = found_if_met(rt, alloc)? {
            return Ok(found);
        }
    }
    Err(Fail::from("no meeting"))
}

/// How many solids a search finds whose workers wait for a page, if some worker was held for one
/// and none gave up: so a page was written while a third expansion was still to come.
fn found_with_page<R: Threads + Wait + Sync>(rt: &R, alloc: Global) -> Result<usize, Fail> {
    let gate = PageFirst {
        first: AtomicU64::new(0),
        second: AtomicU64::new(0),
        pages: AtomicU64::new(0),
        held: AtomicU64::new(0),
        given_up: AtomicU64::new(0),
    };
    let found = found_by_two(rt, alloc, &gate)?;
    if gate.held.load(Ordering::SeqCst) == 0 || gate.given_up.load(Ordering::SeqCst) > 0 {
        return Err(Fail::from("no page before a third expansion"));
    }
    Ok(found)
}

#[test]
fn two_at_once(rt: HostRuntime) -> Result<(), Fail> {
    assert_eq!(rt; found_at_meeting(&rt, rt.alloc())?, 1225);
    Ok(())
}

#[test]
fn page_before_end(rt: HostRuntime) -> Result<(), Fail> {
    assert_eq!(rt; found_with_page(&rt, rt.alloc())?, 1225);
    Ok(())
}
