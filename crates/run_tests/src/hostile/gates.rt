//! Workers who are held up where a report may come too late for others.

use crate::runs::{Runtime, run_gated, run_words, solve};
use std::alloc::AllocError;
use std::sync::atomic::{AtomicU64, Ordering};
use std::test::Fail;
use std::thread;
use tv_base::{Gate, MemSink, MemSource, Point};

/// After so many turns a gate gives up. A turn is one look at the count.
const TURNS: u32 = 100_000;

/// After so many turns it lets other threads of this processor go on.
const PATIENCE: u32 = 1_000;

/// Holds whoever makes one of the visits to a point until two more points were passed, or gives up.
#[derive(Drop)]
struct Holding {
    point: Point,
    visit: u64,
    visits: AtomicU64,
    passed: AtomicU64,
}

/// Waits until a count has reached a number, or gives up.
fn wait_for(count: &AtomicU64, number: u64) {
    for turn in 0..TURNS {
        if count.load(Ordering::SeqCst) >= number {
            return;
        }
        if turn % PATIENCE == 0 {
            thread::yield_now();
        }
    }
}

impl Gate for Holding {
    fn pass(&self, _worker: u32, point: Point) {
        if point == self.point {
            let before = self.visits.fetch_add(1, Ordering::SeqCst);
            if before.saturating_add(1) == self.visit {
                let passed = self.passed.load(Ordering::SeqCst);
                wait_for(&self.passed, passed.saturating_add(2));
            }
        }
        self.passed.fetch_add(1, Ordering::SeqCst);
    }
}

/// The file of the drawing 11, and what `solve` writes for it. The search opens 739 prefixes, so it
/// has 12 reports at least.
fn made_and_solved<R: Runtime>(rt: &R) -> Result<(String, String), AllocError> {
    let made = run_words(rt, "make|11|", String::new(rt.alloc()))?;
    let file = String::from_str(rt.alloc(), made.strip_prefix("0 ").unwrap_or("no file"))?;
    let alone = solve(rt, file.clone()?)?;
    Ok((file, alone))
}

/// What three workers write for a file, one of whom is held up at a visit to a point, if there was
/// this visit.
fn told<R: Runtime>(rt: &R, file: &str, point: Point, visit: u64) -> Result<String, Fail> {
    let gate = Holding {
        point,
        visit,
        visits: AtomicU64::new(0),
        passed: AtomicU64::new(0),
    };
    let file = String::from_str(rt.alloc(), file)?.into_bytes();
    let mut source = MemSource::new(file, Vec::new(rt.alloc()));
    let sink = MemSink::new(Vec::new(rt.alloc()));
    let wrote = run_gated(rt, "solve|--workers=3|", &mut source, sink, &gate)?;
    if gate.visits.load(Ordering::SeqCst) < visit {
        return Err(Fail::from("no worker came by so often"));
    }
    Ok(wrote)
}

/// The point and the visit of a number below 20.
fn held(number: u32) -> (Point, u64) {
    let point = if number % 2 == 0 {
        Point::BeforeExpand
    } else {
        Point::AfterReport
    };
    (point, u64::from(number / 2 + 1))
}

/// Whether the workers write what one alone does, with one of them held up.
fn writes_the_same<R: Runtime>(rt: &R, file: &str, alone: &str, number: u32) -> Result<bool, Fail> {
    let (point, visit) = held(number);
    let wrote = told(rt, file, point, visit)?;
    Ok(wrote.as_str() == alone && alone.starts_with("0 whole 35 nodes 739 blocks 27\n"))
}

#[test]
fn held_workers_write_the_same(rt: HostRuntime) -> Result<(), Fail> {
    let (file, alone) = made_and_solved(&rt)?;
    for number in 0..20u32 {
        assert!(rt; writes_the_same(&rt, &file, &alone, number)?, "{number}");
    }
    Ok(())
}
