//! Runs whose workers are held: while a reader asks to stop, and until a page is written.

use crate::runs::{Runtime, command_of, run_gated};
use recon_run::run;
use std::alloc::AllocError;
use std::sync::atomic::{AtomicU64, Ordering};
use std::test::Fail;
use std::thread;
use test_files::{Slow, drawing_file};
use tv_base::{Gate, MemSink, MemSource, Point, Sink, SinkError};

/// The eight voids: 35 solids, 109 nodes.
const EIGHT_VOIDS: [&str; 3] = ["lattice 2 2"; 3];

/// Two cubes of 5 on the diagonal, each with eight voids: 1,225 solids, 3,889 nodes.
const TWICE_EIGHT_VOIDS: [&str; 3] = ["\
lattice 2 2, rect S 6 6 11 11, rect D 7 7 8 8, rect D 9 7 10 8, rect D 7 9 8 10, rect D 9 9 10 10"; 3];

/// In so many runs a reader asked to stop before the search had ended.
const RUNS: u32 = 40;

/// Whether this is the status and the text of a search that was stopped: as many solids as its first
/// line tells.
fn is_stopped(wrote: &str) -> bool {
    let Some(text) = wrote.strip_prefix("10 stopped solids ") else {
        return false;
    };
    let (count, solids) = text.split_once('\n').unwrap_or((text, ""));
    let listed = solids
        .lines()
        .filter(|line| line.starts_with("solid "))
        .count();
    count.parse::<usize>().unwrap_or(usize::MAX) == listed
}

/// Whether a run was stopped in which a reader asks for that while workers are held, and another one
/// waits for more solids than there are; and some worker was held.
fn stops<R: Runtime>(rt: &R) -> Result<bool, Fail> {
    let gate = Slow::new();
    let mut file = drawing_file(rt.alloc(), EIGHT_VOIDS)?;
    file.push_str("readers 2\n0 wait 65536\n1 stop\ngo\n")?;
    let mut source = MemSource::new(file.into_bytes(), Vec::new(rt.alloc()));
    let sink = MemSink::new(Vec::new(rt.alloc()));
    let wrote = run_gated(rt, "ask|--workers=2|", &mut source, sink, &gate)?;
    Ok(gate.has_held() && is_stopped(wrote.as_str()))
}

/// Whether one of some runs was.
fn stops_in_time<R: Runtime>(rt: &R) -> Result<bool, Fail> {
    for _ in 0..RUNS {
        if stops(rt)? {
            return Ok(true);
        }
    }
    Ok(false)
}

#[test]
fn a_run_is_stopped(rt: HostRuntime) -> Result<(), Fail> {
    assert!(rt; stops_in_time(&rt)?);
    Ok(())
}

/// After so many turns a worker is let through though nothing is written.
const MOST_TURNS: u32 = 20_000_000;

/// Counts how often something is written, and keeps nothing of it.
#[derive(Drop)]
struct Counting<'a> {
    writes: &'a AtomicU64,
}

impl Sink for Counting<'_> {
    ghost use Rattle.std.specs.Prelude.{None};

    ghost held = { λ _. None };

    ghost faults = { λ _. 0 };

    fn write_all(&mut self, _piece: &[u8]) -> Result<(), SinkError> {
        self.writes.fetch_add(1, Ordering::SeqCst);
        Ok(())
    }
}

/// Holds each of two workers at its third expansion's beginning until something was written, and
/// counts those that were held and those that were let through without.
#[derive(Drop)]
struct WrittenFirst<'a> {
    writes: &'a AtomicU64,
    first: AtomicU64,
    second: AtomicU64,
    held: AtomicU64,
    given_up: AtomicU64,
}

/// Waits until something was written. False: it gave up.
fn wait_for_writing(writes: &AtomicU64) -> bool {
    for _ in 0..MOST_TURNS {
        if writes.load(Ordering::SeqCst) > 0 {
            return true;
        }
        thread::yield_now();
    }
    false
}

impl Gate for WrittenFirst<'_> {
    fn pass(&self, worker: u32, point: Point) {
        if point != Point::BeforeExpand {
            return;
        }
        let own = if worker == 0 {
            &self.first
        } else {
            &self.second
        };
        if own.fetch_add(1, Ordering::SeqCst) == 2 {
            self.held.fetch_add(1, Ordering::SeqCst);
            if !wait_for_writing(self.writes) {
                self.given_up.fetch_add(1, Ordering::SeqCst);
            }
        }
    }
}

/// Whether a run with pages is whole in which some worker waited for something to be written before
/// it went on, and none did in vain: so the first page is written while the search goes on.
fn writes_before_its_end<R: Runtime>(rt: &R) -> Result<bool, Fail> {
    let writes = AtomicU64::new(0);
    let gate = WrittenFirst {
        writes: &writes,
        first: AtomicU64::new(0),
        second: AtomicU64::new(0),
        held: AtomicU64::new(0),
        given_up: AtomicU64::new(0),
    };
    let file = drawing_file(rt.alloc(), TWICE_EIGHT_VOIDS)?.into_bytes();
    let mut source = MemSource::new(file, Vec::new(rt.alloc()));
    let mut sink = Counting { writes: &writes };
    let words = command_of(rt.alloc(), "solve|--pages|--workers=2|")?;
    let status = run(
        rt,
        rt.alloc(),
        words.as_slice(),
        &mut source,
        &mut sink,
        &gate,
    );
    let waited = gate.held.load(Ordering::SeqCst) > 0 && gate.given_up.load(Ordering::SeqCst) == 0;
    Ok(waited && status == 0)
}

#[test]
fn a_page_is_written_before_the_end(rt: HostRuntime) -> Result<(), Fail> {
    assert!(rt; writes_before_its_end(&rt)?);
    Ok(())
}
