//! Sessions: that readers see what workers find while these search, and how the search ends.

ghost use Rattle.std.specs.Prelude.{◌≤◌};

use crate::askings::text_of;
use file_problem::problem_of;
use query_session::{Ask, ReaderTale, asks_of};
use search_end::SearchEnd;
use session_run::{Session, run_session};
use solid_model::{Choice, Limits, compare};
use solution_book::Page;
use std::alloc::{AllocError, Global};
use std::cmp::Ordering;
use std::sync::{Arc, Wait};
use std::test::*;
use std::thread::Threads;
use test_files::{Row, Slow, drawing_file, file_bytes, rows_tell};
use tv_base::{Gate, OpenGate};

/// A cube of 5 with eight voids: 35 solids, 109 nodes.
const EIGHT_VOIDS: &str = "lattice 2 2";

/// What readers are asked by these lines. An `Err` where one is refused.
fn scripts_of(alloc: Global, lines: &str) -> Result<Vec<Vec<Ask>>, Fail> {
    let text = text_of(alloc, lines)?;
    match asks_of(alloc, text.as_bytes()) {
        Ok(scripts) => Ok(scripts),
        Err(_) => Err(Fail::new("askings")),
    }
}

/// The session of these lines beside the search of the eight voids by so many workers, who pass a
/// gate.
fn gated_session<R: Threads + Wait + Sync, G: Gate>(
    rt: &R,
    alloc: Global,
    workers: u32,
    gate: &G,
    lines: &str,
) -> Result<Session, Fail> {
    let file = file_bytes(drawing_file(alloc, [EIGHT_VOIDS; 3])?)?;
    let problem = Arc::new(alloc, problem_of(alloc, file, 0)?)?;
    let scripts = scripts_of(alloc, lines)?;
    if scripts.is_empty() || scripts.len() > 16 {
        return Err(Fail::new("readers"));
    }
    let workers = workers.clamp(1, 64);
    match run_session(rt, alloc, problem, Limits::DEFAULT, workers, gate, &scripts) {
        Ok(session) => Ok(session),
        Err(_) => Err(Fail::new("memory")),
    }
}

/// The same, where workers are let through at once.
fn session_of<R: Threads + Wait + Sync>(
    rt: &R,
    alloc: Global,
    workers: u32,
    lines: &str,
) -> Result<Session, Fail> {
    gated_session(rt, alloc, workers, &OpenGate, lines)
}

/// How many choices each reader saw at last, and how many are listed of a search that has ended.
fn told(alloc: Global, session: &Session) -> Result<String, AllocError> {
    let mut told = String::new(alloc);
    for tale in &session.tales {
        write!(told, "{} ", tale.last.len())?;
    }
    match &session.end {
        SearchEnd::Ended { ended, .. } => write!(told, "of {}", ended.solids.len())?,
        SearchEnd::Stopped { .. } => told.push_str("stopped")?,
    }
    Ok(told)
}

/// A row how many workers there are, and the lines of a session in which nobody asks to stop; and
/// what each reader saw at last, of how many solids.
const SESSIONS: &str = "\
1; readers 1|go -> 35 of 35
2; readers 2|0 wait 1|0 page 0 10|1 wait 35|1 page 0 256|0 page 0 256|go -> 35 35 of 35
64; readers 3|0 wait 36|1 wait 65536|2 page 65536 1|go -> 35 35 35 of 35
64; readers 16|0 wait 35|15 wait 35|7 page 0 1|go \
    -> 35 35 35 35 35 35 35 35 35 35 35 35 35 35 35 35 of 35";

/// How the session of a row ends, as the row has it.
fn told_in<R: Threads + Wait + Sync>(rt: &R, alloc: Global, row: Row<'_>) -> Result<String, Fail> {
    let [workers, lines, ..] = row.parts;
    let session = session_of(rt, alloc, workers.parse().unwrap_or(1), lines)?;
    Ok(told(alloc, &session)?)
}

#[test]
fn sessions_end_so(rt: HostRuntime) -> Result<(), Fail> {
    rows_tell(SESSIONS, |row| told_in(&rt, rt.alloc(), row))
}

/// Whether two choices are the same.
fn same(a: &Choice, b: &Choice) -> bool {
    if a.len() != b.len() {
        return false;
    }
    match compare(a, b) {
        Ordering::Equal => true,
        _ => false,
    }
}

/// Whether the first page has some choices, and the second one begins with all of them.
fn goes_on(first: &Page, second: &Page) -> bool {
    let (seen, all) = (&first.solids, &second.solids);
    !seen.is_empty()
        && seen.len() <= all.len()
        && seen.iter().zip(all.iter()).all(|(a, b)| same(a, b))
}

/// Whether a page has all of so many choices, and the list ends there.
fn is_whole(page: &Page, count: usize) -> bool {
    page.solids.len() == count && page.ends_here
}

/// Whether, of two readers, the first one saw a page with some choices and then one that begins
/// with them, and the other one, who waited for all, a page with all.
fn sees_all(tales: &[ReaderTale]) -> bool {
    match tales {
        [first, second] => match (first.pages.as_slice(), second.pages.as_slice()) {
            ([early, late], [all]) => goes_on(early, late) && is_whole(all, 35),
            _ => false,
        },
        _ => false,
    }
}

#[test]
fn two_readers_beside_two_workers(rt: HostRuntime) -> Result<(), Fail> {
    let lines = "readers 2|0 wait 1|0 page 0 10|1 wait 35|1 page 0 256|0 page 0 256|go";
    let session = session_of(&rt, rt.alloc(), 2, lines)?;
    assert!(rt; sees_all(&session.tales));
    Ok(())
}

/// In so many sessions a reader asked to stop before the search had ended.
const TRIALS: u32 = 40;

/// Whether a session in which a reader waits for more solids than there are, and another one asks to
/// stop while workers are held, ends stopped: so readers go on beside one another, and beside the
/// workers.
fn is_stopped<R: Threads + Wait + Sync>(rt: &R, alloc: Global) -> Result<bool, Fail> {
    let gate = Slow::new();
    let session = gated_session(rt, alloc, 2, &gate, "readers 2|0 wait 65536|1 stop|go")?;
    Ok(gate.has_held() && matches!(session.end, SearchEnd::Stopped { .. }))
}

/// Whether one of some such sessions does.
fn is_stopped_in_time<R: Threads + Wait + Sync>(rt: &R, alloc: Global) -> Result<bool, Fail> {
    for _ in 0..TRIALS {
        if is_stopped(rt, alloc)? {
            return Ok(true);
        }
    }
    Ok(false)
}

#[test]
fn a_reader_stops_a_search(rt: HostRuntime) -> Result<(), Fail> {
    assert!(rt; is_stopped_in_time(&rt, rt.alloc())?);
    Ok(())
}
