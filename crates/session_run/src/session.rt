//! A session of readers beside a search.

ghost use Rattle.std.specs.Prelude.{◌≡◌, ◌≤◌, false, length, map, IfOk};
ghost use Rattle.std.specs.Arc.{arc_value};
ghost use Rattle.std.specs.List.{list_any};
ghost use Rattle.lemmas.specs.Lists.{Each};
ghost use Rattle.solid_model.specs.Solutions.{AreSolutions};
ghost use Rattle.search_end.specs.Stopped.{IsEndOf, WasStopped, end_solids};
ghost use Rattle.session_run.specs.Session.{AreAmong, IsSession, asks_stop, is_stop};

use crate::tales::told_choices;
use crate::together::tell_together;
use query_session::{Ask, ReaderTale};
use search_core::Desk;
use search_end::{Handed, Mark, end_search};
use search_run::{NoPages, Opened, SearchEnd, Workshop, open_at, readers_of};
use solid_model::{Limits, Memory, Problem};
use std::alloc::Global;
use std::sync::{Arc, Wait};
use std::thread::Threads;
use tv_base::Gate;

/// What comes of a session: what each reader tells, in the order of their scripts, and how the
/// search ends.
#[derive(Drop)]
pub struct Session {
    pub tales: Vec<ReaderTale>,
    pub end: SearchEnd,
}

/// Whether a reader is asked to stop the search.
fn is_to_stop(script: &[Ask]) -> bool
    ensures { result ≡ list_any is_stop script.now }
{
    for ask in script {
        if matches!(ask, Ask::Stop) {
            return true;
        }
    }
    false
}

/// Whether some reader is.
fn asks_stop(scripts: &[Vec<Ask>]) -> bool
    ensures { result ≡ asks_stop (map (λ v. v.items) scripts.now) }
{
    for script in scripts {
        if is_to_stop(script.as_slice()) {
            return true;
        }
    }
    false
}

/// The end of a search at this desk, whose reports are marked so, to go on or not, which lists what
/// these readers saw at last. An `Err` is out of memory.
fn end_of(
    alloc: Global,
    problem: &Arc<Problem>,
    limits: Limits,
    desk: Desk,
    marks: &[Mark],
    tales: &[ReaderTale],
    go_on: bool,
) -> Result<SearchEnd, Memory>
    requires { Each (λ tale. AreSolutions (arc_value problem.now) tale.last.items) tales.now }
    ensures end { IfOk result (IsEndOf (arc_value problem.now) limits) }
    ensures stopped { IfOk result (λ e. WasStopped e → go_on ≡ false) }
    ensures listed { IfOk result (λ e. Each
        (λ tale. AreAmong limits.solids (end_solids e) tale.last.items) tales.now) }
{
    let told = told_choices(alloc, limits.solids as usize, tales)?;
    let handed = Handed::told(told);
    match end_search(
        alloc,
        problem,
        limits,
        desk,
        marks,
        handed,
        go_on,
        &mut NoPages,
    ) {
        Ok(end) => Ok(end),
        Err(_) => Err(Memory),
    }
}

/// The search of a problem within limits by so many workers, who pass the gate at their points, and
/// beside it a reader for each script, that does what this asks; then what each reader tells, and
/// the end of the search, which lists what they were told. Where nobody asks to stop it has ended.
/// It may wait. An `Err` is out of memory.
pub fn run_session<R: Threads + Wait + Sync, G: Gate>(
    rt: &R,
    alloc: Global,
    problem: Arc<Problem>,
    limits: Limits,
    workers: u32,
    gate: &G,
    scripts: &[Vec<Ask>],
) -> Result<Session, Memory>
    requires workers { (1 ≤ workers) × (workers ≤ 64) }
    requires scripts { (1 ≤ length scripts.now) × (length scripts.now ≤ 16) }
    ensures { IfOk result
        (IsSession (arc_value problem) limits (map (λ v. v.items) scripts.now)) }
{
    let count = scripts.len() as u32;
    let Opened {
        path,
        seats,
        monitor,
        readers,
        goes_on,
    } = open_at(rt, alloc, &problem, limits, workers, count, true)?;
    let seats = if goes_on { seats } else { Vec::new(alloc) };
    let readers = readers_of(alloc, &problem, readers)?;
    let tales = {
        let shop = Workshop {
            problem: &problem,
            limits,
            monitor: &monitor,
            gate,
            workers,
        };
        tell_together(rt, alloc, &shop, path, seats, scripts, readers)?
    };
    let (desk, marks) = monitor.into_desk();
    let go_on = !asks_stop(scripts);
    let end = end_of(
        alloc,
        &problem,
        limits,
        desk,
        &marks,
        tales.as_slice(),
        go_on,
    )?;
    Ok(Session { tales, end })
}
