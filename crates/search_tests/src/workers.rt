//! Searches by workers: that they work at one time, that pages come meanwhile, and that there is
//! one answer for every number of workers.

ghost use Rattle.std.specs.Prelude.{◌≤◌};

mod answers;
mod gates;
mod pages;
mod stops;

use search_run::{PageOut, RunFault, run_search};
use solid_model::{Ended, Limits, Problem};
use std::alloc::Global;
use std::sync::{Arc, Wait};
use std::thread::Threads;
use tv_base::Gate;

/// Two cubes of 5 on the diagonal, each with eight voids: 18 blocks, 1,225 solids, 3,889 nodes.
const TWICE_EIGHT_VOIDS: &str = "\
lattice 2 2, rect S 6 6 11 11, rect D 7 7 8 8, rect D 9 7 10 8, rect D 7 9 8 10, rect D 9 9 10 10";

/// A number of workers, from 1 to 64.
fn workers_of(told: &str) -> u32
    ensures some { 1 ≤ result }
    ensures few { result ≤ 64 }
{
    let workers: u32 = told.parse().unwrap_or(1);
    workers.clamp(1, 64)
}

/// How the search of a problem by so many workers ends, who pass the gate.
fn searched<R: Threads + Wait + Sync, G: Gate, P: PageOut>(
    rt: &R,
    alloc: Global,
    problem: Arc<Problem>,
    limits: Limits,
    workers: u32,
    gate: &G,
    pages: &mut P,
) -> Result<Ended, RunFault>
    requires some { 1 ≤ workers }
    requires few { workers ≤ 64 }
{
    match run_search(rt, alloc, problem, limits, workers, gate, pages) {
        Ok((ended, _desk)) => Ok(ended),
        Err(fault) => Err(fault),
    }
}
