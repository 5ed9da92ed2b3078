//! One answer, whatever the number of workers.

use super::{searched, workers_of};
use crate::searches::{limits, problem};
use search_run::NoPages;
use solid_model::{EndKind, Ended};
use std::alloc::{AllocError, Global};
use std::sync::Wait;
use std::test::*;
use std::thread::Threads;
use test_files::{Row, lines_hold, row_of};
use tv_base::OpenGate;

/// A row a drawing of a cube's views, by the strokes of each; a number of workers; the limits of
/// nodes and of solids; and how the search ends: its kind; of a whole one how many live prefixes it
/// opened, and of one that isn't cut at nodes how many solids it found.
const ENDS: &str = "\
rect S 0 0 1 1; 1; 9999; 99 -> whole 2 1
rect S 0 0 1 1; 64; 9999; 99 -> whole 2 1
rect S 0 0 3 3, rect D 1 1 2 2; 3; 9999; 99 -> whole 3 1
lattice 2 2; 1; 9999; 99 -> whole 109 35
lattice 2 2; 2; 9999; 99 -> whole 109 35
lattice 2 2; 8; 109; 35 -> whole 109 35
lattice 2 2; 3; 108; 35 -> nodes
lattice 2 2; 3; 109; 34 -> solids 34";

/// How a search ended, as a row has it.
fn told_end(alloc: Global, ended: &Ended) -> Result<String, AllocError> {
    let found = ended.solids.len();
    match ended.kind {
        EndKind::Whole => format!(in alloc; "whole {} {found}", ended.opened),
        EndKind::CutNodes => String::from_str(alloc, "nodes"),
        EndKind::CutSolids => format!(in alloc; "solids {found}"),
    }
}

/// Whether the search of a row's drawing by its workers ends as the row has it.
fn ends_so<R: Threads + Wait + Sync>(rt: &R, alloc: Global, row: Row<'_>) -> Result<bool, Fail> {
    let [view, workers, nodes, solids, _] = row.parts;
    let problem = problem(alloc, [view; 3])?;
    let limits = limits(nodes, solids)?;
    let workers = workers_of(workers);
    match searched(rt, alloc, problem, limits, workers, &OpenGate, &mut NoPages) {
        Ok(ended) => Ok(told_end(alloc, &ended)?.as_str() == row.wanted),
        Err(_) => Ok(false),
    }
}

#[test]
fn workers_end_so(rt: HostRuntime) -> Result<(), Fail> {
    lines_hold(ENDS, |line| ends_so(&rt, rt.alloc(), row_of(line)))
}
