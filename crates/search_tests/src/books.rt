//! The book of a search: its pages while it grows, and readers in threads. They show too how a
//! caller proves that it publishes solutions alone, each once.

mod author;
mod pages;
mod problems;
mod threads;

ghost use Rattle.std.specs.Prelude.{◌≤◌, IfOk};
ghost use Rattle.std.specs.Arc.{arc_value};
ghost use Rattle.solid_model.specs.Limits.{most_solid_limit};
ghost use Rattle.solid_model.specs.Solutions.{AreSolutions};

use search_tree::solve_alone;
use solid_model::{Choice, Limits, Memory, Problem, compare};
use std::alloc::Global;
use std::cmp::Ordering;
use std::sync::Arc;

/// Sixteen voids: two along x and y, and four upwards. More than 600 solids have this drawing.
const SIXTEEN_VOIDS: [&str; 3] = ["lattice 2 4", "lattice 2 2", "lattice 2 4"];

/// How many solids are searched for at most: two full batches of 256, and 88.
const THREE_BATCHES: u32 = 600;

/// The first solids of a problem, at most so many.
pub fn solved(alloc: Global, problem: &Arc<Problem>, solids: u32) -> Result<Vec<Choice>, Memory>
    requires { (1 ≤ solids) × (solids ≤ most_solid_limit) }
    ensures { IfOk result (λ solids. AreSolutions (arc_value problem.now) solids.items) }
{
    problem.known();
    let limits = Limits {
        nodes: 4_000_000,
        solids,
    };
    Ok(solve_alone(alloc, problem, limits)?.solids)
}

/// Whether two choices are the same.
fn is_same(a: &Choice, b: &Choice) -> bool {
    if a.len() != b.len() {
        return false;
    }
    match compare(a, b) {
        Ordering::Equal => true,
        _ => false,
    }
}

/// Whether these are the solids of a list from a place on.
fn are_at(list: &[Choice], from: usize, these: &[Choice]) -> bool {
    for (place, solid) in these.iter().enumerate() {
        match list.get(from.saturating_add(place)) {
            Some(same) if is_same(same, solid) => {}
            _ => return false,
        }
    }
    true
}
