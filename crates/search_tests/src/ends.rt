//! Ends of searches whose desks have found solids in another order than the stated one, and after
//! which a solid had been handed out.

ghost use Rattle.std.specs.Prelude.{IfOk};
ghost use Rattle.std.specs.Arc.{arc_value};
ghost use Rattle.search_end.specs.Handed.{AreFewSolutions};

use crate::books::solved;
use crate::searches::{limits, problem, push_reports};
use search_core::Desk;
use search_end::{Handed, begin, finish};
use search_run::NoPages;
use solid_model::{Choice, Limits, Problem, compare};
use std::alloc::Global;
use std::cmp::Ordering;
use std::sync::Arc;
use std::test::Fail;
use test_files::{Row, rows_tell};

/// A row a limit of solids, and how many of the eight voids' are listed, and in which order, where
/// the desk is told of the solids of a later piece first, and the first solid of all had been
/// handed out.
const ENDS: &str = "\
1 -> 1 in order
2 -> 2 in order
34 -> 34 in order
35 -> 35 in order";

/// The reports to the desk: of the empty piece, of its rest, and of the later piece of the rest of
/// that.
const REPORTS: &str = "voids - 1; voids 1 1; voids 10 64";

/// The first solid, handed out.
fn handed(alloc: Global, own: &Arc<Problem>, limits: Limits) -> Result<Handed, Fail>
    ensures { IfOk result
        (λ handed. AreFewSolutions (arc_value own.now) limits.solids handed.choices) }
{
    let first = solved(alloc, own, 1)?;
    if first.len() != 1 || limits.solids < 1 {
        return Err(Fail::new("one solid"));
    }
    let mut handed = Handed::new(alloc);
    match handed.hand_out(&mut NoPages, first) {
        Ok(()) => Ok(handed),
        Err(_) => Err(Fail::new("out of memory")),
    }
}

/// A desk that is told of the later piece first.
fn desk_of(alloc: Global, own: &Arc<Problem>, limits: Limits) -> Result<Desk, Fail> {
    let mut desk = begin(alloc, own, limits)?;
    let mut said = String::new(alloc);
    push_reports(&mut said, &mut desk, own, "voids", REPORTS)?;
    Ok(desk)
}

/// Whether the first choice comes before the second one in the stated order.
fn comes_before(first: &Choice, second: &Choice) -> bool {
    if first.len() != second.len() {
        return false;
    }
    match compare(first, second) {
        Ordering::Less => true,
        _ => false,
    }
}

/// Whether choices stand in the stated order, none twice.
fn are_in_order(choices: &[Choice]) -> bool {
    let later = choices.iter().skip(1);
    choices.iter().zip(later).all(|(a, b)| comes_before(a, b))
}

/// What is listed at the end of the search at that desk.
fn listed(alloc: Global, own: &Arc<Problem>, limits: Limits) -> Result<Vec<Choice>, Fail> {
    let desk = desk_of(alloc, own, limits)?;
    let handed = handed(alloc, own, limits)?;
    match finish(alloc, own, limits, desk, &[], handed, &mut NoPages) {
        Ok((ended, _desk)) => Ok(ended.solids),
        Err(_) => Err(Fail::new("no answer")),
    }
}

/// How many are listed, and in which order, as a row has it.
fn told_end(alloc: Global, row: Row<'_>) -> Result<String, Fail> {
    let own = problem(alloc, ["lattice 2 2"; 3])?;
    let listed = listed(alloc, &own, limits("4000000", row.told)?)?;
    let order = if are_in_order(listed.as_slice()) {
        "in order"
    } else {
        "in another order"
    };
    Ok(format!(in alloc; "{} {order}", listed.len())?)
}

#[test]
fn searches_list_so(rt: HostRuntime) -> Result<(), Fail> {
    rows_tell(ENDS, |row| told_end(rt.alloc(), row))
}
