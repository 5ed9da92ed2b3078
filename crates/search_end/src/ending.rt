//! The end of a search, at which several may have worked, and which goes on or was stopped.
//!
//! The caller compares the desk's problem and limits with its own, makes the events that are
//! missing, if it is to go on, by a way of its own, hands out what was found and not yet handed
//! out, and lists what was handed out in the stated order. A worker that did nothing, or that
//! couldn't be started, costs time and no answer.

ghost use Rattle.std.specs.Prelude.{◌≡◌, ◌++◌, ◌-◌, [], false, List, Option, None, length, take, IsTrue, IfOk, IsPermutation, MatchResult};
ghost use Rattle.std.specs.Arc.{arc_value};
ghost use Rattle.solid_model.specs.Forcing.{is_live};
ghost use Rattle.solid_model.specs.SearchEnds.{EndsSearch};
ghost use Rattle.search_end.specs.Answers.{IsAnswer, IsAnswerList, new_ones};
ghost use Rattle.search_end.specs.Handed.{AreFewSolutions, IsHandedOut};
ghost use Rattle.search_end.specs.Stopped.{IsEndOf, ListsAll, ListsFound, WasStopped, end_found, end_solids};
ghost use Rattle.page_calls.specs.Pages.{Call, CountsFaults, HasPaged, HasAllPaged};

use crate::beginning::begin;
use crate::desk_search::go_on;
use crate::handed::Handed;
use crate::left::{hand_rest, left_over};
use crate::turns::{Mark, in_order};
use page_calls::{PageOut, RunFault};
use search_core::Desk;
use search_tree::BlockPath;
use solid_model::{Choice, Ended, Limits, Memory, Problem};
use std::alloc::Global;
use std::sync::Arc;

/// How a search has ended, or that it was stopped before it had.
#[derive(Drop)]
pub enum SearchEnd {
    /// It has ended, at this desk.
    Ended { ended: Ended, desk: Desk },
    /// It was stopped: its desk has no end. The solids that are listed.
    Stopped { desk: Desk, solids: Vec<Choice> },
}

/// Whether a desk is of this problem and within these limits.
fn is_of(desk: &Desk, problem: &Problem, limits: Limits) -> bool
    ensures { IsTrue result → (desk.now.problem ≡ problem.now) × (desk.now.limits ≡ limits) }
{
    let own = desk.limits();
    desk.problem().same(problem) && own.nodes == limits.nodes && own.solids == limits.solids
}

/// This desk, if it is of this problem and within these limits; else a new one that is. An `Err` is
/// out of memory.
fn own_desk(
    alloc: Global,
    problem: &Arc<Problem>,
    limits: Limits,
    desk: Desk,
) -> Result<Desk, Memory>
    ensures problem { IfOk result (λ own. own.problem ≡ arc_value problem.now) }
    ensures limits { IfOk result (λ own. own.limits ≡ limits) }
{
    if is_of(&desk, problem, limits) {
        Ok(desk)
    } else {
        begin(alloc, problem, limits)
    }
}

/// The desk at which a search ends: this one, or a new one where it is of another search. Where it
/// is to go on it has ended: the events that are missing are made, by a way down the tree of their
/// own. An `Err` is out of memory.
fn last_desk(
    alloc: Global,
    problem: &Arc<Problem>,
    limits: Limits,
    desk: Desk,
    goes_on: bool,
) -> Result<Desk, Memory>
    ensures problem { IfOk result (λ last. last.problem ≡ arc_value problem.now) }
    ensures limits { IfOk result (λ last. last.limits ≡ limits) }
    ensures going { IfOk result (λ last. last.end ≡ None → goes_on ≡ false) }
{
    let desk = own_desk(alloc, problem, limits, desk)?;
    if !goes_on || desk.end().is_some() {
        return Ok(desk);
    }
    let mut path = BlockPath::new(alloc, problem)?;
    let (ended, _) = go_on(alloc, &mut path, problem, desk)?;
    Ok(ended)
}

/// What a desk has found besides what was handed out, as far as the limit of solids has room. An
/// `Err` is out of memory.
fn rest_of(
    alloc: Global,
    problem: &Problem,
    limits: Limits,
    desk: &Desk,
    handed: &Handed,
) -> Result<Vec<Choice>, Memory>
    requires problem { desk.now.problem ≡ problem.now }
    requires limits { desk.now.limits ≡ limits }
    requires handed { AreFewSolutions problem.now limits.solids handed.now.choices }
    ensures is { IfOk result (λ left. left.items ≡ take
        (limits.solids - length handed.now.choices) (new_ones handed.now.choices desk.now.found)) }
    ensures list { IfOk result (λ left. IsAnswerList problem.now limits desk.now.found
        (handed.now.choices ++ left.items)) }
    ensures solutions { IfOk result (λ left. AreFewSolutions problem.now limits.solids
        (handed.now.choices ++ left.items)) }
    ensures all { IfOk result (λ left. handed.now.choices ≡ []
        → handed.now.choices ++ left.items ≡ desk.now.found) }
{
    problem.known();
    let room = limits.solids as usize - handed.choices().len();
    let left = left_over(alloc, handed.choices(), desk.found(), room)?;
    Ok(left)
}

/// The end of a search at this desk, where these are listed, which were found by reports that are
/// marked so: in the stated order. An `Err` is out of memory.
fn end_at(
    alloc: Global,
    problem: &Problem,
    limits: Limits,
    desk: Desk,
    list: Vec<Choice>,
    marks: &[Mark],
) -> Result<SearchEnd, Memory>
    requires problem { desk.problem ≡ problem.now }
    requires limits { desk.limits ≡ limits }
    requires list { IsAnswerList problem.now limits desk.found list.items }
    ensures end { IfOk result (IsEndOf problem.now limits) }
    ensures stopped { IfOk result (λ e. WasStopped e → desk.end ≡ None) }
    ensures moved { IfOk result (λ e. IsPermutation list.items (end_solids e)) }
    ensures found { IfOk result (λ e. end_found e ≡ desk.found) }
{
    problem.known();
    let opened = desk.opened();
    let solids = in_order(alloc, list, marks)?;
    match desk.end() {
        Some(kind) => {
            let ended = Ended {
                kind,
                opened,
                solids,
            };
            Ok(SearchEnd::Ended { ended, desk })
        }
        None => Ok(SearchEnd::Stopped { desk, solids }),
    }
}

/// Ends a search by its desk, or by a new one where that is of another problem or within other
/// limits. Where it is to go on, the events that are missing are made, by a way of its own. What was
/// found and not yet handed out is handed out, as far as the limit of solids has room, and what was
/// handed out is listed. The marks of the reports are a hint for its sort. An `Err` is that of a
/// page, or out of memory.
pub fn end_search<P: PageOut>(
    alloc: Global,
    problem: &Arc<Problem>,
    limits: Limits,
    desk: Desk,
    marks: &[Mark],
    handed: Handed,
    go_on: bool,
    pages: &mut P,
) -> Result<SearchEnd, RunFault>
    requires handed { AreFewSolutions (arc_value problem.now) limits.solids handed.choices }
    ensures end { IfOk result (IsEndOf (arc_value problem.now) limits) }
    ensures stopped { IfOk result (λ e. WasStopped e → go_on ≡ false) }
    ensures listed { IfOk result (ListsAll limits handed.choices) }
    ensures found { IfOk result (λ e. handed.choices ≡ [] → ListsFound e) }
    ensures paged { (before : Option (List Call))
        → IsHandedOut before (P.calls pages.old) handed
        → MatchResult result
        (λ e. HasAllPaged (arc_value problem.now) before (P.calls pages.new) (end_solids e))
        (λ _. HasPaged (arc_value problem.now) limits.solids before (P.calls pages.new)) }
    ensures faults { CountsFaults (P.faults pages.old) (P.faults pages.new) result
        RunFault.PageFault }
{
    let mut handed = handed;
    let Ok(desk) = last_desk(alloc, problem, limits, desk, go_on) else {
        return Err(RunFault::Memory);
    };
    let Ok(left) = rest_of(alloc, problem, limits, &desk, &handed) else {
        return Err(RunFault::Memory);
    };
    match hand_rest(alloc, pages, &mut handed, left) {
        Ok(()) => {
            let listed = handed.into_choices();
            match end_at(alloc, problem, limits, desk, listed, marks) {
                Ok(end) => Ok(end),
                Err(_) => Err(RunFault::Memory),
            }
        }
        Err(fault) => Err(fault),
    }
}

/// The same, of a search that goes on: so it has ended.
pub fn finish<P: PageOut>(
    alloc: Global,
    problem: &Arc<Problem>,
    limits: Limits,
    desk: Desk,
    marks: &[Mark],
    handed: Handed,
    pages: &mut P,
) -> Result<(Ended, Desk), RunFault>
    requires handed { AreFewSolutions (arc_value problem.now) limits.solids handed.choices }
    ensures answer { IfOk result (λ r. EndsSearch (is_live (arc_value problem.now))
        (arc_value problem.now).blocks.count limits r.0) }
    ensures desk { IfOk result (λ r. IsAnswer (arc_value problem.now) limits r.0 r.1) }
    ensures paged { (before : Option (List Call))
        → IsHandedOut before (P.calls pages.old) handed
        → MatchResult result
        (λ r. HasAllPaged (arc_value problem.now) before (P.calls pages.new) r.0.solids)
        (λ _. HasPaged (arc_value problem.now) limits.solids before (P.calls pages.new)) }
    ensures faults { CountsFaults (P.faults pages.old) (P.faults pages.new) result
        RunFault.PageFault }
{
    match end_search(alloc, problem, limits, desk, marks, handed, true, pages) {
        Ok(SearchEnd::Ended { ended, desk }) => Ok((ended, desk)),
        Ok(SearchEnd::Stopped { .. }) => unreachable!(),
        Err(fault) => Err(fault),
    }
}
