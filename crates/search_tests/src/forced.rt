//! What the lines of small drawings force.

ghost use Rattle.propagate.specs.Doubting.{AreDoubted};

use crate::demands::{problem_in, push_line};
use line_demands::Partial;
use propagate::{Closed, DoubtedLines, Forcing, close, step, step_doubted};
use solid_model::{LineId, Problem};
use std::alloc::Global;
use std::fmt::Write;
use std::test::Fail;
use test_files::{Row, rows_tell};

/// A row a drawing, by its strokes in front, from the top and from the side, and which of its first
/// blocks are decided: a `1` for a full one, a `0` for an empty one. Wanted are the steps that its
/// lines force, each block with its value and the line, and how they end; and how closing ends,
/// with what is then known of each block where it is stable. The drawings show one cell, the
/// quartered cube, that cube with half of a stroke hidden from above, two cubes along an edge, and
/// six that no solid shows. In each of the last four a part of two borders is hidden, and the one
/// of the lesser position is named.
const FORCED: &str = "\
rect S 0 0 1 1; rect S 0 0 1 1; rect S 0 0 1 1 -> 0+ FRONT false 0 0, stable; stable 1
rect S 0 0 2 2, line S 0 1 2 1, line S 1 0 1 2; rect S 0 0 2 2, line S 0 1 2 1, line S 1 0 1 2; \
    rect S 0 0 2 2, line S 0 1 2 1, line S 1 0 1 2 -> stable; stable ........
rect S 0 0 2 2, line S 0 1 2 1, line S 1 0 1 2; rect S 0 0 2 2, line S 0 1 2 1, line S 1 0 1 2; \
    rect S 0 0 2 2, line S 0 1 2 1, line S 1 0 1 2; 1 -> 4- FRONT false 1 0, 6+ FRONT false 2 0, \
    1- FRONT true 1 0, 3+ FRONT false 0 1, 5+ TOP false 0 1, 7- TOP false 1 1, stable; stable 10.10110
rect S 0 0 2 2, line S 0 1 2 1, line S 1 0 1 2; rect S 0 0 2 2, line S 0 1 2 1, line S 1 0 1 2; \
    rect S 0 0 2 2, line S 0 1 2 1, line S 1 0 1 2; 0 -> 2+ FRONT false 0 0, 4+ TOP false 0 0, \
    5- FRONT true 1 1, 7+ FRONT false 2 1, 1+ TOP false 0 1, 6- TOP false 1 0, 3- SIDE false 1 1, \
    stable; stable 01101001
rect S 0 0 2 2, line S 0 1 2 1, line S 1 0 1 2; rect S 0 0 2 2, line S 0 1 2 1, line S 1 0 1 2; \
    rect S 0 0 2 2, line S 0 1 2 1, line S 1 0 1 2; 11 -> conflict FRONT true 1 0; conflict
rect S 0 0 2 2, line S 0 1 2 1, line S 1 0 1 2; \
    rect S 0 0 2 2, line S 0 1 2 1, line S 1 0 1 1, line D 1 1 1 2; \
    rect S 0 0 2 2, line S 0 1 2 1, line S 1 0 1 2 -> 6+ TOP true 1 1, 4- TOP false 1 0, \
    0+ TOP false 0 0, 1- FRONT true 1 0, 3+ FRONT false 0 1, 5+ TOP false 0 1, 7- TOP false 1 1, \
    conflict TOP true 1 1; conflict
rect S 0 0 2 1, line S 1 0 1 1; rect S 0 0 1 1, rect S 1 1 2 2; rect S 0 0 2 1, line S 1 0 1 1 -> \
    0+ FRONT false 0 0, 1+ FRONT false 0 1, stable; stable 11
rect S 0 0 2 1, line D 1 0 1 1; rect S 0 0 2 2, line S 1 0 1 2; rect S 0 0 2 1, line S 1 0 1 1 -> \
    0+ FRONT true 1 0, 1+ FRONT true 1 0, conflict FRONT true 1 0; conflict
rect S 0 0 2 1, line D 1 0 1 1; \
    line S 1 0 2 0, line S 0 1 1 1, line S 0 2 2 2, line S 0 1 0 2, line S 1 0 1 3, line S 2 0 2 3, \
    line S 1 3 2 3; rect S 0 0 3 1, line D 1 0 1 1, line D 2 0 2 1 -> \
    1+ FRONT false 0 0, 0+ FRONT true 1 0, conflict FRONT true 1 0; conflict
line S 0 0 2 0, line S 0 2 2 2, line S 0 0 0 1, line D 0 1 0 2, line D 2 0 2 1, line S 2 1 2 2; \
    rect S 0 0 2 2; rect S 0 0 2 2 -> conflict FRONT true 0 1; conflict
rect S 0 0 2 2; line S 0 0 2 0, line S 0 2 2 2, line S 0 0 0 1, line D 0 1 0 2, line D 2 0 2 1, \
    line S 2 1 2 2; rect S 0 0 2 2 -> conflict TOP true 0 1; conflict
rect S 0 0 2 2; rect S 0 0 2 2; line S 0 0 2 0, line S 0 2 2 2, line S 0 0 0 1, line D 0 1 0 2, \
    line D 2 0 2 1, line S 2 1 2 2 -> conflict SIDE true 0 1; conflict
rect S 0 0 2 2; rect S 0 0 2 2; line S 0 0 0 2, line S 2 0 2 2, line S 0 0 1 0, line D 1 0 2 0, \
    line D 0 2 1 2, line S 1 2 2 2 -> conflict SIDE false 0 1; conflict";

/// Decides the first blocks.
fn decide_first(partial: &mut Partial<'_>, values: &str) -> Result<(), Fail> {
    for value in values.bytes() {
        let block = partial.decided();
        if block >= partial.problem().blocks().count() || partial.value(block).is_some() {
            return Err(Fail::new("no such block"));
        }
        partial.decide(block, value == b'1');
    }
    Ok(())
}

/// Adds a block with its value and the line that forces it.
fn push_forced(text: &mut String, block: u16, full: bool, line: LineId) -> Result<(), Fail> {
    write!(text, "{block}{} ", if full { '+' } else { '-' })?;
    push_line(text, line, ", ")
}

/// Adds a line that can't be met.
fn push_conflict(text: &mut String, line: LineId) -> Result<(), Fail> {
    text.push_str("conflict ")?;
    push_line(text, line, "")
}

/// Adds one step.
fn push_step(text: &mut String, forcing: Forcing) -> Result<(), Fail> {
    match forcing {
        Forcing::Forced { block, full, line } => push_forced(text, block, full, line),
        Forcing::Stable => Ok(text.push_str("stable")?),
        Forcing::Conflict { line } => push_conflict(text, line),
    }
}

/// Whether a step is the last one.
fn is_last(forcing: Forcing) -> bool {
    match forcing {
        Forcing::Forced { .. } => false,
        _ => true,
    }
}

/// What is known of each block.
fn push_known(text: &mut String, partial: &Partial<'_>) -> Result<(), Fail> {
    for block in 0..partial.problem().blocks().count() {
        text.push(match partial.value(block) {
            None => '.',
            Some(true) => '1',
            Some(false) => '0',
        })?;
    }
    Ok(())
}

/// A step as `step` takes it and, by another state with the same decisions, as `step_doubted` does.
fn step_twice(
    partial: &mut Partial<'_>,
    other: &mut Partial<'_>,
    doubted: &mut DoubtedLines,
) -> Result<Forcing, Fail>
    requires { AreDoubted other.old.problem other.old.decisions doubted.old }
    ensures { AreDoubted other.new.problem other.new.decisions doubted.new }
{
    let forcing = step(partial);
    if step_doubted(other, doubted) != forcing {
        return Err(Fail::new("doubted lines force something else"));
    }
    Ok(forcing)
}

/// All steps.
fn push_steps(
    text: &mut String,
    partial: &mut Partial<'_>,
    other: &mut Partial<'_>,
) -> Result<(), Fail> {
    let mut doubted = DoubtedLines::all(*text.allocator(), other.line_count())?;
    for _step in 0..10000 {
        let forcing = step_twice(partial, other, &mut doubted)?;
        push_step(text, forcing)?;
        if is_last(forcing) {
            return Ok(());
        }
    }
    Err(Fail::new("no end"))
}

/// How closing ends.
fn push_closed(text: &mut String, partial: &mut Partial<'_>) -> Result<(), Fail> {
    match close(partial) {
        Closed::Stable => {
            text.push_str("; stable ")?;
            push_known(text, partial)
        }
        Closed::Conflict { line: _ } => Ok(text.push_str("; conflict")?),
    }
}

/// What is known of a problem where the first blocks are decided.
pub fn begun<'a>(alloc: Global, problem: &'a Problem, values: &str) -> Result<Partial<'a>, Fail> {
    let mut partial = Partial::new(alloc, problem)?;
    decide_first(&mut partial, values)?;
    Ok(partial)
}

/// The steps that lines force, whether all are asked or those alone that are doubted.
fn told_steps(alloc: Global, problem: &Problem, values: &str) -> Result<String, Fail> {
    let mut partial = begun(alloc, problem, values)?;
    let mut other = begun(alloc, problem, values)?;
    let mut text = String::new(alloc);
    push_steps(&mut text, &mut partial, &mut other)?;
    Ok(text)
}

/// Adds how closing ends.
fn push_closing(text: &mut String, problem: &Problem, values: &str) -> Result<(), Fail> {
    let mut partial = begun(*text.allocator(), problem, values)?;
    push_closed(text, &mut partial)
}

/// What the lines of a problem force, as a row has it.
fn told_forced(alloc: Global, problem: &Problem, values: &str) -> Result<String, Fail> {
    let mut text = told_steps(alloc, problem, values)?;
    push_closing(&mut text, problem, values)?;
    Ok(text)
}

/// What the lines of a row's drawing force, as the row has it.
fn forced_in(alloc: Global, row: Row<'_>) -> Result<String, Fail> {
    let [_, _, _, values, _] = row.parts;
    let problem = problem_in(alloc, row)?;
    told_forced(alloc, &problem, values)
}

#[test]
fn lines_force_so(rt: HostRuntime) -> Result<(), Fail> {
    rows_tell(FORCED, |row| forced_in(rt.alloc(), row))
}
