//! What lines demand of blocks, for drawings that were worked out by hand.

use file_problem::problem_of;
use line_demands::Partial;
use solid_model::{LineId, Problem};
use std::alloc::Global;
use std::fmt::Write;
use std::test::Fail;
use test_files::{Row, drawing_file, file_bytes, layer_of, rows_tell};

/// A row a drawing, by its strokes in front, from the top and from the side; how many lines touch
/// each of its blocks; and the first line that can't be met where the first block is empty: its
/// view, whether it is upright, its position and its cell. The drawings show one cell; two on one
/// line of sight, with a gap between them; three of four, side by side in front; and a cube with
/// eight voids.
const DEMANDS: &str = "\
rect S 0 0 1 1; rect S 0 0 1 1; rect S 0 0 1 1 -> 12, FRONT false 0 0
rect S 0 0 1 1; rect S 0 0 1 1, rect S 0 2 1 3; rect S 0 0 1 1, rect S 2 0 3 1 -> \
    12 12, TOP false 0 0
line S 1 0 2 0, line S 0 1 1 1, line S 0 2 2 2, line S 0 1 0 2, line S 1 0 1 1, line S 2 0 2 2; \
    rect S 0 0 2 1, line D 1 0 1 1; rect S 0 0 1 2, line D 0 1 1 1 -> 24, FRONT false 0 1
lattice 2 2; lattice 2 2; lattice 2 2 -> 180 12 12 12 12 12 12 12 12, FRONT false 0 0";

/// The problem of a row's drawing.
pub fn problem_in(alloc: Global, row: Row<'_>) -> Result<Problem, Fail> {
    let file = file_bytes(drawing_file(alloc, row.views())?)?;
    Ok(problem_of(alloc, file, 0)?)
}

/// How many lines touch each block.
fn push_touching(text: &mut String, partial: &Partial<'_>) -> Result<(), Fail> {
    for block in 0..partial.problem().blocks().count() {
        let gap = if block == 0 { "" } else { " " };
        write!(text, "{gap}{}", partial.touching(block))?;
    }
    Ok(())
}

/// Adds a line, and what stands behind it.
pub fn push_line(text: &mut String, line: LineId, end: &str) -> Result<(), Fail> {
    let LineId {
        view,
        upright,
        at,
        cell,
    } = line;
    Ok(write!(text, "{} {upright} {at} {cell}{end}", layer_of(view))?)
}

/// Adds the first line that can't be met where the first block is empty.
fn push_broken(text: &mut String, partial: &mut Partial<'_>) -> Result<(), Fail> {
    if partial.problem().blocks().count() == 0 || partial.value(0).is_some() {
        return Err(Fail::new("no free block"));
    }
    partial.decide(0, false);
    let line = partial.broken_line().ok_or("no line")?;
    push_line(text, line, "")
}

/// Adds what lines demand of blocks of which nothing is known yet, as a row has it.
fn push_demands(text: &mut String, partial: &mut Partial<'_>) -> Result<(), Fail> {
    push_touching(text, partial)?;
    text.push_str(", ")?;
    push_broken(text, partial)
}

/// What a problem demands, as a row has it.
fn told_demands(alloc: Global, problem: &Problem) -> Result<String, Fail> {
    let mut partial = Partial::new(alloc, problem)?;
    let mut text = String::new(alloc);
    push_demands(&mut text, &mut partial)?;
    Ok(text)
}

/// What a row's drawing demands, as the row has it.
fn demands_in(alloc: Global, row: Row<'_>) -> Result<String, Fail> {
    let problem = problem_in(alloc, row)?;
    told_demands(alloc, &problem)
}

#[test]
fn lines_demand_so(rt: HostRuntime) -> Result<(), Fail> {
    rows_tell(DEMANDS, |row| demands_in(rt.alloc(), row))
}
