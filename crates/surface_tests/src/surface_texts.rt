//! Texts of solids' triangles, and sinks that fail.

use crate::surfaces::{choice_of, problem_at};
use solid_model::Problem;
use std::alloc::Global;
use std::test::Fail;
use stl_out::write_stl;
use test_files::{Row, rows_tell};
use tv_base::{MemSink, SinkError};

/// A row a text: the strokes in front, from the top and from the side, and which blocks are full;
/// and then how many lines it has, and which are the first. They are a cube, a hollow cube, and two
/// cubes that touch along an edge.
const TEXTS: &str = "\
rect S 0 0 1 1; rect S 0 0 1 1; rect S 0 0 1 1; 1 -> 86 solid recon|\
    facet normal -1 0 0|outer loop|vertex 0 0 0|vertex 0 0 1|vertex 0 1 1|endloop|endfacet|\
    facet normal -1 0 0|outer loop|vertex 0 0 0|vertex 0 1 1|vertex 0 1 0|endloop|endfacet|
rect S 0 0 3 3, rect D 1 1 2 2; rect S 0 0 3 3, rect D 1 1 2 2; rect S 0 0 3 3, rect D 1 1 2 2; \
    10 -> 842 solid recon|\
    facet normal -1 0 0|outer loop|vertex 0 0 0|vertex 0 0 1|vertex 0 1 1|endloop|endfacet|
rect S 0 0 2 1, line S 1 0 1 1; rect S 0 0 1 1, rect S 1 1 2 2; rect S 0 0 2 1, line S 1 0 1 1; \
    11 -> 170 solid recon|";

/// How the text of a problem's solid, by its full blocks, is written to a sink.
fn written_of(
    alloc: Global,
    problem: &Problem,
    full: &str,
    sink: &mut MemSink,
) -> Result<&'static str, Fail> {
    let choice = choice_of(alloc, full)?;
    Ok(match write_stl(alloc, problem, &choice, sink) {
        Ok(()) => "written",
        Err(SinkError::Failed) => "failed",
        Err(SinkError::Memory) => "memory",
    })
}

/// The same of a row's solid.
fn written(alloc: Global, row: Row<'_>, sink: &mut MemSink) -> Result<&'static str, Fail> {
    let problem = problem_at(alloc, row.views())?;
    written_of(alloc, &problem, row.parts[3], sink)
}

/// How many lines a text has; and what it begins with, if that is this beginning and it ends as it
/// should, else the text.
fn told_lines(alloc: Global, text: &str, first: &str) -> Result<String, Fail> {
    let lines = text.lines().count();
    let begun = text.replace(alloc, "\n", "|")?;
    let is_right = begun.as_str().starts_with(first)
        && begun.as_str().ends_with("|endsolid recon|");
    Ok(format!(in alloc; "{lines} {}", if is_right { first } else { begun.as_str() })?)
}

/// How many lines the text of a row's solid has, and its beginning, as the row has them.
fn told_text(alloc: Global, row: Row<'_>) -> Result<String, Fail> {
    let mut sink = MemSink::new(Vec::new(alloc));
    written(alloc, row, &mut sink)?;
    let text = std::str::from_utf8(sink.bytes()).unwrap_or("no text");
    let (_, first) = row.wanted.split_once(' ').unwrap_or(("", ""));
    told_lines(alloc, text, first)
}

#[test]
fn texts_have_so_many_lines(rt: HostRuntime) -> Result<(), Fail> {
    rows_tell(TEXTS, |row| told_text(rt.alloc(), row))
}

/// A row a text, as above, which call of the sink fails, and after how many bytes: and then how
/// many bytes the sink has. The second solid's text has 84,105 bytes: 64,068 when its first piece
/// is full.
const FAILURES: &str = "\
rect S 0 0 1 1; rect S 0 0 1 1; rect S 0 0 1 1; 1; 1 -> failed 5
rect S 0 0 1 1; rect S 0 0 1 1; rect S 0 0 1 1; 1; 2 -> written 1065
lattice 4 4; lattice 4 4; lattice 4 4; \
    11111111111111111111111111111111111111111111111111111111111111111; 2 -> \
    failed 64073";

/// How a row's text is written where a call fails after 5 bytes, as the row has it.
fn told_failure(alloc: Global, row: Row<'_>) -> Result<String, Fail> {
    let [_, _, _, _, call] = row.parts;
    let call: u32 = call.parse().unwrap_or(0);
    let mut sink = MemSink::new(vec![in alloc; (call, 5usize)]?);
    let end = written(alloc, row, &mut sink)?;
    Ok(format!(in alloc; "{end} {}", sink.bytes().len())?)
}

#[test]
fn failing_sinks_have_what_came_before(rt: HostRuntime) -> Result<(), Fail> {
    rows_tell(FAILURES, |row| told_failure(rt.alloc(), row))
}
