//! Problems that are read with what stands beside or behind their drawings: that memory is found.

use file_problem::{problem_and_rest, problem_of_six};
use further_views::Further;
use solid_model::View;
use std::alloc::{AllocError, Global};
use std::test::Fail;
use test_files::{Row, file_bytes, file_of, rows_tell};

/// A row the strokes of a file; and how many blocks its problem has, and which further views are
/// asked for, in the order of their first lines. A view that shows nothing isn't.
const SIX: &str = "\
cube -> 1
cube, LEFT, rect S 0 0 1 1 -> 1 left
cube, BOTTOM, rect S 5 5 6 6, LEFT, rect S 0 0 1 1, REAR, rect S 0 0 2 2 -> 1 bottom left rear
cube, REAR, line S 3 3 3 3, BOTTOM, rect D 0 0 1 1 -> 1 bottom";

/// A row the strokes of a file, and what stands behind it, `|` for the end of a line; and how many
/// blocks its problem has, and what is left.
const RESTS: &str = "\
cube;  -> 1, 
cube; log 1 blocks 1 -> 1, log 1 blocks 1
cube; |0|EOF| -> 1, |0|EOF|
FRONT, lattice 2 2, TOP, lattice 2 2, SIDE, lattice 2 2; x|| -> 9, x||";

/// The file of a row's strokes.
fn file_in(alloc: Global, strokes: &str) -> Result<String, AllocError> {
    let steps = format!(in alloc; "0 SECTION, 2 ENTITIES, {strokes}, 0 ENDSEC, 0 EOF")?;
    file_of(alloc, steps.as_str())
}

/// Adds the names of the further views that are asked for.
fn push_views(told: &mut String, further: &Further) -> Result<(), AllocError> {
    for asked in further.as_slice() {
        told.push_str(match asked.layer.view {
            View::Front => " rear",
            View::Top => " bottom",
            View::Side => " left",
        })?;
    }
    Ok(())
}

/// What is read of a row's file, as the row has it.
fn told_six(alloc: Global, row: Row<'_>) -> Result<String, Fail> {
    let file = file_bytes(file_in(alloc, row.told)?)?;
    let (problem, further) = problem_of_six(alloc, file, 0)?;
    let mut told = format!(in alloc; "{}", problem.blocks().count())?;
    push_views(&mut told, &further)?;
    Ok(told)
}

/// What is read of a file and what is left, as a row has it.
fn told_rest(alloc: Global, text: String) -> Result<String, Fail> {
    let (problem, rest) = problem_and_rest(alloc, file_bytes(text)?)?;
    let rest = std::str::from_utf8(rest.as_slice()).unwrap_or("no text");
    let rest = rest.replace(alloc, "\n", "|")?;
    Ok(format!(in alloc; "{}, {rest}", problem.blocks().count())?)
}

/// The same of a row.
fn told_rest_in(alloc: Global, row: Row<'_>) -> Result<String, Fail> {
    let [strokes, rest, ..] = row.parts;
    let mut text = file_in(alloc, strokes)?;
    text.push_str(rest.replace(alloc, "|", "\n")?.as_str())?;
    told_rest(alloc, text)
}

#[test]
fn problems_have_their_further_views(rt: HostRuntime) -> Result<(), Fail> {
    rows_tell(SIX, |row| told_six(rt.alloc(), row))
}

#[test]
fn problems_leave_what_stands_behind_them(rt: HostRuntime) -> Result<(), Fail> {
    rows_tell(RESTS, |row| told_rest_in(rt.alloc(), row))
}
