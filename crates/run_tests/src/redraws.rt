//! Drawings that are written: redrawn, and made.

ghost use Rattle.std.specs.Prelude.{◌≤◌, length, IfOk};
ghost use Rattle.solid_model.specs.Limits.{most_file_bytes};

use crate::runs::{Runtime, run_failing, run_words, solve};
use drawing_maker::make;
use recon_run::problem_of;
use std::alloc::{AllocError, Global};
use std::test::Fail;
use test_files::{Row, drawing_file, file_bytes, lines_hold, row_of, rows_tell};

/// A row a run: the strokes in front, from the top and from the side, and the words; and then what
/// is written, in one piece: after `0 drawing ` the strokes of a file in front, from the top and
/// from the side.
const REDRAWS: &str = "\
rect S 100 200 101 201; line S 101 350 100 350, rect D 100 350 101 351, rect S 100 350 101 351; \
    rect S 250 200 251 201; redraw|1| -> \
    0 drawing rect S 0 0 1 1; rect S 0 11 1 12; rect S 11 0 12 1
rect S 0 0 0.5 0.5; rect S 0 0 0.5 0.5; rect S 0 0 0.5 0.5; redraw|1|--decimals=1| -> \
    0 drawing rect S 0.0 0.0 0.5 0.5; rect S 0.0 1.5 0.5 2.0; rect S 1.5 0.0 2.0 0.5
rect S 0 0 1 1; rect S 0 0 1 1; rect S 0 0 1 1; redraw|2| -> 8 none 2 of 1
rect S 0 0 1 1; rect S 0 0 1 1; rect S 0 0 1 1; stl|2| -> 8 none 2 of 1
rect S 0 0 3 3, rect D 1 1 2 2; rect S 0 0 3 3, rect D 1 1 2 2; rect S 0 0 3 3, rect D 1 1 2 2; \
    redraw|--nodes|2|1| -> 3 cut nodes 2
rect S 0 0 3 3, rect D 1 1 2 2; rect S 0 0 3 3, rect D 1 1 2 2; rect S 0 0 3 3, rect D 1 1 2 2; \
    stl|--nodes|2|1| -> 3 cut nodes 2
lattice 2 2; lattice 2 2; lattice 2 2; redraw|1|--solids=34| -> 4 cut solids 34
lattice 2 2; lattice 2 2; lattice 2 2; redraw|36| -> 8 none 36 of 35
lattice 2 2; lattice 2 2; lattice 2 2; redraw|--workers=3|36| -> 8 none 36 of 35
rect S 0 0 2 1; rect S 0 0 1 1; rect S 0 0 1 1; redraw|1| -> 8 none 1 of 0
rect S 0 0 1 1; rect S 0 0 1 1; line S 3 3 3 3; redraw|1| -> 1 fault F14 EmptyView view SIDE
rect S 0 0 1 1; rect S 5 5 6 6; line S 3 3 3 3; redraw|1|--two-views| -> \
    0 drawing rect S 0 0 1 1; rect S 0 11 1 12; rect S 11 0 12 1
line S 3 3 3 3; rect S 0 0 3 2; rect S 0 0 2 1; redraw|--two-views|1| -> \
    0 drawing rect S 0 0 3 1; rect S 0 11 3 13; rect S 13 0 15 1
line S 0 0 6 0, line S 4 0 10 0, line D 2 0 9 0, line S 0 10 10 10, line S 0 0 0 10, \
    line S 10 0 10 10; rect S 0 0 10 10; rect S 0 0 10 10; redraw|1| -> \
    0 drawing rect S 0 0 10 10; rect S 0 20 10 30; rect S 20 0 30 10
rect S 0 0 3 1, line D 1 0 1 1, line D 2 0 2 1; rect S 0 0 3 3, rect S 1 1 2 2; \
    rect S 0 0 3 1, line D 1 0 1 1, line D 2 0 2 1; redraw|1| -> \
    0 drawing line S 0 0 3 0, line S 0 1 3 1, line S 0 0 0 1, line D 1 0 1 1, line D 2 0 2 1, \
    line S 3 0 3 1; line S 0 11 3 11, line S 1 12 2 12, line S 1 13 2 13, line S 0 14 3 14, \
    line S 0 11 0 14, line S 1 12 1 13, line S 2 12 2 13, line S 3 11 3 14; \
    line S 13 0 16 0, line S 13 1 16 1, line S 13 0 13 1, line D 14 0 14 1, line D 15 0 15 1, \
    line S 16 0 16 1";

/// What is wanted: a status with a line, or with a file.
fn wanted_text(alloc: Global, wanted: &str) -> Result<String, AllocError> {
    match wanted.strip_prefix("0 drawing ") {
        Some(strokes) => {
            let file = drawing_file(alloc, row_of(strokes).views())?;
            format!(in alloc; "0 {file}")
        }
        None => format!(in alloc; "{wanted}\n"),
    }
}

/// What a row's run writes.
fn told_run<R: Runtime>(rt: &R, row: Row<'_>) -> Result<String, AllocError> {
    let [_, _, _, words, _] = row.parts;
    run_failing(rt, words, drawing_file(rt.alloc(), row.views())?, 2)
}

/// Whether that is what the row has.
fn is_redrawn<R: Runtime>(rt: &R, row: Row<'_>) -> Result<bool, Fail> {
    let wanted = wanted_text(rt.alloc(), row.wanted)?;
    let wrote = told_run(rt, row)?;
    Ok(wrote.as_str() == wanted.as_str())
}

#[test]
fn drawings_are_redrawn(rt: HostRuntime) -> Result<(), Fail> {
    lines_hold(REDRAWS, |line| is_redrawn(&rt, row_of(line)))
}

/// A slab with a block on its corner, unequal along all three axes.
const STEP: [&str; 3] = [
    "line S 0 0 5 0, line D 0 3 2 3, line S 2 3 5 3, line S 0 4 2 4, line S 0 0 0 4, line S 2 3 2 4, \
    line S 5 0 5 3",
    "rect S 0 0 5 5, line S 0 1 2 1, line S 2 0 2 1",
    "rect S 0 0 5 3, line S 0 4 1 4, line S 0 3 0 4, line S 1 3 1 4",
];

/// The text of a run that ends with status 0.
fn written<R: Runtime>(rt: &R, words: &str, file: String) -> Result<String, Fail> {
    let wrote = run_words(rt, words, file)?;
    let text = wrote.as_str().strip_prefix("0 ").ok_or("a drawing")?;
    Ok(String::from_str(rt.alloc(), text)?)
}

/// The drawing of a solid that a drawing shows, redrawn by these words.
fn redrawn<R: Runtime>(rt: &R, words: &str, views: [&str; 3]) -> Result<String, Fail> {
    written(rt, words, drawing_file(rt.alloc(), views)?)
}

/// What `solve` writes for a drawing.
fn solved<R: Runtime>(rt: &R, views: [&str; 3]) -> Result<String, Fail> {
    let file = drawing_file(rt.alloc(), views)?;
    Ok(solve(rt, file)?)
}

/// What it writes for the first solid of a drawing, redrawn.
fn solved_again<R: Runtime>(rt: &R, views: [&str; 3]) -> Result<String, Fail> {
    let file = redrawn(rt, "redraw|1|", views)?;
    Ok(solve(rt, file)?)
}

/// Whether the redrawn file of a drawing shows the same solids.
fn shows_the_same<R: Runtime>(rt: &R, views: [&str; 3]) -> Result<bool, Fail> {
    let again = solved_again(rt, views)?;
    let solids = solved(rt, views)?;
    Ok(again.as_str() == solids.as_str() && solids.starts_with("0 whole 1 "))
}

#[test]
fn a_redrawn_file_shows_the_same_solids(rt: HostRuntime) -> Result<(), Fail> {
    assert!(rt; shows_the_same(&rt, STEP)?);
    Ok(())
}

#[test]
fn solids_of_one_drawing_are_redrawn_alike(rt: HostRuntime) -> Result<(), Fail> {
    let first = redrawn(&rt, "redraw|1|", ["lattice 2 2"; 3])?;
    let last = redrawn(&rt, "redraw|35|", ["lattice 2 2"; 3])?;
    assert_eq!(rt; first.as_str(), last.as_str());
    Ok(())
}

/// The file that these words make.
fn made_file<R: Runtime>(rt: &R, words: &str) -> Result<Vec<u8>, Fail>
    ensures { IfOk result (λ file. length file.items ≤ most_file_bytes) }
{
    let file = written(rt, words, String::new(rt.alloc()))?;
    file_bytes(file)
}

/// How many blocks the drawing that these words make has.
fn made_blocks<R: Runtime>(rt: &R, words: &str) -> Result<u16, Fail> {
    let file = made_file(rt, words)?;
    Ok(problem_of(rt.alloc(), file, 0)?.blocks().count())
}

/// The drawing of 7 has two cubes with eight voids, four with one, and eight full ones: 2 times 9,
/// 4 times 2 and 8 blocks.
#[test]
fn a_made_drawing_has_its_blocks(rt: HostRuntime) -> Result<(), Fail> {
    assert_eq!(rt; made_blocks(&rt, "make|7|")?, 34);
    Ok(())
}

/// A row a number: where the last piece of its made solid ends; how many cells its grid has; and
/// how many of them are full: 117 of each cube with eight voids, 26 of each hollow cube, and 1 of
/// each unit cube.
const MADE: &str = "\
3 -> 174 117649 421
11 -> 171 68921 255";

/// How many of the cells are full.
fn full_count(cells: &[bool]) -> usize {
    cells.iter().filter(|cell| **cell).count()
}

/// What is made of a row's number, as the row has it.
fn told_made(alloc: Global, row: Row<'_>) -> Result<String, Fail> {
    let (grid, cells) = make(alloc, row.told.parse::<u64>()?)?;
    let end = grid.zs().last().ok_or("no coordinate")?;
    Ok(format!(in alloc; "{end} {} {}", cells.len(), full_count(&cells))?)
}

#[test]
fn numbers_make_grids_of_so_many_cells(rt: HostRuntime) -> Result<(), Fail> {
    rows_tell(MADE, |row| told_made(rt.alloc(), row))
}

/// A row a trial: its words, and the status and the line that it writes, with the figures that
/// another program found.
const TRIALS: &str = "\
trial|11| -> 0 trial 11 pieces 14 blocks 27 solids 35 nodes 739 volume 108471
trial|11|--workers=1| -> 0 trial 11 pieces 14 blocks 27 solids 35 nodes 739 volume 108471
trial|--workers|2|11| -> 0 trial 11 pieces 14 blocks 27 solids 35 nodes 739 volume 108471
trial|11|--workers=8| -> 0 trial 11 pieces 14 blocks 27 solids 35 nodes 739 volume 108471
trial|7| -> 0 trial 7 pieces 14 blocks 34 solids 1225 nodes 22299 volume 24245
trial|7|--workers=1| -> 0 trial 7 pieces 14 blocks 34 solids 1225 nodes 22299 volume 24245
trial|7|--workers=2| -> 0 trial 7 pieces 14 blocks 34 solids 1225 nodes 22299 volume 24245
trial|7|--workers|8| -> 0 trial 7 pieces 14 blocks 34 solids 1225 nodes 22299 volume 24245";

/// Whether a row's trial writes its line.
fn tries_so<R: Runtime>(rt: &R, row: Row<'_>) -> Result<bool, Fail> {
    let wrote = run_words(rt, row.told, String::new(rt.alloc()))?;
    Ok(wrote.as_str().strip_suffix("\n") == Some(row.wanted))
}

#[test]
fn trials_find_their_figures(rt: HostRuntime) -> Result<(), Fail> {
    lines_hold(TRIALS, |line| tries_so(&rt, row_of(line)))
}
