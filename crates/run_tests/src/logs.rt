//! Completeness logs that are written, and checked.

use crate::runs::{Runtime, run_words};
use std::alloc::{AllocError, Global};
use std::test::Fail;
use test_files::{Row, drawing_file, lines_hold, row_of};

/// A row a run of `prove`: the strokes in front, from the top and from the side, and the words; and
/// then what is written, with ` / ` for the end of a line.
const PROOFS: &str = "\
rect S 0 0 1 1; rect S 0 0 1 1; rect S 0 0 1 1; prove| -> \
    0 log 1 blocks 1 / force 0 1 front l 0 0 / solid / end 1
rect S 0 0 3 3, rect D 1 1 2 2; rect S 0 0 3 3, rect D 1 1 2 2; rect S 0 0 3 3, rect D 1 1 2 2; \
    prove|--workers=3| -> \
    0 log 1 blocks 2 / split 0 / force 1 0 front l 1 1 / solid / fail front l 0 0 / end 1
rect S 0 0 3 3, rect D 1 1 2 2; rect S 0 0 3 3, rect D 1 1 2 2; rect S 0 0 3 3, rect D 1 1 2 2; \
    prove|--nodes|2| -> 3 cut nodes 2
lattice 2 2; lattice 2 2; lattice 2 2; prove|--solids=34| -> 4 cut solids 34
rect S 0 0 2 2; rect S 0 0 2 2; rect S 0 0 2 2, line S 0 1 1 1; prove| -> \
    0 log 1 blocks 1 / force 0 1 side l 0 0 / fail side l 1 0 / end 0
rect S 0 0 2 1; rect S 0 0 1 1; rect S 0 0 1 1; prove| -> 0 log 1 blocks 0 / fail front l 0 0 / end 0
rect S 0 0 1 1; rect S 0 0 1 1; line S 3 3 3 3; prove| -> 1 fault F14 EmptyView view SIDE
rect S 0 0 1 1; rect S 0 0 1 1; line S 3 3 3 3; prove|--two-views| -> \
    0 log 1 blocks 1 / force 0 1 front l 0 0 / solid / end 1
line S 3 3 3 3; rect S 0 0 1 1; rect S 0 0 1 1; prove|--two-views| -> \
    0 log 1 blocks 1 / force 0 1 top l 0 0 / solid / end 1";

/// A row a run of `check`: the strokes, the log, and further words; and then what is written. In the
/// last row a bar of 5 by 6 cells shows all strokes in front and from the top, once its nearest
/// cells are full by turns, and one in each row and column that begins with an empty one. The other
/// 17 may be full or empty: 131,072 solids, of which the log lists one more than it may, each in a
/// line, after 14 other lines and 65,552 more splits.
const CHECKS: &str = "\
rect S 0 0 1 1; rect S 0 0 1 1; rect S 0 0 1 1; \
    log 1 blocks 1 / force 0 1 front l 0 0 / solid / end 1 -> 0 yes 1 / choice 1
rect S 0 0 3 3, rect D 1 1 2 2; rect S 0 0 3 3, rect D 1 1 2 2; rect S 0 0 3 3, rect D 1 1 2 2; \
    log 1 blocks 2 / split 0 / force 1 0 front l 1 1 / solid / fail front l 0 0 / end 1 -> \
    0 yes 1 / choice 10
rect S 0 0 3 3, rect D 1 1 2 2; rect S 0 0 3 3, rect D 1 1 2 2; rect S 0 0 3 3, rect D 1 1 2 2; \
    log 1 blocks 2 / split 0 / force 1 1 front l 1 1 / solid / fail front l 0 0 / end 1 -> \
    9 log G3 Unproved line 3
rect S 0 0 3 3, rect D 1 1 2 2; rect S 0 0 3 3, rect D 1 1 2 2; rect S 0 0 3 3, rect D 1 1 2 2; \
    log 1 blocks 2 / split 0 / force 1 0 front l 1 1 / solid / end 1 -> 9 log G1 BadLine line 5
rect S 0 0 3 3, rect D 1 1 2 2; rect S 0 0 3 3, rect D 1 1 2 2; rect S 0 0 3 3, rect D 1 1 2 2; \
    log 1 blocks 2 / split 0 / force 1 0 front l 1 1 / solid -> 9 log G7 Short line 5
rect S 0 0 3 3, rect D 1 1 2 2; rect S 0 0 3 3, rect D 1 1 2 2; rect S 0 0 3 3, rect D 1 1 2 2; \
    log 1 blocks 2 / split 0 / force 1 0 front l 1 1 / solid / fail front l 0 0 / end 2 -> \
    9 log G6 BadCount line 6
rect S 0 0 3 3, rect D 1 1 2 2; rect S 0 0 3 3, rect D 1 1 2 2; rect S 0 0 3 3, rect D 1 1 2 2; \
    log 1 blocks 2 / split 0 / force 1 0 front l 1 1 / solid / fail front l 0 0 / end 1 / end 1 -> \
    9 log G8 Long line 7
rect S 0 0 1 1; rect S 0 0 1 1; rect S 0 0 1 1; \
    log 1 blocks 1 / split 1 / solid / end 1 -> 9 log G2 BadBlock line 2
rect S 0 0 1 1; rect S 0 0 1 1; rect S 0 0 1 1; \
    log 1 blocks 1 / solid / end 1 -> 9 log G4 Unsolid line 2
rect S 0 0 1 1; rect S 0 0 1 1; line S 3 3 3 3; \
    log 1 blocks 1 -> 1 fault F14 EmptyView view SIDE
rect S 0 0 1 1; rect S 0 0 1 1; line S 3 3 3 3; \
    log 1 blocks 1 / force 0 1 front l 0 0 / solid / end 1; --two-views| -> 0 yes 1 / choice 1
rect S 0 0 1 1; rect S 0 0 1 1; line S 3 3 3 3; \
    log 1 blocks 1 / force 0 1 side l 0 0 / solid / end 1; --two-views| -> 9 log G3 Unproved line 2
rect S 0 0 1 1; rect S 0 0 1 1; line S 3 3 3 3; \
    log 1 blocks 1 / force 0 1 top l 0 0 / solid / end 1; --two-views| -> 0 yes 1 / choice 1
rect S 0 0 1 1; line S 3 3 3 3; rect S 0 0 1 1; \
    log 1 blocks 1 / force 0 1 side l 0 0 / solid / end 1; --two-views| -> 0 yes 1 / choice 1
rect S 0 0 2 2; rect S 0 0 2 2; rect S 0 0 2 2, line S 0 1 1 1; \
    log 1 blocks 1 / force 0 1 side l 0 0 / fail side l 1 0 / end 0 -> 0 yes 0
rect S 0 0 1 6, line S 0 1 1 1, line S 0 2 1 2, line S 0 3 1 3, line S 0 4 1 4, line S 0 5 1 5; \
    rect S 0 0 1 5, line S 0 1 1 1, line S 0 2 1 2, line S 0 3 1 3, line S 0 4 1 4; \
    line S 3 3 3 3; log 1 blocks 30 / split 5 / split 15 / split 25 / split 27 / split 29 / \
    force 0 0 front l 1 0 / force 10 0 front l 2 0 / force 20 0 front l 4 0 / \
    force 26 0 top l 1 0 / force 28 0 top l 3 0 / split 1 / split 13 / split 21 / \
    65537 solids by 2 3 4 6 7 8 9 11 12 14 16 17 18 19 22 23 24; --two-views| -> \
    9 log G5 TooMany line 131103";

/// Adds a line.
fn push_line(lines: &mut String, line: &str) -> Result<(), AllocError> {
    lines.push_str(line)?;
    lines.push_str("\n")
}

/// Adds a line that splits each of some blocks, but for so many of the first ones.
fn push_splits(lines: &mut String, blocks: &str, decided: usize) -> Result<(), AllocError> {
    for block in blocks.split(' ').skip(decided) {
        lines.push_str("split ")?;
        push_line(lines, block)?;
    }
    Ok(())
}

/// Adds the lines of a tree that splits some blocks one after another, up to so many solids. Before
/// each solid those blocks are split anew behind the last one that was full.
fn push_solids(lines: &mut String, blocks: &str, count: u32) -> Result<(), AllocError> {
    let all = blocks.split(' ').count();
    for solid in 0..count {
        let anew = solid.trailing_zeros() as usize;
        push_splits(lines, blocks, all.saturating_sub(anew))?;
        push_line(lines, "solid")?;
    }
    Ok(())
}

/// Adds a line, or those of so many solids.
fn push_step(lines: &mut String, step: &str) -> Result<(), AllocError> {
    match step.split_once(" solids by ") {
        Some((count, blocks)) => push_solids(lines, blocks, count.parse::<u32>().unwrap_or(0)),
        None => push_line(lines, step),
    }
}

/// The lines that are told with ` / ` between them.
fn lines_of(alloc: Global, told: &str) -> Result<String, AllocError> {
    let mut lines = String::new(alloc);
    for step in told.split(" / ") {
        push_step(&mut lines, step)?;
    }
    Ok(lines)
}

/// Whether that is what the row has.
fn is_proved<R: Runtime>(rt: &R, row: Row<'_>) -> Result<bool, Fail> {
    let [_, _, _, words, _] = row.parts;
    let wrote = run_words(rt, words, drawing_file(rt.alloc(), row.views())?)?;
    let wanted = lines_of(rt.alloc(), row.wanted)?;
    Ok(wrote.as_str() == wanted.as_str())
}

#[test]
fn logs_are_written(rt: HostRuntime) -> Result<(), Fail> {
    lines_hold(PROOFS, |line| is_proved(&rt, row_of(line)))
}

/// What `check` with further words writes for a drawing with a log behind it.
fn checked<R: Runtime>(
    rt: &R,
    words: &str,
    views: [&str; 3],
    log: &str,
) -> Result<String, AllocError> {
    let mut file = drawing_file(rt.alloc(), views)?;
    file.push_str(log)?;
    let words = format!(in rt.alloc(); "check|{words}")?;
    run_words(rt, words.as_str(), file)
}

/// Whether that is what the row has.
fn is_checked<R: Runtime>(rt: &R, row: Row<'_>) -> Result<bool, Fail> {
    let [_, _, _, told, words] = row.parts;
    let log = lines_of(rt.alloc(), told)?;
    let wrote = checked(rt, words, row.views(), log.as_str())?;
    let wanted = lines_of(rt.alloc(), row.wanted)?;
    Ok(wrote.as_str() == wanted.as_str())
}

#[test]
fn logs_are_checked(rt: HostRuntime) -> Result<(), Fail> {
    lines_hold(CHECKS, |line| is_checked(&rt, row_of(line)))
}

/// A file with the log behind it that `prove` writes for it.
pub fn log_behind<R: Runtime>(rt: &R, file: String) -> Result<String, Fail> {
    let copy = String::from_str(rt.alloc(), file.as_str())?;
    let proof = run_words(rt, "prove|", copy)?;
    let log = proof.as_str().strip_prefix("0 ").ok_or("a log")?;
    let mut file = file;
    file.push_str(log)?;
    Ok(file)
}

/// What `check` writes for a drawing and the log that `prove` writes for it.
fn proved_and_checked<R: Runtime>(rt: &R, views: [&str; 3]) -> Result<String, Fail> {
    let file = log_behind(rt, drawing_file(rt.alloc(), views)?)?;
    Ok(run_words(rt, "check|", file)?)
}

#[test]
fn the_log_of_eight_voids_shows_all_solids(rt: HostRuntime) -> Result<(), Fail> {
    let told = proved_and_checked(&rt, ["lattice 2 2"; 3])?;
    assert!(rt; told.starts_with("0 yes 35\nchoice "), "{told}");
    Ok(())
}
