//! Limits, with three workers.

use crate::drawings::DRAWINGS;
use crate::rows::wrong_row;
use crate::runs::{Runtime, run_words, solve};
use crate::texts::SIZES;
use std::test::Fail;
use test_files::{Row, drawing_file, lines_hold, row_of};

/// A row a run: the strokes in each view, a limit, and then the status and the first line, and how
/// many solids are told, where that is given.
const LIMITS: &str = "\
lattice 2 2; --solids|35 -> 0 whole 35 nodes 109 blocks 9; 35
lattice 2 2; --solids|34 -> 4 cut solids 34; 34
rect S 0 0 3 3, rect D 1 1 2 2; --nodes|3 -> 0 whole 1 nodes 3 blocks 2; 1
rect S 0 0 3 3, rect D 1 1 2 2; --nodes|2 -> 3 cut nodes 2;
rect S 0 0 3 3, rect D 1 1 2 2; --nodes|1 -> 3 cut nodes 1;";

/// How many solids a text tells, if they are numbered from 1 on, and each is one of another text,
/// behind those of the solids before it.
fn count_of_some(text: &str, whole: &str) -> Option<u32> {
    let mut others = whole.lines();
    let mut count = 0u32;
    for line in text.lines() {
        if let Some(solid) = line.strip_prefix("solid ") {
            count = count.saturating_add(1);
            let (number, told) = solid.split_once(' ').unwrap_or((solid, ""));
            if number.parse() != Ok(count) || !others.any(|other| other.ends_with(told)) {
                return None;
            }
        }
    }
    Some(count)
}

/// Whether a row's run writes what the row has: some of the solids that are found without a limit.
fn is_told<R: Runtime>(rt: &R, row: Row<'_>) -> Result<bool, Fail> {
    let [strokes, limit, ..] = row.parts;
    let (head, solids) = row.wanted.split_once(';').unwrap_or((row.wanted, ""));
    let words = format!(in rt.alloc(); "solve|--workers|3|{limit}|")?;
    let wrote = run_words(rt, words.as_str(), drawing_file(rt.alloc(), [strokes; 3])?)?;
    let whole = solve(rt, drawing_file(rt.alloc(), [strokes; 3])?)?;
    let begun = wrote.as_str().split_once('\n').unwrap_or(("", "")).0;
    let count = count_of_some(wrote.as_str(), whole.as_str());
    let is_open = solids.is_empty() && count.is_some();
    Ok(begun == head && (is_open || count == solids.trim().parse().ok()))
}

#[test]
fn three_workers_keep_the_limits(rt: HostRuntime) -> Result<(), Fail> {
    lines_hold(LIMITS, |line| is_told(&rt, row_of(line)))
}

#[test]
fn three_workers_write_the_same_of_drawings(rt: HostRuntime) -> Result<(), Fail> {
    let row = wrong_row(&rt, "solve|--workers=3|", DRAWINGS)?;
    assert!(rt; row.is_empty(), "{row}");
    Ok(())
}

#[test]
fn three_workers_write_the_same_of_long_files(rt: HostRuntime) -> Result<(), Fail> {
    let row = wrong_row(&rt, "solve|--workers=3|", SIZES)?;
    assert!(rt; row.is_empty(), "{row}");
    Ok(())
}
