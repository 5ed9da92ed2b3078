//! Searches within limits that the words give.

use crate::runs::{Runtime, run_words};
use std::test::Fail;
use test_files::{Row, drawing_file, lines_hold, row_of};

/// A row a run, by the strokes in each view, the words, with `|` behind each, and then the status
/// and the first line, and how many solids are told, where that is given: of a search that is cut
/// at nodes it depends on how the search goes.
const RUNS: &str = "\
rect S 0 0 3 3, rect D 1 1 2 2; solve|--nodes|3| -> 0 whole 1 nodes 3 blocks 2; 1
rect S 0 0 3 3, rect D 1 1 2 2; solve|--nodes=2| -> 3 cut nodes 2;
rect S 0 0 3 3, rect D 1 1 2 2; solve|--solids=1|--nodes|0003| -> 0 whole 1 nodes 3 blocks 2; 1
lattice 2 2; solve|--solids|35| -> 0 whole 35 nodes 109 blocks 9; 35
lattice 2 2; solve|--nodes|109|--solids=34| -> 4 cut solids 34; 34
lattice 2 2; solve|--solids=65536|--nodes=4000000| -> 0 whole 35 nodes 109 blocks 9; 35
rect S 0 0 3 3, rect D 1 1 2 2; solve|--nodes=2|--workers|3| -> 3 cut nodes 2;
lattice 2 2; solve|--workers=3|--solids|34| -> 4 cut solids 34; 34
lattice 2 2; solve|--workers=3|--nodes|108| -> 3 cut nodes 108;";

/// How many solids a text tells.
fn solid_count(text: &str) -> u32 {
    let mut count = 0u32;
    for line in text.lines() {
        if line.starts_with("solid ") {
            count = count.saturating_add(1);
        }
    }
    count
}

/// Whether a row's run writes what the row has.
fn is_told<R: Runtime>(rt: &R, row: Row<'_>) -> Result<bool, Fail> {
    let [strokes, words, ..] = row.parts;
    let wrote = run_words(rt, words, drawing_file(rt.alloc(), [strokes; 3])?)?;
    let (head, rest) = wrote.as_str().split_once('\n').unwrap_or(("", ""));
    let told = format!(in rt.alloc(); "{head}; {}", solid_count(rest))?;
    let is_open = row.wanted.ends_with(';') && told.starts_with(row.wanted);
    Ok(is_open || told.as_str() == row.wanted)
}

#[test]
fn limits_are_those_that_are_asked_for(rt: HostRuntime) -> Result<(), Fail> {
    lines_hold(RUNS, |line| is_told(&rt, row_of(line)))
}

/// A lattice of voids with 4,096 blocks.
const LATTICE: [&str; 3] = ["lattice 15 21", "lattice 15 13", "lattice 13 21"];

#[test]
fn as_many_blocks_as_may_be_are_searched(rt: HostRuntime) -> Result<(), Fail> {
    let file = drawing_file(rt.alloc(), LATTICE)?;
    let wrote = run_words(&rt, "solve|--nodes|1|", file)?;
    assert_eq!(rt; wrote.as_str(), "3 cut nodes 1\n");
    Ok(())
}
