//! Readers of the growing list, who are asked behind a drawing.

use crate::rows::is_text;
use crate::runs::{Runtime, run_words};
use std::alloc::{AllocError, Global};
use std::test::Fail;
use test_files::{Row, drawing_file, lines_hold, row_of};

/// A row a run of `ask`: the strokes in front, from the top and from the side, the words, and what
/// stands behind the drawing, with ` / ` for the end of a line; and then what is written. A reader
/// who waits for more solids than there are returns when the search ends.
const ASKED: &str = "\
rect S 0 0 1 1; rect S 0 0 1 1; rect S 0 0 1 1; ask|; readers 1 / go -> unit cube
rect S 0 0 1 1; rect S 0 0 1 1; rect S 0 0 1 1; ask|; readers 16 / go / readers 17 -> unit cube
lattice 2 2; lattice 2 2; lattice 2 2; ask|--workers|2|; readers 2 / 0 wait 1 / 0 page 0 10 / \
    1 wait 35 / 1 page 0 256 / 0 page 0 256 / go -> \
    0 reader 0 page 0 solids .. |reader 0 page 0 solids .. |reader 1 page 0 solids 35 ends 1| .. \
    |whole 35 nodes 109 blocks 9|solid 1 choice 110010110 .. 
rect S 0 0 1 1; rect S 0 0 1 1; rect S 0 0 1 1; ask|--workers|3|; readers 2 / 1 wait 65536 / \
    0 wait 1 / 1 page 0 256 / 0 page 5 1 / go -> 0 reader 0 page 5 solids 0 ends 1|\
    reader 1 page 0 solids 1 ends 1|choice 1|whole 1 nodes 2 blocks 1|solid 1 .. 
rect S 0 0 3 3, rect D 1 1 2 2; rect S 0 0 3 3, rect D 1 1 2 2; rect S 0 0 3 3, rect D 1 1 2 2; \
    ask|--nodes|2|; readers 1 / go -> 3 cut nodes 2 .. 
rect S 0 0 1 1; rect S 0 0 1 1; rect S 0 0 1 1; ask|; readers 1 / 0 stop -> \
    11 ask A3 NoGo line 3
rect S 0 0 1 1; rect S 0 0 1 1; rect S 0 0 1 1; ask|; readers 1 / 1 stop / go -> \
    11 ask A1 BadLine line 2
rect S 0 0 1 1; rect S 0 0 1 1; rect S 0 0 1 1; ask|; readers 17 / go -> 11 ask A1 BadLine line 1
rect S 0 0 1 1; rect S 0 0 1 1; rect S 0 0 1 1; ask|; readers 1 / 0 page 0 257 / go -> \
    11 ask A1 BadLine line 2
rect S 0 0 1 1; rect S 0 0 1 1; line S 3 3 3 3; ask|; readers 1 / 1 stop / go -> \
    1 fault F14 EmptyView view SIDE
rect S 0 0 1 1; rect S 0 0 1 1; line S 3 3 3 3; ask|--two-views|; readers 1 / go -> unit cube";

/// What is told with ` / ` for the end of each line.
fn lines_of(alloc: Global, told: &str) -> Result<String, AllocError> {
    let mut lines = told.replace(alloc, " / ", "\n")?;
    lines.push_str("\n")?;
    Ok(lines)
}

/// The file of a row's drawing, and the askings behind it.
fn file_in(alloc: Global, row: Row<'_>) -> Result<String, AllocError> {
    let [_, _, _, _, askings] = row.parts;
    let mut file = drawing_file(alloc, row.views())?;
    file.push_str(lines_of(alloc, askings)?.as_str())?;
    Ok(file)
}

/// Whether a run writes what the row wants.
fn is_answered<R: Runtime>(rt: &R, row: Row<'_>) -> Result<bool, Fail> {
    let [_, _, _, words, _] = row.parts;
    let wrote = run_words(rt, words, file_in(rt.alloc(), row)?)?;
    Ok(is_text(rt.alloc(), wrote.as_str(), row.wanted)?)
}

#[test]
fn readers_are_answered(rt: HostRuntime) -> Result<(), Fail> {
    lines_hold(ASKED, |line| is_answered(&rt, row_of(line)))
}
