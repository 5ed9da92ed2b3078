//! Drawings of which one view is missing.

use crate::rows::{is_text, wrong_row};
use crate::runs::{Runtime, run_words};
use std::test::Fail;
use test_files::{Row, file_of, lines_hold, row_of};

/// Files that are read with two views. Figures and choices are those of another program, which
/// reads the definitions as they stand; of boxes up to 3 by 2 by 2 each set of cells was tried too.
pub const TWO_VIEWS: &str = "\
-- The unit cube by two of its views; and views that show nothing, of which the first is named.
= 0 SECTION, 2 ENTITIES, #1, 0 ENDSEC, 0 EOF
FRONT, rect S 0 0 1 1, TOP, rect S 0 0 1 1 -> unit cube
FRONT, rect S 0 0 1 1, SIDE, rect S 7 7 8 8, TOP, line S 3 3 3 3 -> unit cube
TOP, rect S 0 0 1 1, SIDE, rect S 0 5 1 6 -> unit cube
cube -> unit cube
FRONT, rect S 0 0 1 1 -> 1 fault F14 EmptyView view TOP
TOP, rect S 0 0 1 1 -> 1 fault F14 EmptyView view FRONT
SIDE, rect S 0 0 1 1 -> 1 fault F14 EmptyView view FRONT
FRONT, rect S 0 0 1 1, LEFT, rect S 0 0 1 1 -> 1 fault F14 EmptyView view TOP
FRONT, line S 3 3 3 3 -> 1 fault F14 EmptyView view FRONT
-- The quartered cube, without each of its views; and so with a view from the left.
= 0 SECTION, 2 ENTITIES, #1, rect S 0 0 2 2, line S 0 1 2 1, line S 1 0 1 2, \
    #2, rect S 0 0 2 2, line S 0 1 2 1, line S 1 0 1 2, #3, 0 ENDSEC, 0 EOF
TOP; SIDE; 999 none -> 0 whole 4 nodes 30 blocks 8|solid 1 choice 11101001 volume 5 .. |\
    solid 2 choice 10110110 volume 5 .. |solid 3 choice 10010110 volume 4 .. |\
    solid 4 choice 01101001 volume 4 .. 
FRONT; SIDE; 999 none -> 0 whole 4 nodes 25 blocks 8|solid 1 choice 10110110 volume 5 .. |\
    solid 2 choice 10010110 volume 4 .. |solid 3 choice 01101011 volume 5 .. |\
    solid 4 choice 01101001 volume 4 .. 
FRONT; TOP; 999 none -> 0 whole 4 nodes 28 blocks 8|solid 1 choice 10110110 volume 5 .. |\
    solid 2 choice 10010110 volume 4 .. |solid 3 choice 01111001 volume 5 .. |\
    solid 4 choice 01101001 volume 4 .. 
FRONT; TOP; LEFT, rect S 0 0 2 2, line D 0 1 1 1, line S 1 1 2 1, line D 1 0 1 1, line S 1 1 1 2 -> \
    0 whole 1 nodes 28 blocks 8|solid 1 choice 10110110 volume 5 .. 
-- A step, of which the side alone shows which half is high; without the front, and without the side.
= 0 SECTION, 2 ENTITIES, #1, #2, 0 ENDSEC, 0 EOF
TOP, rect S 0 0 3 2, line S 0 1 3 1; SIDE, line S 0 0 2 0, line S 0 1 1 1, line S 1 2 2 2, \
    line S 0 0 0 1, line S 1 1 1 2, line S 2 0 2 2 -> \
    0 whole 1 nodes 2 blocks 1|solid 1 choice 1 volume 9 faces 8| .. 
FRONT, rect S 0 0 3 2, line S 0 1 3 1; TOP, rect S 0 0 3 2, line S 0 1 3 1 -> \
    0 whole 3 nodes 12 blocks 4|solid 1 choice 1101 volume 9 .. |\
    solid 2 choice 1001 volume 6 .. |solid 3 choice 0110 volume 6 .. 
-- A bar with a cell behind its end and one above that, hidden edges among them; and the hollow cube.
FRONT, line S 0 0 3 0, line S 0 1 3 1, line S 0 2 1 2, line S 0 0 0 2, line D 1 0 1 1, \
    line S 1 1 1 2, line S 3 0 3 1; TOP, line S 0 0 3 0, line S 0 1 3 1, line S 0 2 1 2, \
    line S 0 0 0 2, line S 1 1 1 2, line S 3 0 3 1 -> \
    0 whole 1 nodes 4 blocks 3|solid 1 choice 111 volume 5 .. 
FRONT, line S 0 0 3 0, line S 0 1 3 1, line S 0 2 1 2, line S 0 0 0 2, line D 1 0 1 1, \
    line S 1 1 1 2, line S 3 0 3 1; SIDE, line S 0 0 2 0, line S 0 1 1 1, line S 1 2 2 2, \
    line S 0 0 0 1, line S 1 0 1 2, line S 2 0 2 2 -> \
    0 whole 1 nodes 4 blocks 3|solid 1 choice 111 volume 5 .. 
TOP, line S 0 0 3 0, line S 0 1 3 1, line S 0 2 1 2, line S 0 0 0 2, line S 1 1 1 2, \
    line S 3 0 3 1; SIDE, line S 0 0 2 0, line S 0 1 1 1, line S 1 2 2 2, line S 0 0 0 1, \
    line S 1 0 1 2, line S 2 0 2 2 -> 0 whole 1 nodes 3 blocks 2|solid 1 choice 11 volume 5 .. 
FRONT, rect S 0 0 3 3, rect D 1 1 2 2; SIDE, rect S 0 0 3 3, rect D 1 1 2 2 -> \
    0 whole 1 nodes 3 blocks 2|solid 1 choice 10 volume 26 faces 12| .. 
-- Heights that only the side shows are too fine.
FRONT, rect S 0 0 1 65; SIDE, lattice 1 32 -> 1 fault F17 TooFine axis z count 66";

/// A row the words of a run, and what it writes for the quartered cube without its side view.
const RUNS: &str = "\
solve| -> 1 fault F14 EmptyView view SIDE
solve|--two-views|--pages| -> 0 page 1 solids .. whole 4 nodes 28 blocks 8|solid 1 .. 
solve|--workers|3|--two-views| -> 0 whole 4 nodes 28 blocks 8|solid 1 .. 
solve|--two-views|--solids|3| -> 4 cut solids 3|solid 1 .. 
solve|--two-views|--nodes=27| -> 3 cut nodes 27 .. 
solve|--decimals|1|--two-views| -> 0 whole 4 nodes 28 blocks 8|solid 1 choice 10110110 volume 5000 .. 
redraw|3|--two-views| -> 0 0|SECTION .. |SIDE| .. 
redraw|--two-views|5| -> 8 none 5 of 4
redraw|1| -> 1 fault F14 EmptyView view SIDE
stl|4|--two-views| -> 0 solid recon .. 
stl|4| -> 1 fault F14 EmptyView view SIDE
prove|--two-views| -> 0 log 1 blocks 8 .. end 4
prove| -> 1 fault F14 EmptyView view SIDE";

/// The quartered cube without its side view.
const QUARTERED: &str =
    "0 SECTION, 2 ENTITIES, FRONT, rect S 0 0 2 2, line S 0 1 2 1, line S 1 0 1 2, \
    TOP, rect S 0 0 2 2, line S 0 1 2 1, line S 1 0 1 2, 0 ENDSEC, 0 EOF";

#[test]
fn files_of_two_views_give_their_texts(rt: HostRuntime) -> Result<(), Fail> {
    let row = wrong_row(&rt, "solve|--two-views|", TWO_VIEWS)?;
    assert!(rt; row.is_empty(), "{row}");
    Ok(())
}

/// Whether a run with the row's words writes what it wants.
fn is_told<R: Runtime>(rt: &R, row: Row<'_>) -> Result<bool, Fail> {
    let wrote = run_words(rt, row.told, file_of(rt.alloc(), QUARTERED)?)?;
    Ok(is_text(rt.alloc(), wrote.as_str(), row.wanted)?)
}

#[test]
fn two_views_go_with_every_option(rt: HostRuntime) -> Result<(), Fail> {
    lines_hold(RUNS, |line| is_told(&rt, row_of(line)))
}
