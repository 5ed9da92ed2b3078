//! Where the blocks of drawings are.

use crate::rows::{is_text, wrong_row};
use crate::runs::{Runtime, run_words};
use std::test::Fail;
use test_files::{Row, file_of, lines_hold, row_of};

/// Small drawings, and where their blocks are, worked out by hand.
const BLOCKS: &str = "\
-- The same strokes in each view: the unit cube, the hollow cube, the quartered cube; strokes along one axis.
= 0 SECTION, 2 ENTITIES, FRONT, #1, TOP, #1, SIDE, #1, 0 ENDSEC, 0 EOF
rect S 0 0 1 1 -> 0 blocks 1|x 0 1|y 0 1|z 0 1|row 0
rect S 0 0 3 3, rect D 1 1 2 2 -> 0 blocks 2|x 0 1 2 3|y 0 1 2 3|z 0 1 2 3|\
    row 0 0 0|row 0 0 0|row 0 0 0|row 0 0 0|row 0 1 0|row 0 0 0|row 0 0 0|row 0 0 0|row 0 0 0
rect S 0 0 2 2, line S 0 1 2 1, line S 1 0 1 2 -> \
    0 blocks 8|x 0 1 2|y 0 1 2|z 0 1 2|row 0 1|row 2 3|row 4 5|row 6 7
line S 0 0 1 0 -> 0 blocks 0|x 0 1|y 0 1|z 0
line S 0 0 0 1 -> 0 blocks 0|x 0|y 0 1|z 0 1|row
lattice 16 16 -> 1 fault F18 TooManyBlocks count 4097
-- Two cubes along an edge, a narrow top, and a slab with a block on its corner: some cells are outside.
= 0 SECTION, 2 ENTITIES, FRONT, #1, TOP, #2, SIDE, #3, 0 ENDSEC, 0 EOF
rect S 0 0 2 1, line S 1 0 1 1; rect S 0 0 1 1, rect S 1 1 2 2; rect S 0 0 2 1, line S 1 0 1 1 -> \
    0 blocks 2|x 0 1 2|y 0 1 2|z 0 1|row 0 -|row - 1
rect S 0 0 2 1; rect S 0 0 1 1; rect S 0 0 1 1 -> 0 blocks 0|x 0 1 2|y 0 1|z 0 1|row - -
line S 0 0 5 0, line D 0 3 2 3, line S 2 3 5 3, line S 0 4 2 4, line S 0 0 0 4, line S 2 3 2 4, \
    line S 5 0 5 3; \
    rect S 0 0 5 5, line S 0 1 2 1, line S 2 0 2 1; \
    rect S 0 0 5 3, line S 0 4 1 4, line S 0 3 0 4, line S 1 3 1 4 -> \
    0 blocks 2|x 0 2 5|y 0 1 5|z 0 3 4|row 0 0|row 0 0|row 1 -|row - -
-- A view is missing; a line is oblique; a view from the left is passed over.
= 0 SECTION, 2 ENTITIES, #1, 0 ENDSEC, 0 EOF
FRONT, rect S 0 0 1 1, SIDE, rect S 0 0 1 1 -> 1 fault F14 EmptyView view TOP
FRONT, line S 0 0 1 1, cube -> 1 fault F11 Oblique line 5
cube, LEFT, rect D 0 0 2 2 -> 0 blocks 1|x 0 1|y 0 1|z 0 1|row 0";

/// A row the words of a run, and what it writes for a step of a half, half as high, without its front.
const RUNS: &str = "\
blocks| -> 1 fault F14 EmptyView view FRONT
blocks|--two-views| -> 0 blocks 1|x 0 3|y 0 1 2|z 0 1 2|row 0|row 0|row -|row 0
blocks|--decimals|1|--two-views| -> \
    0 blocks 1|x 0.0 3.0|y 0.0 1.0 2.0|z 0.0 1.0 2.0|row 0|row 0|row -|row 0
blocks|--two-views|--workers|2| -> 2 usage: recon solve .. trial";

/// A step, without its front.
const STEP: &str = "0 SECTION, 2 ENTITIES, TOP, rect S 0 0 3 2, line S 0 1 3 1, \
    SIDE, line S 0 0 2 0, line S 0 1 1 1, line S 1 2 2 2, line S 0 0 0 1, line S 1 1 1 2, \
    line S 2 0 2 2, 0 ENDSEC, 0 EOF";

#[test]
fn blocks_are_told(rt: HostRuntime) -> Result<(), Fail> {
    let row = wrong_row(&rt, "blocks|", BLOCKS)?;
    assert!(rt; row.is_empty(), "{row}");
    Ok(())
}

/// Whether a run with the row's words writes what it wants.
fn is_told<R: Runtime>(rt: &R, row: Row<'_>) -> Result<bool, Fail> {
    let wrote = run_words(rt, row.told, file_of(rt.alloc(), STEP)?)?;
    Ok(is_text(rt.alloc(), wrote.as_str(), row.wanted)?)
}

#[test]
fn blocks_go_with_every_option(rt: HostRuntime) -> Result<(), Fail> {
    lines_hold(RUNS, |line| is_told(&rt, row_of(line)))
}
