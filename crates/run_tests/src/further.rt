//! Drawings with views from the left, the rear and below.

use crate::rows::is_text;
use crate::runs::{Runtime, run_words};
use std::test::Fail;
use test_files::{Row, file_of, lines_hold, row_of};

/// Files with further views: of the unit cube, which stands anywhere on the sheet, and of eight voids
/// whose depth is shortened, of which four solids show the rear with two open. The bar lies along x,
/// with one cell behind its first one and one above that: from each side, all three, each drawn as
/// from the wrong side, one cell narrower, and with an edge dashed for solid.
pub const FURTHER: &str = "\
-- Further views.
= 0 SECTION, 2 ENTITIES, #1, cube, 0 ENDSEC, 0 EOF
BOTTOM, rect D 0 0 1 1 -> 0 whole 0 nodes 2 blocks 1
BOTTOM, rect S 7 7 8 8 -> unit cube
LEFT, rect S -3 0 -2 1, REAR, rect S 0 5 1 6, BOTTOM, rect S 7 7 8 8 -> unit cube
LEFT, line S 3 3 3 3 -> unit cube
LEFT, line S 0 0 1 0 -> 0 whole 0 nodes 2 blocks 1
0 ARC, 8 LEFT -> 1 fault F13 Geometry line 5
REAR, line S 0 0 1 1 -> 1 fault F11 Oblique line 5
BOTTOM, line S 0 0 0.5 0 -> 1 fault F7 NotWhole line 18 code 11
0 ARC, 8 RIGHT -> unit cube
= 0 SECTION, 2 ENTITIES, FRONT, lattice 2 2, TOP, rect S 0 0 5 4, rect D 1 1 2 2, rect D 3 1 4 2, \
    rect D 1 3 2 4, rect D 3 3 4 4, SIDE, rect S 0 0 4 5, rect D 1 1 2 2, rect D 3 1 4 2, \
    rect D 1 3 2 4, rect D 3 3 4 4, #1, 0 ENDSEC, 0 EOF
999 none -> 0 whole 35 nodes 109 blocks 9|solid 1 choice 1 .. 
REAR, rect S 0 0 5 5, rect S 3 1 4 2, rect S 1 3 2 4, rect D 1 1 2 2, rect D 3 3 4 4 -> \
    0 whole 4 nodes 109 blocks 9|solid 1 choice 110010110 volume 96 faces .. |\
    solid 2 choice 110010010 volume 95 faces .. |solid 3 choice 100010110 volume 95 faces .. |\
    solid 4 choice 100010010 volume 94 faces .. 
= 0 SECTION, 2 ENTITIES, FRONT, line S 0 0 3 0, line S 3 0 3 1, line S 1 1 3 1, line S 1 1 1 2, \
    line S 0 2 1 2, line S 0 0 0 2, line D 1 0 1 1, line D 0 1 1 1, TOP, line S 0 0 3 0, \
    line S 3 0 3 1, line S 1 1 3 1, line S 1 1 1 2, line S 0 2 1 2, line S 0 0 0 2, \
    line S 1 0 1 1, line S 0 1 1 1, SIDE, line S 0 0 2 0, line S 2 0 2 1, line S 1 1 2 1, \
    line S 1 1 1 2, line S 0 2 1 2, line S 0 0 0 2, line S 1 0 1 1, line S 0 1 1 1, \
    #1, 0 ENDSEC, 0 EOF
LEFT, line S 0 0 2 0, line S 2 0 2 2, line S 1 2 2 2, line S 1 1 1 2, line S 0 1 1 1, \
    line S 0 0 0 1, line D 1 0 1 1, line D 1 1 2 1 -> 0 whole 1 .. 
LEFT, line S 0 0 2 0, line S 2 0 2 1, line S 1 1 2 1, line S 1 1 1 2, line S 0 2 1 2, \
    line S 0 0 0 2, line D 1 0 1 1, line D 0 1 1 1 -> 0 whole 0 nodes .. 
REAR, line S 5 0 8 0, line S 8 0 8 2, line S 7 2 8 2, line S 7 1 7 2, line S 5 1 7 1, \
    line S 5 0 5 1, line S 7 0 7 1, line S 7 1 8 1 -> 0 whole 1 .. 
REAR, line S 0 0 2 0, line S 2 0 2 2, line S 1 2 2 2, line S 1 1 1 2, line S 0 1 1 1, \
    line S 0 0 0 1, line S 1 0 1 1, line S 1 1 2 1 -> 0 whole 0 nodes .. 
BOTTOM, line S 0 0 1 0, line S 1 0 1 1, line S 1 1 3 1, line S 3 1 3 2, line S 0 2 3 2, \
    line S 0 0 0 2, line D 1 1 1 2, line D 0 1 1 1 -> 0 whole 1 .. 
BOTTOM, line S 0 0 1 0, line S 1 0 1 1, line S 1 1 3 1, line S 3 1 3 2, line S 0 2 3 2, \
    line S 0 0 0 2, line S 1 1 1 2, line D 0 1 1 1 -> 0 whole 0 nodes .. ";

/// A row the words of a run, and what it writes for the shortened voids with the rear view.
const RUNS: &str = "\
solve|--pages| -> 0 page 1 solids .. choice 100010110 .. whole 4 nodes 109 blocks 9|solid 1 .. 
solve|--pages|--workers|3| -> 0 page 1 solids .. whole 4 nodes 109 blocks 9|solid 1 .. 
solve|--solids|35| -> 0 whole 4 nodes 109 blocks 9|solid 1 .. 
solve|--solids|34| -> 4 cut solids 34|solid 1 .. 
solve|--solids|1| -> 4 cut solids 1|solid 1 choice 110010110 .. 
solve|--nodes|108| -> 3 cut nodes 108 .. 
solve|--decimals|1|--workers|2| -> 0 whole 4 nodes 109 blocks 9|solid 1 .. 
redraw|4| -> 0 0|SECTION .. 
redraw|5| -> 8 none 5 of 4
stl|35| -> 0 solid recon .. 
stl|36| -> 8 none 36 of 35
prove| -> 0 log 1 blocks 9 .. end 35";

/// The shortened voids, with the rear view that shows two of them open.
const VOIDS: &str =
    "0 SECTION, 2 ENTITIES, FRONT, lattice 2 2, TOP, rect S 0 0 5 4, rect D 1 1 2 2, \
    rect D 3 1 4 2, rect D 1 3 2 4, rect D 3 3 4 4, SIDE, rect S 0 0 4 5, rect D 1 1 2 2, \
    rect D 3 1 4 2, rect D 1 3 2 4, rect D 3 3 4 4, REAR, rect S 0 0 5 5, rect S 3 1 4 2, \
    rect S 1 3 2 4, rect D 1 1 2 2, rect D 3 3 4 4, 0 ENDSEC, 0 EOF";

/// Whether a run with the row's words writes what it wants.
fn is_told<R: Runtime>(rt: &R, row: Row<'_>) -> Result<bool, Fail> {
    let wrote = run_words(rt, row.told, file_of(rt.alloc(), VOIDS)?)?;
    Ok(is_text(rt.alloc(), wrote.as_str(), row.wanted)?)
}

#[test]
fn further_views_go_with_every_option(rt: HostRuntime) -> Result<(), Fail> {
    lines_hold(RUNS, |line| is_told(&rt, row_of(line)))
}
