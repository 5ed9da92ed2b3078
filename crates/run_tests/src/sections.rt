//! Drawings with sections, and what the option `--sections` makes of them.

use crate::logs::log_behind;
use crate::rows::is_text;
use crate::runs::{Runtime, run_words};
use std::alloc::{AllocError, Global};
use std::test::Fail;
use test_files::{Row, file_of, lines_hold, row_of};

/// A row further strokes of the quartered cube, whose three solids have the choices 10010110,
/// 10110110 and 01101001 in this order; the words of a run; and what it writes. Through the middle
/// each way of looking leaves four places. The plane may lie within a gap, and is spelled as
/// coordinates are; without the option all other layers are passed over, dashed lines always.
const QUARTERED: &str = "\
SECTION_FRONT_1, rect S 1 0 2 1, rect S 0 1 1 2; solve|--sections| -> \
    0 whole 1 nodes 23 blocks 8|solid 1 choice 10010110 .. 
SECTION_FRONT_1, rect S 0 0 1 1, rect S 1 1 2 2; solve|--sections| -> \
    0 whole 1 nodes 23 blocks 8|solid 1 choice 01101001 .. 
SECTION_FRONT_1, rect S 1 0 2 1, rect S 0 1 1 2; solve| -> 0 whole 3 nodes 23 blocks 8|solid 1 .. 
SECTION_LEFT_1, rect S 0 0 1 1, rect S 1 1 2 2; solve|--sections|--workers|2| -> \
    0 whole 2 nodes 23 blocks 8|solid 1 .. choice 10010110 .. 
SECTION_LEFT_1, rect S 0 0 1 1, rect S 1 1 2 2; solve|--pages|--sections| -> \
    0 page 1 solids 2|choice 1 .. whole 2 nodes 23 blocks 8|solid 1 .. 
AREA_REAR_1, rect S 7 7 8 8, rect S 8 8 9 9; solve|--sections| -> \
    0 whole 1 nodes 23 blocks 8|solid 1 choice 01101001 .. 
SECTION_TOP_1, rect S 0 0 1 1, rect S 1 1 2 2, AREA_TOP_1, rect S 0 0 1 1, rect S 1 1 2 2; \
    solve|--sections| -> 0 whole 1 nodes 23 blocks 8|solid 1 choice 10010110 .. 
SECTION_BOTTOM_01, rect S 1 0 2 1, SECTION_BOTTOM_1, rect S 0 1 1 2; solve|--sections| -> \
    0 whole 1 nodes 23 blocks 8|solid 1 choice 01101001 .. 
SECTION_SIDE_1, rect S 0 0 1 1, rect S 1 1 2 2, rect D 0 0 2 2; solve|--sections| -> \
    0 whole 1 nodes 23 blocks 8|solid 1 choice 10010110 .. 
SECTION_SIDE_0.5, rect S 0 0 1 1, rect S 1 1 2 2; solve|--sections|--decimals|1| -> \
    0 whole 1 nodes 23 blocks 8|solid 1 choice 10010110 .. 
SECTION_SIDE_1.5, rect S 0 0 1 1; solve|--sections| -> 1 fault F20 SectionName line .. 
SECTION_FRONT, rect S 0 0 1 1; solve|--sections| -> 1 fault F20 SectionName line .. 
SECTION_FRONT, rect S 0 0 1 1; redraw|3| -> 0 0|SECTION .. 
SECTION_FRONT_2, rect S 0 0 1 1; solve|--sections| -> 1 fault F21 NoCut line .. 
AREA_TOP_0, rect S 0 0 1 1; stl|--sections|1| -> 1 fault F21 NoCut line .. 
SECTION_FRONT_1, rect S 0 0 2 2; solve|--sections| -> 0 whole 0 nodes 23 blocks 8
SECTION_FRONT_1, rect S 1 0 2 1, rect S 0 1 1 2; redraw|--sections|1| -> 0 0|SECTION .. 
SECTION_FRONT_1, rect S 1 0 2 1, rect S 0 1 1 2; redraw|--sections|2| -> 8 none 2 of 1
SECTION_FRONT_1, rect S 1 0 2 1, rect S 0 1 1 2; stl|--sections|1| -> 0 solid recon .. 
SECTION_FRONT_1, rect S 1 0 2 1, rect S 0 1 1 2; stl|--sections|2| -> 8 none 2 of 1
SECTION_FRONT_1, rect S 1 0 2 1, rect S 0 1 1 2; stl|3| -> 0 solid recon .. 
LEFT, rect D 0 0 2 2; stl|--sections|1| -> 8 none 1 of 0
LEFT, rect D 0 0 2 2; stl|1| -> 0 solid recon .. 
REAR, rect D 0 0 2 2; solve|--sections| -> 0 whole 0 nodes 23 blocks 8";

/// A row further strokes of the same drawing, further words of `check`, and what it writes, with the
/// log behind the drawing that `prove` writes.
const CHECKED: &str = "\
SECTION_FRONT_1, rect S 1 0 2 1, rect S 0 1 1 2; --sections| -> 0 yes 1 of 3|choice 10010110
SECTION_LEFT_1, rect S 0 0 1 1, rect S 1 1 2 2; --sections| -> \
    0 yes 2 of 3|choice 1 .. choice 10010110 .. 
SECTION_FRONT_1, rect S 0 0 2 2; --sections| -> 0 yes 0 of 3
LEFT, line S 3 3 3 3; --sections| -> 0 yes 3 of 3|choice .. 
SECTION_FRONT_1, rect S 0 0 2 2; --two-views| -> 0 yes 3|choice .. ";

/// The quartered cube with further strokes.
fn quartered(alloc: Global, strokes: &str) -> Result<String, AllocError> {
    let steps = format!(in alloc;
        "0 SECTION, 2 ENTITIES, FRONT, #, TOP, #, SIDE, #, {strokes}, 0 ENDSEC, 0 EOF"
    )?;
    let steps = steps.replace(alloc, "#", "rect S 0 0 2 2, line S 0 1 2 1, line S 1 0 1 2")?;
    file_of(alloc, steps.as_str())
}

/// Whether a run with the row's words writes what it wants.
fn is_told<R: Runtime>(rt: &R, row: Row<'_>) -> Result<bool, Fail> {
    let [strokes, words, ..] = row.parts;
    let wrote = run_words(rt, words, quartered(rt.alloc(), strokes)?)?;
    Ok(is_text(rt.alloc(), wrote.as_str(), row.wanted)?)
}

#[test]
fn sections_are_read_with_their_option_alone(rt: HostRuntime) -> Result<(), Fail> {
    lines_hold(QUARTERED, |line| is_told(&rt, row_of(line)))
}

/// Whether `check` writes what a row wants for its drawing and the log that `prove` writes for it.
fn is_checked<R: Runtime>(rt: &R, row: Row<'_>) -> Result<bool, Fail> {
    let [strokes, words, ..] = row.parts;
    let words = format!(in rt.alloc(); "check|{words}")?;
    let file = log_behind(rt, quartered(rt.alloc(), strokes)?)?;
    let wrote = run_words(rt, words.as_str(), file)?;
    Ok(is_text(rt.alloc(), wrote.as_str(), row.wanted)?)
}

#[test]
fn a_checked_log_tells_which_solids_fit(rt: HostRuntime) -> Result<(), Fail> {
    lines_hold(CHECKED, |line| is_checked(&rt, row_of(line)))
}
