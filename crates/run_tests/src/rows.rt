//! Tables of files, and what `solve` writes for them.
//!
//! A table begins with a remark, which is a line after `-- `. Each other line is a remark too, a
//! frame after `= `, or a row: what is told of a file, ` -> `, and the status and the text that are
//! wanted, with `|` for the end of a line; ` .. ` in it stands for whatever is between. The parts
//! of what is told, `; ` between two of them, stand for `#1`, `#2` and `#3` in the steps of the
//! frame above. In the frame `text` what is told is the file itself, with `|` for the end of a
//! line. Where a frame begins with `padded: ` or `padded CR LF: `, the codes of the file are right
//! in three places.

use crate::decimals::DECIMALS;
use crate::drawings::DRAWINGS;
use crate::entities::ENTITIES;
use crate::further::FURTHER;
use crate::polylines::POLYLINES;
use crate::runs::{Runtime, UNIT_CUBE, run_words};
use crate::texts::{SIZES, TEXTS};
use crate::values::{LINETYPES, NUMERALS};
use std::alloc::{AllocError, Global};
use std::test::Fail;
use test_files::{Row, file_of, padded_file, row_of};

/// The steps of a frame with what a row tells.
fn steps_of(alloc: Global, frame: &str, row: Row<'_>) -> Result<String, AllocError> {
    let [first, second, third, ..] = row.parts;
    let steps = frame.replace(alloc, "#1", first)?;
    let steps = steps.replace(alloc, "#2", second)?;
    steps.replace(alloc, "#3", third)
}

/// The file that a row tells in a frame.
fn told_file(alloc: Global, frame: &str, row: Row<'_>) -> Result<String, AllocError> {
    if frame == "text" {
        return row.told.replace(alloc, "|", "\n");
    }
    let steps = steps_of(alloc, frame, row)?;
    match steps.as_str().split_once(": ") {
        Some(("padded", steps)) => padded_file(alloc, steps, "\n"),
        Some((_, steps)) => padded_file(alloc, steps, "\r\n"),
        None => file_of(alloc, steps.as_str()),
    }
}

/// The status and the text that are wanted, without the last line end.
fn wanted_text(alloc: Global, told: &str) -> Result<String, AllocError> {
    let text = match told {
        "unit cube" => UNIT_CUBE.trim_end(),
        "three cubes" => "0 whole 1 nodes 2 blocks 1|solid 1 choice 1 volume 3 faces 8| .. ",
        text => text,
    };
    text.replace(alloc, "|", "\n")
}

/// Whether what was written, without its last line end, is what is wanted: that, or where ` .. `
/// stands in it, a text that begins with the first part, ends with the last and has each other one
/// in it.
fn is_wanted(wrote: &str, wanted: &str) -> bool {
    let (first, others) = match wanted.split_once(" .. ") {
        Some(parts) => parts,
        None => return wrote == wanted,
    };
    let (middle, last) = others.rsplit_once(" .. ").unwrap_or(("", others));
    for part in middle.split(" .. ") {
        if !wrote.contains(part) {
            return false;
        }
    }
    wrote.starts_with(first) && wrote.ends_with(last)
}

/// Whether what was written is what a row wants.
pub fn is_text(alloc: Global, wrote: &str, wanted: &str) -> Result<bool, AllocError> {
    let wanted = wanted_text(alloc, wanted)?;
    Ok(match wrote.strip_suffix('\n') {
        Some(wrote) => is_wanted(wrote, wanted.as_str()),
        None => false,
    })
}

/// What a run with these words writes for the file that a row tells in a frame.
fn wrote_for<R: Runtime>(
    rt: &R,
    words: &str,
    frame: &str,
    row: Row<'_>,
) -> Result<String, AllocError> {
    let file = told_file(rt.alloc(), frame, row)?;
    run_words(rt, words, file)
}

/// Whether a row is right for a run with these words.
fn is_right<R: Runtime>(
    rt: &R,
    words: &str,
    frame: &str,
    row: Row<'_>,
) -> Result<bool, AllocError> {
    let wrote = wrote_for(rt, words, frame, row)?;
    is_text(rt.alloc(), wrote.as_str(), row.wanted)
}

/// The first of a frame's rows that isn't right for runs with these words; nothing where all are.
fn wrong_line<'a, R: Runtime>(
    rt: &R,
    words: &str,
    frame: &str,
    rows: &'a str,
) -> Result<&'a str, AllocError> {
    for line in rows.lines() {
        if !line.starts_with("-- ") && !is_right(rt, words, frame, row_of(line))? {
            return Ok(line);
        }
    }
    Ok("")
}

/// The same of a table's rows.
pub fn wrong_row<'a, R: Runtime>(
    rt: &R,
    words: &str,
    table: &'a str,
) -> Result<&'a str, AllocError> {
    for framed in table.split("\n= ").skip(1) {
        let (frame, rows) = framed.split_once('\n').unwrap_or((framed, ""));
        let line = wrong_line(rt, words, frame, rows)?;
        if !line.is_empty() {
            return Ok(line);
        }
    }
    Ok("")
}

#[test]
fn files_give_their_texts(rt: HostRuntime) -> Result<(), Fail> {
    for table in [
        TEXTS, ENTITIES, POLYLINES, LINETYPES, NUMERALS, DRAWINGS, FURTHER,
    ] {
        let row = wrong_row(&rt, "solve|", table)?;
        assert!(rt; row.is_empty(), "{row}");
    }
    Ok(())
}

#[test]
fn files_at_the_limits_give_their_texts(rt: HostRuntime) -> Result<(), Fail> {
    let row = wrong_row(&rt, "solve|", SIZES)?;
    assert!(rt; row.is_empty(), "{row}");
    Ok(())
}

#[test]
fn files_are_read_with_a_decimal(rt: HostRuntime) -> Result<(), Fail> {
    let row = wrong_row(&rt, "solve|--decimals|1|", DECIMALS)?;
    assert!(rt; row.is_empty(), "{row}");
    Ok(())
}
