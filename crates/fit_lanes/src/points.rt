//! What is drawn on the segments that begin at the points of a view's grid, as bytes.

ghost use Rattle.std.specs.Prelude.{◌≡◌, ◌≤◌, ◌<◌, ◌+◌, ◌↔◌, ℕ, List, length, IsTrue, IfOk, MatchOption};
ghost use Rattle.fit_lanes.specs.Busy.{AreAlikeBeyond, AreBlankBeyond};
ghost use Rattle.fit_lanes.specs.Cuts.{AreLeftOf, HaveOnlyKept};
ghost use Rattle.fit_lanes.specs.Points.{point_byte, ArePointBytes};
ghost use Rattle.fit_lanes.specs.Drawn.{DrawsFrom, DrawsLine, DrawsNoLine, IsFirstLine};
ghost use Rattle.fit_lanes.specs.Tests.{AreDrawn};
ghost use Rattle.lemmas.specs.Lists.{Each};
ghost use Rattle.solid_model.specs.Segments.{across_of};

use crate::cuts::style_between;
use column_lanes::{Column, style_byte};
use solid_model::{Memory, Style};
use std::alloc::Global;

/// The byte of the level, or the upright, segment that begins at a point, of the styles of all of
/// them by line and then by cell: that of Blank where there is none.
fn point_byte(
    styles: &[Style],
    width: usize,
    height: usize,
    upright: bool,
    right: usize,
    up: usize,
) -> u8
    requires width { width ≤ 63 }
    requires height { height ≤ 63 }
    requires right { right ≤ width }
    requires up { up ≤ height }
    ensures { result ≡ point_byte width height upright styles.now right up }
{
    let (line, cell, cells) = if upright {
        (right, up, height)
    } else {
        (up, right, width)
    };
    let place = line * cells + cell;
    if cell < cells && place < styles.len() {
        style_byte(styles[place])
    } else {
        0
    }
}

/// The bytes of the segments that begin at all points.
pub fn point_bytes(
    alloc: Global,
    styles: &[Style],
    width: usize,
    height: usize,
    upright: bool,
) -> Result<Vec<u8>, Memory>
    requires width { width ≤ 63 }
    requires height { height ≤ 63 }
    ensures { IfOk result (λ bytes. ArePointBytes width height upright styles.now bytes.items) }
{
    let stride = width + 1;
    let points = (height + 1) * stride;
    let mut bytes = Vec::with_capacity(alloc, points)?;
    for place in 0..points {
        let (right, up) = (place % stride, place / stride);
        bytes.push(point_byte(styles, width, height, upright, right, up))?;
    }
    Ok(bytes)
}

/// Puts the bytes of the styles that what is left of columns draws on the segments that begin at
/// these points, where beyond them the columns are the same, and nothing was drawn.
pub fn draw(
    kept: Option<u64>,
    columns: &[u64],
    stride: usize,
    upright: bool,
    points: &[usize],
    drawn: &mut [u8],
)
    requires within { HaveOnlyKept kept columns.now }
    requires stride { 1 ≤ stride }
    requires enough { length columns.now ≡ length drawn.old + stride }
    requires inside { Each (λ p. p < length drawn.old) points.now }
    requires alike { AreAlikeBeyond columns.now stride upright points.now (length drawn.old) }
    requires blank { AreBlankBeyond points.now drawn.old }
    ensures length { length drawn.new ≡ length drawn.old }
    ensures blank { AreBlankBeyond points.now drawn.new }
    ensures drawn { (left : List ℕ) → AreLeftOf kept columns.now left
        → AreDrawn left stride upright drawn.new }
{
    let before = if upright { 1 } else { stride };
    for point in points {
        let after = *point + stride;
        let (column, other) = (Column(columns[after]), Column(columns[after - before]));
        let style = style_between(kept, column, other);
        drawn[*point] = style_byte(style);
    }
}

/// What goes across level, or upright, segments: of what lies to the right and upwards the one or
/// the other.
pub fn across_of(upright: bool, right: usize, up: usize) -> usize
    ensures { result ≡ across_of upright right up }
{
    if upright { right } else { up }
}

/// Whether something is drawn at one of so many points, from this one on, each so far from the one
/// before it.
fn draws_from(drawn: &[u8], first: usize, apart: usize, points: usize) -> bool
    requires first { first ≤ 4032 }
    requires apart { apart ≤ 64 }
    requires points { points ≤ 64 }
    ensures { IsTrue result ↔ DrawsFrom drawn.now first apart points }
{
    for point in 0..points {
        if let Some(byte) = drawn.get(first + point * apart) {
            if *byte != 0 {
                return true;
            }
        }
    }
    false
}

/// Whether something is drawn on the level, or the upright, line of this number, of a view of so
/// many cells.
fn draws_line(drawn: &[u8], width: usize, height: usize, upright: bool, line: usize) -> bool
    requires width { width ≤ 63 }
    requires height { height ≤ 63 }
    requires line { line ≤ 63 }
    ensures { IsTrue result ↔ DrawsLine width height upright drawn.now line }
{
    let stride = width + 1;
    if upright {
        draws_from(drawn, line, stride, height + 1)
    } else {
        draws_from(drawn, line * stride, 1, stride)
    }
}

/// The first of these lines on which something is drawn, where nothing is before this one.
pub fn first_line(
    drawn: &[u8],
    width: usize,
    height: usize,
    upright: bool,
    from: usize,
) -> Option<usize>
    requires width { width ≤ 63 }
    requires height { height ≤ 63 }
    requires from { (m : ℕ) → m < from → DrawsLine width height upright drawn.now m → ⊥ }
    ensures { MatchOption result (DrawsNoLine width height upright drawn.now)
        (IsFirstLine width height upright drawn.now) }
{
    for line in from..across_of(upright, width, height) + 1 {
        if draws_line(drawn, width, height, upright, line) {
            return Some(line);
        }
    }
    None
}
