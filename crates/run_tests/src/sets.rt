//! Small solids, drawn by their columns of cells.

use crate::runs::{Runtime, solve};
use recon_run::problem_of;
use solid_model::{Axis, Choice, Grid, PerAxis, Problem, View};
use std::alloc::{AllocError, Global};
use std::test::Fail;
use test_files::{file_bytes, file_of, layer_of};

/// Whether a set of cells has this one. The sets are those of a box of 2 by 2 by 2 cells, whose
/// coordinates are 1 and 2; a set has a bit for each cell, by z, then y, then x.
fn is_full(set: u8, x: u8, y: u8, z: u8) -> bool {
    let is_inside = (x == 1 || x == 2) && (y == 1 || y == 2) && (z == 1 || z == 2);
    is_inside && set >> (x - 1 + 2 * (y - 1) + 4 * (z - 1)) & 1 == 1
}

/// Which cells are full on the sight line at a place of a view, the nearer one first.
fn column(set: u8, view: View, right: u8, up: u8) -> [bool; 2] {
    match view {
        View::Front => [is_full(set, right, 1, up), is_full(set, right, 2, up)],
        View::Top => [is_full(set, right, up, 2), is_full(set, right, up, 1)],
        View::Side => [is_full(set, 2, right, up), is_full(set, 1, right, up)],
    }
}

/// The style of a segment between two columns: none where they are the same, and dashed where they
/// differ behind their first full cell.
fn style_between(one: [bool; 2], other: [bool; 2]) -> Option<&'static str> {
    match (one, other) {
        ([true, a], [true, b]) if a != b => Some("D"),
        ([true, _], [true, _]) => None,
        ([false, a], [false, b]) if a == b => None,
        _ => Some("S"),
    }
}

/// Adds the strokes of a view, a segment each: nine level ones, and nine upright ones.
fn push_view(steps: &mut String, set: u8, view: View) -> Result<(), AllocError> {
    write!(steps, ", {}", layer_of(view))?;
    for place in 0..18u8 {
        let (right, up, upright) = (place % 3, place / 3 % 3, place / 9);
        let (to_right, to_up) = (right + 1 - upright, up + upright);
        let ahead = column(set, view, right + 1, up + 1);
        if let Some(style) = style_between(column(set, view, to_right, to_up), ahead) {
            write!(steps, ", line {style} {right} {up} {to_right} {to_up}")?;
        }
    }
    Ok(())
}

/// The file of a set's drawing.
fn drawn_file(alloc: Global, set: u8) -> Result<String, AllocError> {
    let mut steps = String::from_str(alloc, "0 SECTION, 2 ENTITIES")?;
    for view in [View::Front, View::Top, View::Side] {
        push_view(&mut steps, set, view)?;
    }
    steps.push_str(", 0 ENDSEC, 0 EOF")?;
    file_of(alloc, steps.as_str())
}

/// A set, moved so that its least coordinates are 1.
fn moved(set: u8) -> u8 {
    let set = if set & 0b0101_0101 == 0 {
        set >> 1
    } else {
        set
    };
    let set = if set & 0b0011_0011 == 0 {
        set >> 2
    } else {
        set
    };
    if set & 0b0000_1111 == 0 {
        set >> 4
    } else {
        set
    }
}

/// The cells of a set along x, y and z: those at 0, and those at 1.
const HALVES: [(Axis, u8, u8); 3] = [
    (Axis::X, 0b0101_0101, 0b1010_1010),
    (Axis::Y, 0b0011_0011, 0b1100_1100),
    (Axis::Z, 0b0000_1111, 0b1111_0000),
];

/// The cells of a set that stand in a grid cell.
fn cells_in(grid: &Grid, cell: PerAxis) -> u8 {
    let mut cells = 255;
    for (axis, at_0, at_1) in HALVES {
        let low = grid.coordinates(axis).get(cell.along(axis)).copied();
        let high = grid
            .coordinates(axis)
            .get(cell.along(axis).saturating_add(1))
            .copied();
        cells &= match (low, high) {
            (Some(0), Some(1)) => at_0,
            (Some(1), Some(2)) => at_1,
            (Some(0), Some(2)) => at_0 | at_1,
            _ => 0,
        };
    }
    cells
}

/// The choice in which the blocks are full that a 1 stands for.
fn choice_of(alloc: Global, told: &str) -> Result<Choice, Fail> {
    let mut full = Vec::new(alloc);
    for block in told.bytes() {
        full.push(block == b'1')?;
    }
    Ok(Choice::from_bools(alloc, full.as_slice())?)
}

/// The set of cells that stand in the full ones of a grid's cells.
fn set_of(grid: &Grid, cells: &[bool]) -> u8 {
    let sizes = grid.sizes();
    let mut set = 0;
    for (place, is_full) in cells.iter().enumerate() {
        if *is_full && place < sizes.count() {
            set |= cells_in(grid, sizes.cell(place));
        }
    }
    set
}

/// The set of cells that a choice of a problem's blocks fills.
fn filled_set(alloc: Global, problem: &Problem, choice: &str) -> Result<u8, Fail> {
    let choice = choice_of(alloc, choice)?;
    let cells = problem.cells(alloc, &choice)?;
    Ok(set_of(problem.grid(), cells.as_slice()))
}

/// Whether a line tells a solid of a set's cells, with its volume.
fn tells(alloc: Global, problem: &Problem, line: &str, set: u8) -> Result<bool, Fail> {
    if !line.starts_with("solid ") {
        return Ok(false);
    }
    let mut words = line.split(' ').skip(3);
    let filled = filled_set(alloc, problem, words.next().unwrap_or(""))?;
    let volume = format!(in alloc; "{}", set.count_ones())?;
    Ok(filled == set && words.nth(1) == Some(volume.as_str()))
}

/// The problem of a set's drawing.
fn problem_in(alloc: Global, set: u8) -> Result<Problem, Fail> {
    let file = file_bytes(drawn_file(alloc, set)?)?;
    Ok(problem_of(alloc, file, 0)?)
}

/// What `solve` writes for a set's drawing.
fn solved<R: Runtime>(rt: &R, set: u8) -> Result<String, Fail> {
    let file = drawn_file(rt.alloc(), set)?;
    Ok(solve(rt, file)?)
}

/// Whether a line of a text tells a solid of a set's cells, with its volume.
fn lists(alloc: Global, problem: &Problem, text: &str, set: u8) -> Result<bool, Fail> {
    for line in text.lines().skip(1) {
        if tells(alloc, problem, line, set)? {
            return Ok(true);
        }
    }
    Ok(false)
}

/// Whether a set is listed for its own drawing, with its volume.
fn is_found<R: Runtime>(rt: &R, set: u8) -> Result<bool, Fail> {
    let problem = problem_in(rt.alloc(), set)?;
    let wrote = solved(rt, set)?;
    lists(rt.alloc(), &problem, wrote.as_str(), moved(set))
}

#[test]
fn every_small_set_is_found_again(rt: HostRuntime) -> Result<(), Fail> {
    for set in 1..=255u8 {
        assert!(rt; is_found(&rt, set)?, "the set {set}");
    }
    Ok(())
}
