//! Solids whose triangles were found by hand.

use crate::face_lists::side_name;
use file_problem::problem_of;
use solid_model::{Cell, Choice, Problem};
use std::alloc::Global;
use std::fmt::Write;
use std::test::Fail;
use stl_out::{Triangle, triangles};
use test_files::{Row, drawing_file, file_bytes, rows_tell};

/// A row a solid: its strokes in front, from the top and from the side, and which blocks are full;
/// and then its rectangles, each by its outward side and the corners p, q, r and s of its triangles
/// p q r and p r s, a digit a coordinate. They are a cube, a brick, and three cubes round a corner.
const SURFACES: &str = "\
rect S 0 0 1 1; rect S 0 0 1 1; rect S 0 0 1 1; 1 -> \
    -x 000 001 011 010, +x 100 110 111 101, -y 000 100 101 001, +y 010 011 111 110, \
    -z 000 010 110 100, +z 001 101 111 011
rect S 0 0 4 3; rect S 0 0 4 2; rect S 0 0 2 3; 1 -> \
    -x 000 003 023 020, +x 400 420 423 403, -y 000 400 403 003, +y 020 023 423 420, \
    -z 000 020 420 400, +z 003 403 423 023
rect S 0 0 2 1, line D 1 0 1 1; line S 0 0 2 0, line S 2 0 2 1, line S 1 1 2 1, line S 1 1 1 2, \
    line S 0 2 1 2, line S 0 0 0 2; rect S 0 0 2 1, line S 1 0 1 1; 111 -> \
    -x 000 001 011 010, -x 010 011 021 020, +x 110 120 121 111, +x 200 210 211 201, \
    -y 000 100 101 001, -y 100 200 201 101, +y 110 111 211 210, +y 020 021 121 120, \
    -z 000 010 110 100, -z 100 110 210 200, -z 010 020 120 110, \
    +z 001 101 111 011, +z 101 201 211 111, +z 011 111 121 021";

/// The drawing of two cubes that touch along an edge.
const TOUCHING: [&str; 3] = [
    "rect S 0 0 2 1, line S 1 0 1 1",
    "rect S 0 0 1 1, rect S 1 1 2 2",
    "rect S 0 0 2 1, line S 1 0 1 1",
];

/// The problem of a drawing.
pub fn problem_at(alloc: Global, views: [&str; 3]) -> Result<Problem, Fail> {
    let file = file_bytes(drawing_file(alloc, views)?)?;
    Ok(problem_of(alloc, file, 0)?)
}

/// The choice in which the blocks are full that a 1 stands for.
pub fn choice_of(alloc: Global, told: &str) -> Result<Choice, Fail> {
    let mut full = Vec::new(alloc);
    for byte in told.bytes() {
        full.push(byte == b'1')?;
    }
    Ok(Choice::from_bools(alloc, full.as_slice())?)
}

/// Adds a corner, a digit a coordinate.
fn push_corner(told: &mut String, corner: Cell) -> Result<(), Fail> {
    let Cell { x, y, z } = corner;
    Ok(write!(told, " {x}{y}{z}")?)
}

/// Adds the corners of two triangles that are a rectangle.
fn push_corners(told: &mut String, first: &Triangle, second: &Triangle) -> Result<(), Fail> {
    push_corner(told, first.a)?;
    push_corner(told, first.b)?;
    push_corner(told, first.c)?;
    push_corner(told, second.c)
}

/// Adds two triangles, as a row has their rectangle.
fn push_rectangle(told: &mut String, first: &Triangle, second: &Triangle) -> Result<(), Fail> {
    if first.a != second.a || first.c != second.b || first.out != second.out {
        return Err(Fail::new("no rectangle"));
    }
    told.push_str(if told.is_empty() { "" } else { ", " })?;
    told.push_str(side_name(first.out))?;
    push_corners(told, first, second)
}

/// Triangles, two by two, as a row has them.
fn told_rectangles(alloc: Global, triangles: &[Triangle]) -> Result<String, Fail> {
    let mut told = String::new(alloc);
    for pair in triangles.chunks(2) {
        if let [first, second] = pair {
            push_rectangle(&mut told, first, second)?;
        }
    }
    Ok(told)
}

/// The triangles of a problem's solid, by its full blocks.
fn surface_of(alloc: Global, problem: &Problem, full: &str) -> Result<Vec<Triangle>, Fail> {
    let choice = choice_of(alloc, full)?;
    Ok(triangles(alloc, problem, &choice)?)
}

/// The same of a drawing's solid.
fn surface(alloc: Global, views: [&str; 3], full: &str) -> Result<Vec<Triangle>, Fail> {
    let problem = problem_at(alloc, views)?;
    surface_of(alloc, &problem, full)
}

/// The triangles of a row's solid, as the row has them.
fn told_surface(alloc: Global, row: Row<'_>) -> Result<String, Fail> {
    let [_, _, _, full, _] = row.parts;
    let found = surface(alloc, row.views(), full)?;
    told_rectangles(alloc, found.as_slice())
}

#[test]
fn boundaries_are_triangles(rt: HostRuntime) -> Result<(), Fail> {
    rows_tell(SURFACES, |row| told_surface(rt.alloc(), row))
}

/// How often triangles go from one point straight to another.
fn count(triangles: &[Triangle], from: Cell, to: Cell) -> usize {
    let mut count: usize = 0;
    for triangle in triangles {
        let Triangle { a, b, c, .. } = *triangle;
        if [(a, b), (b, c), (c, a)].contains(&(from, to)) {
            count = count.saturating_add(1);
        }
    }
    count
}

/// How many triangles the touching cubes have, and how often they go up and down their common edge.
fn touching_counts(alloc: Global) -> Result<[usize; 3], Fail> {
    let found = surface(alloc, TOUCHING, "11")?;
    let low = Cell { x: 1, y: 1, z: 0 };
    let high = Cell { x: 1, y: 1, z: 1 };
    let up = count(found.as_slice(), low, high);
    let down = count(found.as_slice(), high, low);
    Ok([found.len(), up, down])
}

#[test]
fn touching_cubes_go_along_their_edge_twice(rt: HostRuntime) -> Result<(), Fail> {
    assert_eq!(rt; touching_counts(rt.alloc())?, [24, 2, 2]);
    Ok(())
}
