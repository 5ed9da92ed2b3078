//! Solids whose faces were found by hand.

use crate::surfaces::problem_at;
use faces::{counted_faces, faces_of_rows, faces_of_solid};
use solid_model::{Face, Grid, Loop, Out};
use std::alloc::Global;
use std::fmt::Write;
use std::test::Fail;
use test_files::{Row, cells, numbers, rows_of, rows_tell};

/// How many cells there are along each axis, the cells, x fastest and z slowest, and the faces:
/// each is told by its outward side, the coordinate of its plane, and its loops, a digit a
/// coordinate. They are a cube, two cubes that touch along an edge, and a plate with a hole.
const SOLIDS: &str = "\
000
111; .
111; # -> \
-x0 000 001 011 010, +x1 100 110 111 101, -y0 000 100 101 001, +y1 010 011 111 110, \
-z0 000 010 110 100, +z1 001 101 111 011
221; #..# -> \
-x0 000 001 011 010, -x1 110 111 121 120, +x1 100 110 111 101, +x2 210 220 221 211, \
-y0 000 100 101 001, -y1 110 210 211 111, +y1 010 011 111 110, +y2 120 121 221 220, \
-z0 000 010 110 100, -z0 110 120 220 210, +z1 001 101 111 011, +z1 111 211 221 121
331; ####.#### -> \
-x0 000 001 031 030, -x2 210 211 221 220, +x1 110 120 121 111, +x3 300 330 331 301, \
-y0 000 300 301 001, -y2 120 220 221 121, +y1 110 111 211 210, +y3 030 031 331 330, \
-z0 000 030 330 300 / 110 210 220 120, +z1 001 301 331 031 / 111 121 221 211";

/// The name of an outward side.
pub fn side_name(out: Out) -> &'static str {
    match out {
        Out::MinusX => "-x",
        Out::PlusX => "+x",
        Out::MinusY => "-y",
        Out::PlusY => "+y",
        Out::MinusZ => "-z",
        Out::PlusZ => "+z",
    }
}

/// A loop, as a row has it.
fn tell_loop(around: &Loop, told: &mut String) -> Result<(), Fail> {
    for corner in &around.corners {
        write!(told, " {}{}{}", corner.x, corner.y, corner.z)?;
    }
    Ok(())
}

/// A face, as a row has it.
fn tell_face(face: &Face, told: &mut String) -> Result<(), Fail> {
    write!(told, "{}{}", side_name(face.out), face.at)?;
    for (number, around) in face.loops.iter().enumerate() {
        if number > 0 {
            told.push_str(" /")?;
        }
        tell_loop(around, told)?;
    }
    Ok(())
}

/// Faces, as a row has them.
fn told_list(alloc: Global, faces: &[Face]) -> Result<String, Fail> {
    let mut told = String::new(alloc);
    for face in faces {
        if !told.is_empty() {
            told.push_str(", ")?;
        }
        tell_face(face, &mut told)?;
    }
    Ok(told)
}

/// All faces of a row's cells, as the row has them.
fn told_faces(alloc: Global, row: Row<'_>) -> Result<String, Fail> {
    let [sizes, cells, ..] = row.parts;
    let rows = rows_of(alloc, numbers(sizes), cells)?;
    let faces = counted_faces(alloc, &rows)?;
    told_list(alloc, faces.as_slice())
}

#[test]
fn faces_are_those_found_by_hand(rt: HostRuntime) -> Result<(), Fail> {
    rows_tell(SOLIDS, |row| told_faces(rt.alloc(), row))
}

/// Strokes of three views, the cells of their grid that a solid fills, and its faces, as above. It
/// is a hollow cube.
const DRAWN: &str = "\
rect S 0 0 3 3, rect D 1 1 2 2; rect S 0 0 3 3, rect D 1 1 2 2; rect S 0 0 3 3, rect D 1 1 2 2; \
    ######### ####.#### ######### -> -x0 000 003 033 030, -x2 211 212 222 221, \
    +x1 111 121 122 112, +x3 300 330 333 303, -y0 000 300 303 003, -y2 121 221 222 122, \
    +y1 111 112 212 211, +y3 030 033 333 330, -z0 000 030 330 300, -z2 112 122 222 212, \
    +z1 111 211 221 121, +z3 003 303 333 033";

/// The faces of cells of a grid, found cell by cell.
fn by_cells(alloc: Global, grid: &Grid, filled: &str) -> Result<Vec<Face>, Fail> {
    let filled = cells(alloc, filled)?;
    let wanted = grid.sizes().count();
    if filled.len() != wanted {
        return Err(Fail::new("as many cells as the grid has"));
    }
    Ok(faces_of_solid(alloc, grid, filled.as_slice())?)
}

/// These, as a row has them.
fn told_by_cells(alloc: Global, grid: &Grid, filled: &str) -> Result<String, Fail> {
    let faces = by_cells(alloc, grid, filled)?;
    told_list(alloc, faces.as_slice())
}

/// The same, found by rows.
fn told_by_rows(alloc: Global, grid: &Grid, filled: &str) -> Result<String, Fail> {
    let rows = rows_of(alloc, grid.sizes(), filled)?;
    let faces = faces_of_rows(alloc, grid, &rows)?;
    told_list(alloc, faces.as_slice())
}

/// The same, if they are found alike.
fn told_alike(alloc: Global, grid: &Grid, filled: &str) -> Result<String, Fail> {
    let told = told_by_rows(alloc, grid, filled)?;
    let other = told_by_cells(alloc, grid, filled)?;
    if told.as_str() != other.as_str() {
        return Err(Fail::new("other faces by cells"));
    }
    Ok(told)
}

/// The faces of a row's solid, as the row has them.
fn told_solid(alloc: Global, row: Row<'_>) -> Result<String, Fail> {
    let problem = problem_at(alloc, row.views())?;
    told_alike(alloc, problem.grid(), row.parts[3])
}

#[test]
fn faces_of_drawn_solids_are_those_found_by_hand(rt: HostRuntime) -> Result<(), Fail> {
    rows_tell(DRAWN, |row| told_solid(rt.alloc(), row))
}
