//! The walk over the boundary rectangles of marked cells, in order.

ghost use Rattle.std.specs.Prelude.{◌≡◌, ◌++◌, ◌≤◌, pos, OnOk, IfOk};
ghost use Rattle.faces.specs.PlaneFaces.{is_up_first};
ghost use Rattle.faces.specs.PlaneSquares.{is_there};
ghost use Rattle.solid_model.specs.Marks.{is_marked};
ghost use Rattle.stl_out.specs.Rectangles.{AreRectanglesOf};
ghost use Rattle.stl_out.specs.Walk.{square_in, at_square, in_row, in_plane, on_side, on_all_sides};

use crate::rectangle::Rectangle;
use cell_rows::CellRows;
use faces::{Squares, plane_squares};
use solid_model::{Memory, Out};
use std::alloc::Global;

/// Whether a plane's rows lie side by side upwards: the axis that runs upwards is the later one.
fn is_up_first(out: Out) -> bool
    ensures { result ≡ is_up_first out }
{
    match out {
        Out::PlusX | Out::MinusY | Out::PlusZ => true,
        Out::MinusX | Out::PlusY | Out::MinusZ => false,
    }
}

/// Puts the rectangle of a row's square at the end of the list, if it is there.
fn add_square(
    squares: &Squares,
    out: Out,
    at: usize,
    row: usize,
    place: usize,
    rectangles: &mut Vec<Rectangle>,
) -> Result<(), Memory>
    requires at { at ≤ 1024 }
    requires row { row ≤ 1024 }
    requires place { place ≤ 1024 }
    ensures { OnOk result (rectangles.new.items ≡ rectangles.old.items
        ++ at_square (is_there squares.now) out (pos at) (square_in out row place)) }
{
    let (right, up) = if is_up_first(out) {
        (place, row)
    } else {
        (row, place)
    };
    if squares.has(right, up) {
        rectangles.push(Rectangle {
            out,
            at: at as i64,
            right: right as i64,
            up: up as i64,
        })?;
    }
    Ok(())
}

/// Puts the rectangles of a row of so many squares at the end of the list.
fn add_row(
    squares: &Squares,
    out: Out,
    at: usize,
    count: usize,
    row: usize,
    rectangles: &mut Vec<Rectangle>,
) -> Result<(), Memory>
    requires at { at ≤ 1024 }
    requires count { count ≤ 1024 }
    requires row { row ≤ 1024 }
    ensures { OnOk result (rectangles.new.items ≡ rectangles.old.items
        ++ in_row (is_there squares.now) out (pos at) count row) }
{
    for place in 0..count {
        add_square(squares, out, at, row, place, rectangles)?;
    }
    Ok(())
}

/// Puts those of a plane at the end of the list, row by row.
fn add_plane(
    alloc: Global,
    cells: &CellRows,
    out: Out,
    at: usize,
    rectangles: &mut Vec<Rectangle>,
) -> Result<(), Memory>
    requires { at ≤ 1024 }
    ensures { OnOk result (rectangles.new.items ≡ rectangles.old.items
        ++ in_plane cells.now out at) }
{
    let squares = plane_squares(alloc, cells, out, at)?;
    let (along, across) = if is_up_first(out) {
        (out.right(), out.up())
    } else {
        (out.up(), out.right())
    };
    let count = cells.sizes().along(along);
    for row in 0..cells.sizes().along(across) {
        add_row(&squares, out, at, count, row, rectangles)?;
    }
    Ok(())
}

/// Puts the rectangles of one outward side at the end of the list, plane by plane.
fn add_side(
    alloc: Global,
    cells: &CellRows,
    out: Out,
    rectangles: &mut Vec<Rectangle>,
) -> Result<(), Memory>
    ensures { OnOk result (rectangles.new.items ≡ rectangles.old.items
        ++ on_side cells.now out) }
{
    let planes = cells.sizes().along(out.direction().axis) + 1;
    for at in 0..planes {
        add_plane(alloc, cells, out, at, rectangles)?;
    }
    Ok(())
}

/// The boundary rectangles of the solid whose cells have marks, in order, in time that grows with
/// the box of the marks. An `Err` is out of memory.
pub fn boundary_rectangles(alloc: Global, cells: &CellRows) -> Result<Vec<Rectangle>, Memory>
    ensures walked { IfOk result (λ rectangles. rectangles.items ≡ on_all_sides cells.now) }
    ensures all { IfOk result (λ rectangles.
        AreRectanglesOf (is_marked cells.now) rectangles.items) }
{
    let mut rectangles = Vec::new(alloc);
    for out in Out::ALL {
        add_side(alloc, cells, out, &mut rectangles)?;
    }
    Ok(rectangles)
}
