//! The triangles of a solid's boundary.

ghost use Rattle.std.specs.Prelude.{◌≡◌, IfOk};
ghost use Rattle.face_laws.specs.GridFaces.{numbered_fullness};
ghost use Rattle.solid_model.specs.Choices.{cells_of_choice};
ghost use Rattle.lemmas.specs.Lists.{Each};
ghost use Rattle.solid_model.specs.Panels.{coordinates_of};
ghost use Rattle.stl_out.specs.Numbered.{IsOfGrid};
ghost use Rattle.stl_out.specs.Rectangles.{AreRectanglesOf, AreTrianglesOf};

use crate::halves::halves;
use crate::rectangle::Rectangle;
use crate::triangle::Triangle;
use crate::walk::boundary_rectangles;
use cell_rows::CellRows;
use solid_model::{Choice, Marks, Memory, Problem};
use std::alloc::Global;

/// The boundary rectangles of the solid that a choice of a problem's blocks fills, in order.
pub fn rectangles_of(
    alloc: Global,
    problem: &Problem,
    choice: &Choice,
) -> Result<Vec<Rectangle>, Memory>
    ensures all { IfOk result (λ rectangles. AreRectanglesOf
        (numbered_fullness (coordinates_of problem.now.grid)
        (cells_of_choice problem.now.blocks.numbers choice.now)) rectangles.items) }
    ensures numbered { IfOk result (λ rectangles.
        Each (IsOfGrid (coordinates_of problem.now.grid)) rectangles.items) }
{
    let cells = problem.cells(alloc, choice)?;
    let marks = Marks::new(problem.grid().sizes(), cells);
    let rows = CellRows::of(alloc, &marks)?;
    boundary_rectangles(alloc, &rows)
}

/// The triangles of the boundary of the solid that a choice of a problem's blocks fills: two for
/// each grid face between a full and an empty grid cell, in the order of outward side (-x, +x, -y,
/// +y, -z, +z), plane, and least corner by z, y, x. An `Err` is out of memory.
pub fn triangles(alloc: Global, problem: &Problem, choice: &Choice) -> Result<Vec<Triangle>, Memory>
    ensures { IfOk result (λ triangles. AreTrianglesOf (coordinates_of problem.now.grid)
        (cells_of_choice problem.now.blocks.numbers choice.now) triangles.items) }
{
    let rectangles = rectangles_of(alloc, problem, choice)?;
    let mut triangles = Vec::with_capacity(alloc, rectangles.len().saturating_mul(2))?;
    for rectangle in &rectangles {
        triangles.extend_from_slice(&halves(problem.grid(), rectangle))?;
    }
    Ok(triangles)
}
