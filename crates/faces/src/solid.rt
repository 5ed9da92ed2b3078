//! The face list of a solid.

ghost use Rattle.std.specs.Prelude.{◌≡◌, Bool, length, IfOk};
ghost use Rattle.solid_model.specs.declared.cell.Cell.{Cell};
ghost use Rattle.solid_model.specs.Faces.{AreFacesOf};
ghost use Rattle.solid_model.specs.Grid.{IsUnionOf, grid_cell_count};
ghost use Rattle.solid_model.specs.GridBox.{grid_sizes};
ghost use Rattle.solid_model.specs.Panels.{coordinates_of};
ghost use Rattle.solid_model.specs.PerAxis.{numbers_of};

use crate::counted::counted_faces;
use crate::grid_points::put_faces;
use cell_rows::CellRows;
use solid_model::{Face, Grid, Marks, Memory};
use std::alloc::Global;

/// The faces of the union of the marked cells of a grid, in order: by outward side, then plane,
/// then the first corner of their first loop. An `Err` is out of memory.
pub fn faces_of_rows(alloc: Global, grid: &Grid, rows: &CellRows) -> Result<Vec<Face>, Memory>
    requires { numbers_of rows.now.sizes ≡ grid_sizes grid.now }
    ensures { IfOk result (λ faces. (full : Cell → Bool)
        → IsUnionOf (coordinates_of grid.now) rows.now.values full → AreFacesOf full faces.items) }
{
    let mut faces = counted_faces(alloc, rows)?;
    grid.known();
    put_faces(grid, faces.as_mut_slice());
    Ok(faces)
}

/// The faces of the union of the chosen cells of a grid, in the same order. Cells are listed with z
/// slowest and x fastest. An `Err` is out of memory.
pub fn faces_of_solid(alloc: Global, grid: &Grid, cells: &[bool]) -> Result<Vec<Face>, Memory>
    requires { length cells.now ≡ grid_cell_count (coordinates_of grid.now) }
    ensures { IfOk result (λ faces. (full : Cell → Bool)
        → IsUnionOf (coordinates_of grid.now) cells.now full → AreFacesOf full faces.items) }
{
    let mut chosen = Vec::with_capacity(alloc, cells.len())?;
    chosen.extend_from_slice(cells)?;
    let marks = Marks::new(grid.sizes(), chosen);
    let rows = CellRows::of(alloc, &marks)?;
    faces_of_rows(alloc, grid, &rows)
}
