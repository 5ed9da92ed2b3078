//! The columns of a grid's cells in the three views.

ghost use Rattle.std.specs.Prelude.{◌≡◌, ◌≤◌, false, slice_index_or, ℤ, IfOk};
ghost use Rattle.solid_model.specs.declared.cell.Axis.{Axis};
ghost use Rattle.solid_model.specs.Frames.{frame_of};
ghost use Rattle.solid_model.specs.Limits.{most_grid_coordinates};
ghost use Rattle.solid_model.specs.PerAxis.{numbers_of};
ghost use Rattle.lemmas.specs.Bits.{bits};
ghost use Rattle.solid_model.specs.GridPlaces.{place_in};
ghost use Rattle.column_laws.specs.GridColumns.{grid_column};
ghost use Rattle.columns.specs.ColumnLists.{AreColumns};

use column_lanes::Column;
use solid_model::{Frame, Memory, PerAxis, cell_in, place_of_cell};
use std::alloc::Global;

/// The grid cell is chosen, in a list of all of them with z slowest and x fastest.
fn is_chosen(cells: &[bool], sizes: PerAxis, cell: PerAxis) -> bool
    requires sizes { (a : Axis) → numbers_of sizes a ≤ most_grid_coordinates }
    requires cell { (a : Axis) → numbers_of cell a ≤ most_grid_coordinates }
    ensures { result
        ≡ slice_index_or cells.now (place_in (numbers_of sizes) (numbers_of cell)) false }
{
    let place = place_of_cell(sizes, cell);
    place < cells.len() && cells[place]
}

/// The column at a place to the right and upwards.
fn column_of(frame: Frame, sizes: PerAxis, cells: &[bool], right: usize, up: usize) -> Column
    requires sizes { (a : Axis) → numbers_of sizes a ≤ most_grid_coordinates }
    requires right { right ≤ most_grid_coordinates }
    requires up { up ≤ most_grid_coordinates }
    ensures { (k : ℤ) → bits result.0 k
        ≡ grid_column frame (numbers_of sizes) cells.now right up k }
{
    let mut column: u64 = 0;
    for depth in 0..sizes.along(frame.away.axis) {
        if is_chosen(cells, sizes, cell_in(frame, sizes, right, up, depth)) {
            column |= 1 << depth;
        }
    }
    Column(column)
}

/// The columns of a view, by place upwards, then to the right.
pub fn view_columns(
    alloc: Global,
    frame: Frame,
    sizes: PerAxis,
    cells: &[bool],
) -> Result<Vec<Column>, Memory>
    requires { (a : Axis) → numbers_of sizes a ≤ most_grid_coordinates }
    ensures { IfOk result (λ columns. AreColumns frame (numbers_of sizes) cells.now columns.items) }
{
    let width = sizes.along(frame.right.axis);
    let height = sizes.along(frame.up.axis);
    let mut columns = Vec::new(alloc);
    for place in 0..height * width {
        columns.push(column_of(frame, sizes, cells, place % width, place / width))?;
    }
    Ok(columns)
}
