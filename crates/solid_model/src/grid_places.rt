//! Grid cells of a view by their places, and their places in a list of all cells.

ghost use Rattle.std.specs.Prelude.{◌≡◌, ◌≤◌};
ghost use Rattle.solid_model.specs.declared.cell.Axis.{Axis};
ghost use Rattle.solid_model.specs.GridPlaces.{place_in, number_on, grid_cell_in};
ghost use Rattle.solid_model.specs.Limits.{most_grid_coordinates};
ghost use Rattle.solid_model.specs.PerAxis.{numbers_of};

use crate::frame::{Direction, Frame};
use crate::per_axis::PerAxis;

/// The number of the grid cell at a place along a direction, where there are so many along each
/// axis.
pub fn number_on(sizes: PerAxis, direction: Direction, place: usize) -> usize
    requires { place ≤ most_grid_coordinates }
    ensures same { result ≡ number_on (numbers_of sizes) direction place }
    ensures few { numbers_of sizes direction.axis ≤ most_grid_coordinates
        → result ≤ most_grid_coordinates }
{
    if direction.forward {
        place
    } else {
        sizes.along(direction.axis).saturating_sub(place + 1)
    }
}

/// The grid cell at a place to the right, upwards and away, where there are so many along each
/// axis.
pub fn cell_in(frame: Frame, sizes: PerAxis, right: usize, up: usize, depth: usize) -> PerAxis
    requires sizes { (a : Axis) → numbers_of sizes a ≤ most_grid_coordinates }
    requires right { right ≤ most_grid_coordinates }
    requires up { up ≤ most_grid_coordinates }
    requires depth { depth ≤ most_grid_coordinates }
    ensures same { numbers_of result ≡ grid_cell_in frame (numbers_of sizes) right up depth }
    ensures few { (a : Axis) → numbers_of result a ≤ most_grid_coordinates }
{
    PerAxis::FIRST
        .numbered(frame.away.axis, number_on(sizes, frame.away, depth))
        .numbered(frame.up.axis, number_on(sizes, frame.up, up))
        .numbered(frame.right.axis, number_on(sizes, frame.right, right))
}

/// The place of a grid cell in a list of all of them, z slowest and x fastest.
pub fn place_of_cell(sizes: PerAxis, cell: PerAxis) -> usize
    requires sizes { (a : Axis) → numbers_of sizes a ≤ most_grid_coordinates }
    requires cell { (a : Axis) → numbers_of cell a ≤ most_grid_coordinates }
    ensures same { result ≡ place_in (numbers_of sizes) (numbers_of cell) }
    ensures few { result ≤ 266304 }
{
    (cell.z * sizes.y + cell.y) * sizes.x + cell.x
}
