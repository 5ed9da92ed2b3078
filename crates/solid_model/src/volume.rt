//! Volumes of unions of grid cells.
//!
//! They are added in 128 bits, which 250,047 cells of at most 2,000,000,000 units along each axis
//! can't overflow.

ghost use Rattle.std.specs.Prelude.{◌≡◌, ◌≤◌, false, slice_index_or, IsTrue};
ghost use Rattle.solid_model.specs.Choices.{cells_of_choice};
ghost use Rattle.solid_model.specs.Panels.{coordinates_of};
ghost use Rattle.solid_model.specs.PerAxis.{numbers_of, cell_of};
ghost use Rattle.solid_model.specs.WalledBoxes.{is_within};
ghost use Rattle.solid_model.specs.Volumes.{grid_cell_volume, volume_of};
ghost use Rattle.solid_model.specs.GridBox.{grid_sizes};

use crate::cell::Axis;
use crate::choice::Choice;
use crate::grid::Grid;
use crate::per_axis::PerAxis;

/// The volume of a grid cell, by its numbers along the axes.
pub fn cell_volume(grid: &Grid, cell: PerAxis) -> u128
    requires { IsTrue (is_within (grid_sizes grid.now) (cell_of cell)) }
    ensures volume { result ≡ grid_cell_volume (coordinates_of grid.now) (numbers_of cell) }
    ensures small { result ≤ 8000000000000000000000000000 }
{
    let width = u128::from(grid.gap_width(Axis::X, cell.x));
    let depth = u128::from(grid.gap_width(Axis::Y, cell.y));
    let height = u128::from(grid.gap_width(Axis::Z, cell.z));
    width * depth * height
}

/// Whether a choice fills the grid cell at a place.
fn is_filled(items: &[Option<u16>], choice: &Choice, place: usize) -> bool
    ensures { result ≡ slice_index_or (cells_of_choice items.now choice.now) place false }
{
    place < items.len() && choice.fills(items[place])
}

/// How many unit cells there are in the grid cells that a choice fills, where each grid cell, z
/// slowest and x fastest, belongs to an item or to none.
pub fn chosen_volume(grid: &Grid, items: &[Option<u16>], choice: &Choice) -> u128
    ensures { result ≡ volume_of (coordinates_of grid.now) (cells_of_choice items.now choice.now) }
{
    let sizes = grid.sizes();
    let mut volume = 0;
    for place in 0..grid.cell_count() {
        if is_filled(items, choice, place) {
            volume += cell_volume(grid, sizes.cell(place));
        }
    }
    volume
}
