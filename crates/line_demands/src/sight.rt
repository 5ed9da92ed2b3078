//! The cells of a column, in a list of all cells of a grid.

ghost use Rattle.std.specs.Prelude.{◌≡◌, ◌≤◌};
ghost use Rattle.solid_model.specs.declared.cell.Axis.{Axis};
ghost use Rattle.solid_model.specs.PerAxis.{numbers_of};
ghost use Rattle.line_demands.specs.Sight.{first_place, step_away};

use solid_model::{Frame, PerAxis, place_of_cell};

/// Where the cells of a column stand in a list of all cells, z slowest and x fastest: the one whose
/// number along the axis of sight is 0, and how far apart neighbours are.
#[derive(Clone, Copy, Debug)]
pub struct ColumnCells {
    pub first: usize,
    pub step: usize,
}

/// Where the cells of the column stand that has these places to the right and upwards, both of
/// which are counted as their axes go.
pub fn cells_of_column(sizes: PerAxis, frame: Frame, right: usize, up: usize) -> ColumnCells
    requires few { (a : Axis) → numbers_of sizes a ≤ 63 }
    requires right { right ≤ 64 }
    requires up { up ≤ 64 }
    ensures first { result.first ≡ first_place (numbers_of sizes) frame right up }
    ensures step { result.step ≡ step_away (numbers_of sizes) frame }
    ensures few_first { result.first ≤ 266304 }
    ensures few_step { result.step ≤ 266304 }
{
    let first = PerAxis::FIRST
        .numbered(frame.up.axis, up)
        .numbered(frame.right.axis, right);
    let next = PerAxis::FIRST.numbered(frame.away.axis, 1);
    ColumnCells {
        first: place_of_cell(sizes, first),
        step: place_of_cell(sizes, next),
    }
}
