//! The grid of a drawing.

ghost use Rattle.std.specs.Prelude.{◌≡◌, ℕ, IfOk, IsErrOf};
ghost use Rattle.solid_model.specs.declared.cell.Axis.{Axis};
ghost use Rattle.solid_model.specs.declared.fault.Fault.{Fault};
ghost use Rattle.solid_model.specs.Grid.{IsFirstTooFine};
ghost use Rattle.solid_model.specs.Panels.{IsGridOf};
ghost use Rattle.solid_model.specs.Runs.{style_in};

use crate::coordinates::Coordinates;
use crate::panels::panels_of;
use solid_model::{Drawing, Grid, Refused};
use std::alloc::Global;

/// The grid of a drawing: along each axis the positions at which it shows something, and the styles
/// of the segments between them. The first axis, in the order x, y, z, that has more than 64 grid
/// coordinates is the fault TooFine, with their number; Memory comes when out of memory. The time
/// grows as n log n in the number of runs, whatever their lengths, and the memory is a small
/// constant times their number.
pub fn grid_of(alloc: Global, drawing: &Drawing) -> Result<Grid, Refused>
    ensures grid { IfOk result (IsGridOf (style_in drawing.now)) }
    ensures fault { (fault : Fault) → IsErrOf result (Refused.Fault fault)
        → (a : Axis) × (count : ℕ) × (fault ≡ Fault.TooFine a count)
        × IsFirstTooFine (style_in drawing.now) a count }
{
    let coordinates = Coordinates::of_drawing(alloc, drawing)?;
    let panels = panels_of(alloc, drawing, &coordinates)?;
    let Coordinates { xs, ys, zs } = coordinates;
    Ok(Grid::new(xs, ys, zs, panels))
}
