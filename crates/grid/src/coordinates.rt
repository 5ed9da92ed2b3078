//! The grid coordinates of a drawing along the three axes.

ghost use Rattle.std.specs.Prelude.{◌≡◌, ◌≤◌, ℕ, length, IfOk, IsErrOf};
ghost use Rattle.solid_model.specs.declared.fault.Fault.{Fault};
ghost use Rattle.solid_model.specs.Grid.{AreGridCoordinates, IsTooFine, IsFirstTooFine};
ghost use Rattle.solid_model.specs.Limits.{most_grid_coordinates};
ghost use Rattle.solid_model.specs.Runs.{IsDrawing, style_in};
ghost use Rattle.grid.specs.AxisCoordinates.{AreFewCoordinates};

use crate::positions::grid_coordinates;
use solid_model::{Axis, Drawing, Fault, Refused};
use std::alloc::Global;

/// The most grid coordinates of an axis.
const MOST_COORDINATES: usize = 64;

/// The grid coordinates of an axis, if they are few enough.
fn few_coordinates(alloc: Global, drawing: &Drawing, axis: Axis) -> Result<Vec<i64>, Refused>
    ensures coordinates { IfOk result (λ zs.
        AreFewCoordinates (style_in drawing.now) axis zs.items) }
    ensures kept { IsDrawing (style_in drawing.now) }
    ensures fault { (fault : Fault) → IsErrOf result (Refused.Fault fault)
        → (count : ℕ) × (fault ≡ Fault.TooFine axis count)
        × IsTooFine (style_in drawing.now) axis count }
{
    let coordinates = grid_coordinates(alloc, drawing, axis)?;
    if coordinates.len() > MOST_COORDINATES {
        let count = coordinates.len() as u32;
        return Err(Refused::Fault(Fault::TooFine { axis, count }));
    }
    Ok(coordinates)
}

/// The grid coordinates along the three axes.
#[derive(Debug, Drop)]
pub struct Coordinates {
    pub xs: Vec<i64>,
    pub ys: Vec<i64>,
    pub zs: Vec<i64>,
}

impl Coordinates {
    ghost use Rattle.std.specs.Prelude.{◌≡◌, ℕ, IfOk, IsErrOf};
    ghost use Rattle.solid_model.specs.declared.cell.Axis.{Axis};
    ghost use Rattle.solid_model.specs.declared.fault.Fault.{Fault};
    ghost use Rattle.solid_model.specs.Grid.{IsFirstTooFine};
    ghost use Rattle.solid_model.specs.Runs.{IsDrawing, style_in};
    ghost use Rattle.grid.specs.AxisCoordinates.{coordinates_in, AreFewCoordinates};

    /// The grid coordinates of a drawing.
    pub fn of_drawing(alloc: Global, drawing: &Drawing) -> Result<Coordinates, Refused>
        ensures coordinates { IfOk result (λ own. (a : Axis)
            → AreFewCoordinates (style_in drawing.now) a (coordinates_in own a)) }
        ensures kept { IsDrawing (style_in drawing.now) }
        ensures fault { (fault : Fault) → IsErrOf result (Refused.Fault fault)
            → (a : Axis) × (count : ℕ) × (fault ≡ Fault.TooFine a count)
            × IsFirstTooFine (style_in drawing.now) a count }
    {
        let xs = few_coordinates(alloc, drawing, Axis::X)?;
        let ys = few_coordinates(alloc, drawing, Axis::Y)?;
        let zs = few_coordinates(alloc, drawing, Axis::Z)?;
        Ok(Coordinates { xs, ys, zs })
    }

    /// Those along an axis.
    pub fn along(&self, axis: Axis) -> &[i64]
        ensures { result.now ≡ coordinates_in self.now axis }
    {
        match axis {
            Axis::X => self.xs.as_slice(),
            Axis::Y => self.ys.as_slice(),
            Axis::Z => self.zs.as_slice(),
        }
    }
}
