//! What bars the ways back from a cell.

ghost use Rattle.std.specs.Prelude.{◌≡◌};
ghost use Rattle.flood.specs.Passages.{bar_along};

use solid_model::Axis;

/// Whether something bars the way back from a cell, along each axis.
#[derive(Clone, Copy)]
pub struct CellBars {
    pub x: bool,
    pub y: bool,
    pub z: bool,
}

impl CellBars {
    /// Whether it does along an axis.
    pub fn along(self, axis: Axis) -> bool
        ensures { result ≡ bar_along axis self }
    {
        match axis {
            Axis::X => self.x,
            Axis::Y => self.y,
            Axis::Z => self.z,
        }
    }
}
