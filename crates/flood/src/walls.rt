//! Boxes with walls.

use solid_model::{Axis, PerAxis};

/// A box of cells, at most 1,022 in a row, and walls: some of the faces between two cells, or
/// between a cell and what is outside.
pub trait Walls {
    ghost use Rattle.std.specs.Prelude.{◌≡◌, ◌≤◌, Bool, IsTrue};
    ghost use Rattle.solid_model.specs.declared.cell.Axis.{Axis};
    ghost use Rattle.solid_model.specs.declared.cell.Cell.{Cell};
    ghost use Rattle.solid_model.specs.PerAxis.{numbers_of, cell_of};
    ghost use Rattle.solid_model.specs.WalledBoxes.{Sizes, face_sizes, is_within};

    /// How many cells stand in a row along each axis.
    ghost sizes: { Self → Sizes };

    /// A wall stands before a cell along an axis.
    ghost stands: { Self → Axis → Cell → Bool };

    /// How many cells stand in a row along each axis.
    fn sizes(&self) -> PerAxis
        ensures sizes { numbers_of result ≡ sizes self.now }
        ensures few { (a : Axis) → numbers_of result a ≤ 1022 };

    /// A wall stands before a cell along an axis. It is asked of the box's cells, and of those
    /// right behind the last of a row.
    fn stands(&self, axis: Axis, cell: PerAxis) -> bool
        requires { IsTrue (is_within (face_sizes (sizes self.now) axis) (cell_of cell)) }
        ensures { result ≡ stands self.now axis (cell_of cell) };
}
