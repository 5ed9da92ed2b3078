//! The law of volumes.

ghost use Rattle.std.specs.Prelude.{◌≡◌, Bool, List, length, ◌<ℤ◌};
ghost use Rattle.solid_model.specs.declared.cell.Axis.{Axis};
ghost use Rattle.solid_model.specs.declared.cell.Cell.{Cell};
ghost use Rattle.solid_model.specs.Cells.{is_full};
ghost use Rattle.solid_model.specs.Grid.{Coordinates, IsUnionOf};
ghost use Rattle.lemmas.specs.Lists.{Ascends};
ghost use Rattle.solid_model.specs.Orders.{IsInStatedForm};
ghost use Rattle.solid_model.specs.Volumes.{volume_of};

/// The volume of a union of grid cells is the number of its unit cells.
pub fn volumes_count_unit_cells()
    ensures { (coordinates : Coordinates) → ((a : Axis) → Ascends ◌<ℤ◌ (coordinates a))
        → (chosen : List Bool) (s : List Cell) → IsInStatedForm s
        → IsUnionOf coordinates chosen (is_full s) → length s ≡ volume_of coordinates chosen }
{}
