//! No solid lacks a written file.

ghost use Rattle.std.specs.Prelude.{List, ℕ};
ghost use Rattle.solid_model.specs.declared.cell.Cell.{Cell};
ghost use Rattle.solid_model.specs.Cells.{IsSolid};
ghost use Rattle.redraw.specs.Files.{IsFileOf};

/// It can't be that a solid has no written file. (So the clauses that ask for one ask for nothing
/// that can't be given.)
pub fn no_solid_lacks_a_file()
    ensures { (s : List Cell) → IsSolid s → (decimals : ℕ)
        → ((text : List ℕ) → IsFileOf decimals s text → ⊥) → ⊥ }
{}
