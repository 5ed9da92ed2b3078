//! Laws of the enclosed components of a box.

ghost use Rattle.std.specs.Prelude.{◌≡◌, Bool, ℕ, List, Option, IsTrue};
ghost use Rattle.solid_model.specs.declared.cell.Axis.{Axis};
ghost use Rattle.solid_model.specs.declared.cell.Cell.{Cell};
ghost use Rattle.solid_model.specs.Blocks.{AreBlocksOf};
ghost use Rattle.solid_model.specs.Panels.{GridParts};
ghost use Rattle.solid_model.specs.WalledBoxes.{Sizes, AreEnclosed};

/// The enclosed components of a box have one numbering: by their first cells, in the order of
/// cells. So have the blocks of a grid.
pub fn one_numbering_of_components()
    ensures enclosed { (sizes : Sizes) (wall : Axis → Cell → Bool)
        (numbers others : List (Option ℕ)) (count many : ℕ) → AreEnclosed sizes (λ a n. IsTrue (wall a n)) numbers count
        → AreEnclosed sizes (λ a n. IsTrue (wall a n)) others many
        → (numbers ≡ others) × (count ≡ many) }
    ensures blocks { (g : GridParts) (numbers others : List (Option ℕ)) (count many : ℕ)
        → AreBlocksOf g numbers count → AreBlocksOf g others many
        → (numbers ≡ others) × (count ≡ many) }
{}
