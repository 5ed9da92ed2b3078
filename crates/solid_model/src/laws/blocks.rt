//! Laws of the blocks of a grid.

ghost use Rattle.std.specs.Prelude.{◌≡◌, Bool, false, ℕ, List, Option, IsTrue};
ghost use Rattle.solid_model.specs.declared.cell.Axis.{Axis};
ghost use Rattle.solid_model.specs.declared.cell.Cell.{Cell};
ghost use Rattle.solid_model.specs.declared.segment.Segment.{Segment};
ghost use Rattle.solid_model.specs.declared.segment.Style.{Style};
ghost use Rattle.solid_model.specs.Blocks.{Joined, IsOutside, AreBlocksOf};
ghost use Rattle.solid_model.specs.Cells.{cell_before, is_full};
ghost use Rattle.solid_model.specs.Choices.{AreChoicesThat, IsMatchingChoice, AreSolidsOfChoices};
ghost use Rattle.solid_model.specs.Edges.{is_edge};
ghost use Rattle.solid_model.specs.Grid.{LiesInGridCell};
ghost use Rattle.solid_model.specs.Matching.{Matches, AreSolidsOf};
ghost use Rattle.solid_model.specs.Panels.{GridParts, coordinates_of, IsGridOf};
ghost use Rattle.solid_model.specs.WalledBoxes.{is_within};
ghost use Rattle.solid_model.specs.VirtualFaces.{IsVirtual};
ghost use Rattle.solid_model.specs.Wire.{is_pseudo_edge};
ghost use Rattle.solid_model.specs.GridBox.{grid_sizes, grid_cell_of, IsGridFullness};

/// A solid that matches a drawing is made of blocks of the drawing's grid. Counted in grid cells,
/// each edge of the solid is a pseudo edge: both views that show it as a segment draw it, and
/// where the third view sees it as a point, edges across its line begin or end, which that view
/// draws. So each face of the solid is a virtual face: from a face that isn't, a chain crosses
/// edges that aren't edges of the solid until it has left the box, and along it the cells on both
/// sides agree. So cells of one block are all full or all empty, and those outside are empty.
pub fn matching_solids_are_constant_on_blocks()
    ensures counted { (drawing : Segment → Style) (g : GridParts) → IsGridOf drawing g
        → (s : List Cell) → Matches drawing s
        → (full : Cell → Bool) × IsGridFullness g s full }
    ensures edges { (drawing : Segment → Style) (g : GridParts) → IsGridOf drawing g
        → (s : List Cell) → Matches drawing s
        → (full : Cell → Bool) → IsGridFullness g s full
        → (a : Axis) (n : Cell) → IsTrue (is_edge full a n) → IsTrue (is_pseudo_edge g a n) }
    ensures faces { (drawing : Segment → Style) (g : GridParts) → IsGridOf drawing g
        → (s : List Cell) → Matches drawing s
        → (full : Cell → Bool) → IsGridFullness g s full
        → (a : Axis) (n : Cell) → (IsVirtual g a n → ⊥) → full n ≡ full (cell_before a n) }
    ensures joined { (drawing : Segment → Style) (g : GridParts) → IsGridOf drawing g
        → (s : List Cell) → Matches drawing s
        → (n m c d : Cell)
        → IsTrue (is_within (grid_sizes g) n) → IsTrue (is_within (grid_sizes g) m)
        → Joined g n m
        → LiesInGridCell (coordinates_of g) (grid_cell_of n) c
        → LiesInGridCell (coordinates_of g) (grid_cell_of m) d
        → is_full s c ≡ is_full s d }
    ensures outside { (drawing : Segment → Style) (g : GridParts) → IsGridOf drawing g
        → (s : List Cell) → Matches drawing s
        → (n c : Cell) → IsTrue (is_within (grid_sizes g) n) → IsOutside g n
        → LiesInGridCell (coordinates_of g) (grid_cell_of n) c
        → is_full s c ≡ false }
{}

/// All choices of a grid's blocks that match the drawing are all solids that match it, one for each
/// choice, and they come in the same order.
pub fn all_matching_choices_are_all_matching_solids()
    ensures { (drawing : Segment → Style) (g : GridParts) → IsGridOf drawing g
        → (blocks : List (Option ℕ)) (count : ℕ) → AreBlocksOf g blocks count
        → (choices : List (List Bool))
        → AreChoicesThat (IsMatchingChoice drawing (coordinates_of g) blocks) count choices
        → (ss : List (List Cell)) × AreSolidsOf drawing ss
        × AreSolidsOfChoices (coordinates_of g) blocks count choices ss }
{}
