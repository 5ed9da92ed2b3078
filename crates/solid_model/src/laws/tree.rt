//! Laws of the tree of prefixes.

ghost use Rattle.std.specs.Prelude.{◌≡◌, Bool, List, [], ◌∷◌, ℕ, Option};
ghost use Rattle.solid_model.specs.declared.cell.Cell.{Cell};
ghost use Rattle.solid_model.specs.declared.segment.Segment.{Segment};
ghost use Rattle.solid_model.specs.declared.segment.Style.{Style};
ghost use Rattle.solid_model.specs.Blocks.{AreBlocksOf};
ghost use Rattle.solid_model.specs.Choices.{AreChoicesThat, IsMatchingChoice, AreSolidsOfChoices};
ghost use Rattle.solid_model.specs.Matching.{AreSolidsOf};
ghost use Rattle.solid_model.specs.Panels.{GridParts, coordinates_of, IsGridOf};
ghost use Rattle.solid_model.specs.SmallTree.{not_both_empty, nothing_said, first_full, both_full, only_first_full, first_empty, only_second_full};
ghost use Rattle.solid_model.specs.Tree.{KeepsMatching, live_from, live_count, live_below, opened_of, found_of, rest_of};

/// The tree is complete, whatever test "live" keeps to what matches: the live prefixes of full
/// length that begin with the empty prefix are exactly all matching solids, choice by choice, in
/// order.
pub fn the_tree_is_complete()
    ensures choices { (drawing : Segment → Style) (g : GridParts) → IsGridOf drawing g
        → (blocks : List (Option ℕ)) (count : ℕ) → (live : List Bool → Bool)
        → KeepsMatching live count (IsMatchingChoice drawing (coordinates_of g) blocks)
        → AreChoicesThat (IsMatchingChoice drawing (coordinates_of g) blocks) count
        (live_below live count []) }
    ensures solids { (drawing : Segment → Style) (g : GridParts) → IsGridOf drawing g
        → (blocks : List (Option ℕ)) (count : ℕ) → AreBlocksOf g blocks count
        → (live : List Bool → Bool)
        → KeepsMatching live count (IsMatchingChoice drawing (coordinates_of g) blocks)
        → (ss : List (List Cell)) × AreSolidsOf drawing ss
        × AreSolidsOfChoices (coordinates_of g) blocks count (live_below live count []) ss }
{}

/// A tree that can be checked by hand, of two blocks that may not both be empty: the live prefixes
/// in their order, their number, those of full length, and the reports of the first two of them
/// and of the first three.
pub fn small_tree()
    ensures tree { live_from not_both_empty 2 [] ≡ nothing_said ∷ first_full ∷ both_full
        ∷ only_first_full ∷ first_empty ∷ only_second_full ∷ [] }
    ensures number { live_count not_both_empty 2 [] ≡ 6 }
    ensures choices { live_below not_both_empty 2 []
        ≡ both_full ∷ only_first_full ∷ only_second_full ∷ [] }
    ensures two_opened { opened_of not_both_empty 2 [] 2 ≡ nothing_said ∷ first_full ∷ [] }
    ensures two_found { found_of not_both_empty 2 [] 2 ≡ [] }
    ensures two_rest { rest_of not_both_empty 2 [] 2
        ≡ both_full ∷ only_first_full ∷ first_empty ∷ [] }
    ensures three_opened { opened_of not_both_empty 2 [] 3
        ≡ nothing_said ∷ first_full ∷ both_full ∷ [] }
    ensures three_found { found_of not_both_empty 2 [] 3 ≡ both_full ∷ [] }
    ensures three_rest { rest_of not_both_empty 2 [] 3 ≡ only_first_full ∷ first_empty ∷ [] }
{}
