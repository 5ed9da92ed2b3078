//! What two views leave of small problems.

ghost use Rattle.std.specs.Prelude.{◌≡◌, [], ◌∷◌, codes};
ghost use Rattle.solid_model.specs.Forcing.{is_live};
ghost use Rattle.solid_model.specs.Tree.{live_below, live_count};
ghost use Rattle.two_view_laws.specs.SmallTwoViews.{told_choice, cube_without_top, quartered_without_front, quartered_without_top, quartered_without_side, step_without_side, bar_without_side};

/// The live prefixes of small problems by two views, and those of full length, which are the choices
/// of their solids: the unit cube; the quartered cube without each of its views, of whose 256 sets
/// of cells four show the other two; a step, three wide, whose height the side alone shows; and a
/// bar with a hidden edge.
pub fn small_two_views()
    ensures cube { live_below (is_live cube_without_top) 1 [] ≡ told_choice (codes "1") ∷ [] }
    ensures cube_nodes { live_count (is_live cube_without_top) 1 [] ≡ 2 }
    ensures front { live_below (is_live quartered_without_front) 8 []
        ≡ told_choice (codes "11101001") ∷ told_choice (codes "10110110")
        ∷ told_choice (codes "10010110") ∷ told_choice (codes "01101001") ∷ [] }
    ensures front_nodes { live_count (is_live quartered_without_front) 8 [] ≡ 30 }
    ensures top { live_below (is_live quartered_without_top) 8 []
        ≡ told_choice (codes "10110110") ∷ told_choice (codes "10010110")
        ∷ told_choice (codes "01101011") ∷ told_choice (codes "01101001") ∷ [] }
    ensures top_nodes { live_count (is_live quartered_without_top) 8 [] ≡ 25 }
    ensures side { live_below (is_live quartered_without_side) 8 []
        ≡ told_choice (codes "10110110") ∷ told_choice (codes "10010110")
        ∷ told_choice (codes "01111001") ∷ told_choice (codes "01101001") ∷ [] }
    ensures side_nodes { live_count (is_live quartered_without_side) 8 [] ≡ 28 }
    ensures step { live_below (is_live step_without_side) 4 []
        ≡ told_choice (codes "1101") ∷ told_choice (codes "1001")
        ∷ told_choice (codes "0110") ∷ [] }
    ensures step_nodes { live_count (is_live step_without_side) 4 [] ≡ 12 }
    ensures bar { live_below (is_live bar_without_side) 3 [] ≡ told_choice (codes "111") ∷ [] }
    ensures bar_nodes { live_count (is_live bar_without_side) 3 [] ≡ 4 }
{}
