//! Laws of the drawing of a solid.

ghost use Rattle.std.specs.Prelude.{◌≡◌, Bool, true, false, List, [], ◌∷◌, pos};
ghost use Rattle.solid_model.specs.declared.cell.Cell.{Cell};
ghost use Rattle.solid_model.specs.declared.frame.Frame.{Frame};
ghost use Rattle.solid_model.specs.declared.frame.View.{View};
ghost use Rattle.solid_model.specs.declared.frame.View.TheVariants.{Front, Top, Side};
ghost use Rattle.solid_model.specs.declared.segment.Segment.{Segment};
ghost use Rattle.solid_model.specs.declared.segment.Style.{Style};
ghost use Rattle.solid_model.specs.declared.segment.Style.TheVariants.{Blank, Dashed, Solid};
ghost use Rattle.solid_model.specs.Cells.{is_full, SameCells};
ghost use Rattle.solid_model.specs.Columns.{column_after, column_before, ColumnsDraw};
ghost use Rattle.solid_model.specs.Draws.{Draws};
ghost use Rattle.solid_model.specs.DrawnStyle.{drawn_style, solid_drawing};
ghost use Rattle.solid_model.specs.Edges.{is_edge_of};
ghost use Rattle.solid_model.specs.Frames.{IsFrame, frame_of};
ghost use Rattle.lemmas.specs.Lists.{Each};
ghost use Rattle.solid_model.specs.SmallSolids.{unit_cube, cubes_along_edge, three_cubes, third_behind, third_before, five_of_eight, four_of_eight, other_four_of_eight, styles_near_zero, none_drawn, four_quarters};

/// The drawing of a solid gives each unit segment exactly one style, which can be computed: in each
/// frame, of which the three views are some.
pub fn each_segment_has_one_style()
    ensures views { (v : View) → IsFrame (frame_of v) }
    ensures some { (f : Frame) → IsFrame f → (s : List Cell) (g : Segment) → (style : Style)
        × Draws f (is_full s) g style }
    ensures one { (f : Frame) (full : Cell → Bool) (g : Segment) (a b : Style) → Draws f full g a
        → Draws f full g b → a ≡ b }
    ensures computed { (f : Frame) → IsFrame f → (s : List Cell) (g : Segment)
        → Draws f (is_full s) g (drawn_style f s g) }
{}

/// The sixteen fillings of the four cells round an edge. No full cell, four of them, and two on one
/// side of a plane make none; one full cell, three, and two that touch along the edge alone make
/// one.
pub fn fillings_round_an_edge()
    ensures none_or_all { is_edge_of false false false false ∷ is_edge_of true true true true
        ∷ [] ≡ false ∷ false ∷ [] }
    ensures flat { is_edge_of true true false false ∷ is_edge_of false false true true
        ∷ is_edge_of true false true false ∷ is_edge_of false true false true ∷ []
        ≡ false ∷ false ∷ false ∷ false ∷ [] }
    ensures one_full { is_edge_of true false false false ∷ is_edge_of false true false false
        ∷ is_edge_of false false true false ∷ is_edge_of false false false true ∷ []
        ≡ true ∷ true ∷ true ∷ true ∷ [] }
    ensures three_full { is_edge_of false true true true ∷ is_edge_of true false true true
        ∷ is_edge_of true true false true ∷ is_edge_of true true true false ∷ []
        ≡ true ∷ true ∷ true ∷ true ∷ [] }
    ensures diagonal { is_edge_of true false false true ∷ is_edge_of false true true false
        ∷ [] ≡ true ∷ true ∷ [] }
{}

/// The column rule, in any frame: a solid draws on a segment what the two columns of cells beside
/// it draw between them.
pub fn column_rule()
    ensures { (f : Frame) → IsFrame f → (s : List Cell) (g : Segment) (style : Style)
        → ColumnsDraw (column_after f (is_full s) g) (column_before f (is_full s) g) style
        → Draws f (is_full s) g style }
{}

/// Small drawings, written out by hand. Lines of level segments are listed upwards, lines of
/// upright ones from the left, at the coordinates from -1 to 2. The unit cube draws a square in
/// each view. Two cubes that touch along an upright edge draw a rectangle with that edge in front
/// and from the side, and two squares that touch from above. Three cubes, with one to the right of
/// the first and one behind it, hide an edge in front, show it from the side, and draw their
/// outline from above.
pub fn small_drawings()
    ensures cube_level { (v : View) → styles_near_zero (solid_drawing unit_cube) v false ≡
        none_drawn
        ∷ (Blank ∷ Solid ∷ Blank ∷ Blank ∷ [])
        ∷ (Blank ∷ Solid ∷ Blank ∷ Blank ∷ [])
        ∷ none_drawn ∷ [] }
    ensures cube_upright { (v : View) → styles_near_zero (solid_drawing unit_cube) v true ≡
        none_drawn
        ∷ (Blank ∷ Solid ∷ Blank ∷ Blank ∷ [])
        ∷ (Blank ∷ Solid ∷ Blank ∷ Blank ∷ [])
        ∷ none_drawn ∷ [] }
    ensures touching_level_front { styles_near_zero (solid_drawing cubes_along_edge) Front false ≡
        none_drawn
        ∷ (Blank ∷ Solid ∷ Solid ∷ Blank ∷ [])
        ∷ (Blank ∷ Solid ∷ Solid ∷ Blank ∷ [])
        ∷ none_drawn ∷ [] }
    ensures touching_upright_front { styles_near_zero (solid_drawing cubes_along_edge) Front true ≡
        none_drawn
        ∷ (Blank ∷ Solid ∷ Blank ∷ Blank ∷ [])
        ∷ (Blank ∷ Solid ∷ Blank ∷ Blank ∷ [])
        ∷ (Blank ∷ Solid ∷ Blank ∷ Blank ∷ []) ∷ [] }
    ensures touching_level_side { styles_near_zero (solid_drawing cubes_along_edge) Side false ≡
        none_drawn
        ∷ (Blank ∷ Solid ∷ Solid ∷ Blank ∷ [])
        ∷ (Blank ∷ Solid ∷ Solid ∷ Blank ∷ [])
        ∷ none_drawn ∷ [] }
    ensures touching_upright_side { styles_near_zero (solid_drawing cubes_along_edge) Side true ≡
        none_drawn
        ∷ (Blank ∷ Solid ∷ Blank ∷ Blank ∷ [])
        ∷ (Blank ∷ Solid ∷ Blank ∷ Blank ∷ [])
        ∷ (Blank ∷ Solid ∷ Blank ∷ Blank ∷ []) ∷ [] }
    ensures touching_level_top { styles_near_zero (solid_drawing cubes_along_edge) Top false ≡
        none_drawn
        ∷ (Blank ∷ Solid ∷ Blank ∷ Blank ∷ [])
        ∷ (Blank ∷ Solid ∷ Solid ∷ Blank ∷ [])
        ∷ (Blank ∷ Blank ∷ Solid ∷ Blank ∷ []) ∷ [] }
    ensures touching_upright_top { styles_near_zero (solid_drawing cubes_along_edge) Top true ≡
        none_drawn
        ∷ (Blank ∷ Solid ∷ Blank ∷ Blank ∷ [])
        ∷ (Blank ∷ Solid ∷ Solid ∷ Blank ∷ [])
        ∷ (Blank ∷ Blank ∷ Solid ∷ Blank ∷ []) ∷ [] }
    ensures three_level_front { styles_near_zero (solid_drawing three_cubes) Front false ≡
        none_drawn
        ∷ (Blank ∷ Solid ∷ Solid ∷ Blank ∷ [])
        ∷ (Blank ∷ Solid ∷ Solid ∷ Blank ∷ [])
        ∷ none_drawn ∷ [] }
    ensures three_upright_front { styles_near_zero (solid_drawing three_cubes) Front true ≡
        none_drawn
        ∷ (Blank ∷ Solid ∷ Blank ∷ Blank ∷ [])
        ∷ (Blank ∷ Dashed ∷ Blank ∷ Blank ∷ [])
        ∷ (Blank ∷ Solid ∷ Blank ∷ Blank ∷ []) ∷ [] }
    ensures three_level_side { styles_near_zero (solid_drawing three_cubes) Side false ≡
        none_drawn
        ∷ (Blank ∷ Solid ∷ Solid ∷ Blank ∷ [])
        ∷ (Blank ∷ Solid ∷ Solid ∷ Blank ∷ [])
        ∷ none_drawn ∷ [] }
    ensures three_upright_side { styles_near_zero (solid_drawing three_cubes) Side true ≡
        none_drawn
        ∷ (Blank ∷ Solid ∷ Blank ∷ Blank ∷ [])
        ∷ (Blank ∷ Solid ∷ Blank ∷ Blank ∷ [])
        ∷ (Blank ∷ Solid ∷ Blank ∷ Blank ∷ []) ∷ [] }
    ensures three_level_top { styles_near_zero (solid_drawing three_cubes) Top false ≡
        none_drawn
        ∷ (Blank ∷ Solid ∷ Solid ∷ Blank ∷ [])
        ∷ (Blank ∷ Blank ∷ Solid ∷ Blank ∷ [])
        ∷ (Blank ∷ Solid ∷ Blank ∷ Blank ∷ []) ∷ [] }
    ensures three_upright_top { styles_near_zero (solid_drawing three_cubes) Top true ≡
        none_drawn
        ∷ (Blank ∷ Solid ∷ Solid ∷ Blank ∷ [])
        ∷ (Blank ∷ Blank ∷ Solid ∷ Blank ∷ [])
        ∷ (Blank ∷ Solid ∷ Blank ∷ Blank ∷ []) ∷ [] }
{}

/// Each view is seen from its own side: the front from the least y, the top from the greatest z,
/// the side from the greatest x. Of two cubes side by side in a view, with a third one behind the
/// first, the edge between the two is hidden; with the third one before the first it is seen.
pub fn views_are_seen_from_their_sides()
    ensures behind { (v : View) → solid_drawing (third_behind v) (record {
      view = v;
      upright = true;
      right = pos 1;
      up = pos 0;
    }) ≡ Dashed }
    ensures before { (v : View) → solid_drawing (third_before v) (record {
      view = v;
      upright = true;
      right = pos 1;
      up = pos 0;
    }) ≡ Solid }
{}

/// The quartered cube: three different solids of the cube of eight cells draw a square in four
/// quarters in every view, so a drawing may show several solids.
pub fn quartered_cube()
    ensures level { Each (λ s. (v : View)
        → styles_near_zero (solid_drawing s) v false ≡ four_quarters)
        (five_of_eight ∷ four_of_eight ∷ other_four_of_eight ∷ []) }
    ensures upright { Each (λ s. (v : View)
        → styles_near_zero (solid_drawing s) v true ≡ four_quarters)
        (five_of_eight ∷ four_of_eight ∷ other_four_of_eight ∷ []) }
{}

/// A solid's drawing, in any frame, rests on its set of cells alone.
pub fn order_and_repeats_do_not_matter()
    ensures { (f : Frame) (s t : List Cell) → SameCells s t
        → (g : Segment) (style : Style) → Draws f (is_full s) g style
        → Draws f (is_full t) g style }
{}
