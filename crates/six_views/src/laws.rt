//! Laws of further views and sections.

ghost use Rattle.std.specs.Prelude.{◌≡◌, ◌↔◌, ◌<ℤ◌, Bool, true, false, List, None, pos, negsuc};
ghost use Rattle.dxf_entities.specs.declared.layer.Layer.{Layer};
ghost use Rattle.lemmas.specs.Lists.{Ascends};
ghost use Rattle.solid_model.specs.declared.cell.Axis.{Axis};
ghost use Rattle.solid_model.specs.declared.cell.Cell.{Cell};
ghost use Rattle.solid_model.specs.declared.frame.View.TheVariants.{Front, Top, Side};
ghost use Rattle.solid_model.specs.declared.segment.Segment.{Segment};
ghost use Rattle.solid_model.specs.declared.segment.Style.{Style};
ghost use Rattle.solid_model.specs.declared.segment.Style.TheVariants.{Blank, Dashed, Solid};
ghost use Rattle.solid_model.specs.Blocks.{ProblemParts};
ghost use Rattle.solid_model.specs.Cells.{is_full};
ghost use Rattle.solid_model.specs.Choices.{AreSolidsOfChoices};
ghost use Rattle.solid_model.specs.Drawings.{drawing_of, IsEmptyView};
ghost use Rattle.solid_model.specs.Draws.{Draws};
ghost use Rattle.solid_model.specs.DrawnStyle.{drawn_style, solid_drawing};
ghost use Rattle.solid_model.specs.Frames.{IsFrame, frame_of};
ghost use Rattle.solid_model.specs.Line.{Line};
ghost use Rattle.solid_model.specs.Matching.{Matches, AreSolidsOf};
ghost use Rattle.solid_model.specs.Panels.{coordinates_of};
ghost use Rattle.further_views.specs.Further.{AreFurtherOf, FurtherRuns, IsAsked};
ghost use Rattle.six_views.specs.Fits.{AreFittingSolids, AreSolidsThat, Fits, ShowsLayer, ShowsMoved};
ghost use Rattle.six_views.specs.Further.{FitsChoice, FitsRuns};
ghost use Rattle.six_views.specs.SightFrames.{sight_frame};
ghost use Rattle.six_views.specs.SmallViews.{bar_from, bar_in, bar_left_from};
ghost use Rattle.page_calls.specs.Those.{AreThose};
ghost use Rattle.six_views.specs.Turned.{turned_cell, turned_cells};

/// What a layer shows whole its view shows of the solid, turned half round where it is seen from the
/// opposite side: from the left and from the rear about z, from below about x.
pub fn opposite_views_are_views_of_the_turned_solid()
    ensures frames { (x : Layer) → IsFrame (sight_frame x) }
    ensures drawn { (x : Layer) (full : Cell → Bool) (g : Segment) (style : Style)
        → Draws (sight_frame x) full g style
        ↔ Draws (frame_of x.view) (λ c. full (turned_cell x c)) g style }
    ensures computed { (x : Layer) (s : List Cell) (g : Segment) → g.view ≡ x.view
        → drawn_style (sight_frame x) s g ≡ solid_drawing (turned_cells x s) g }
{}

/// A layer that isn't cut shows the whole view, hidden edges and all; so where none that is asked for
/// is cut, a solid fits where it shows all these views.
pub fn whole_views_are_moved_views()
    ensures shown { (x : Layer) → x.cut ≡ None → (s : List Cell) (shown : Segment → Style)
        → ShowsLayer x s shown ↔ ShowsMoved (sight_frame x) (is_full s) shown x.view }
    ensures fits { (further : Layer → List Line)
        → ((x : Layer) → IsAsked further x → x.cut ≡ None) → (s : List Cell)
        → Fits further s ↔ ((x : Layer) → IsAsked further x
        → ShowsMoved (sight_frame x) (is_full s) (drawing_of (further x)) x.view) }
{}

/// What a small solid without symmetry shows from both sides, by hand: what is hidden from one side
/// is seen from the other.
pub fn small_further_views()
    ensures rear { (bar_from Front false (negsuc 0) (pos 1) ≡ Solid)
        × (bar_from Front true (pos 0) (negsuc 0) ≡ Solid)
        × (bar_from Front true (pos 0) (negsuc 1) ≡ Blank) }
    ensures front { bar_in Front false (pos 0) (pos 1) ≡ Dashed }
    ensures left { (bar_from Side false (negsuc 0) (pos 1) ≡ Dashed)
        × (bar_from Side true (pos 0) (negsuc 0) ≡ Dashed)
        × (bar_from Side false (negsuc 1) (pos 1) ≡ Solid) }
    ensures side { bar_in Side false (pos 0) (pos 1) ≡ Solid }
    ensures bottom { (bar_from Top true (negsuc 0) (pos 1) ≡ Dashed)
        × (bar_from Top true (negsuc 1) (pos 1) ≡ Solid) }
    ensures top { bar_in Top true (pos 0) (pos 1) ≡ Solid }
{}

/// What the same solid shows when it is cut and seen from the left, from the rear and from below, by
/// hand: which side is left, and that no hidden edge is seen.
pub fn small_further_sections()
    ensures left { (bar_left_from Side false (pos 1) false (negsuc 0) (pos 1) ≡ Solid)
        × (bar_left_from Side false (pos 1) false (negsuc 1) (pos 1) ≡ Blank)
        × (bar_left_from Side false (pos 0) false (negsuc 0) (pos 1) ≡ Blank) }
    ensures rear { (bar_left_from Front false (pos 1) false (negsuc 0) (pos 2) ≡ Solid)
        × (bar_left_from Front false (pos 1) false (negsuc 0) (pos 1) ≡ Blank)
        × (bar_left_from Front false (pos 2) false (negsuc 0) (pos 1) ≡ Solid) }
    ensures bottom { (bar_left_from Top false (pos 1) true (negsuc 0) (pos 1) ≡ Solid)
        × (bar_left_from Top false (pos 1) true (negsuc 0) (pos 3) ≡ Blank) }
    ensures areas { (bar_left_from Side true (pos 0) false (negsuc 1) (pos 0) ≡ Solid)
        × (bar_left_from Side true (pos 1) false (negsuc 1) (pos 0) ≡ Blank)
        × (bar_left_from Front true (pos 2) true (pos 0) (negsuc 0) ≡ Solid)
        × (bar_left_from Front true (pos 2) true (pos 0) (negsuc 2) ≡ Blank) }
{}

/// A drawing owes what it owes by its main views alone where nothing further is asked for; and all
/// solids that match are all that have one property.
pub fn without_further_views_all_matching_solids_fit()
    ensures one_property { (drawing : Segment → Style) (solids : List (List Cell))
        → AreSolidsThat (Matches drawing) solids ↔ AreSolidsOf drawing solids }
    ensures none_asked { (drawing : Segment → Style) (further : Layer → List Line)
        → ((x : Layer) → IsEmptyView (further x) x.view) → (solids : List (List Cell))
        → AreFittingSolids drawing further solids ↔ AreSolidsOf drawing solids }
{}

/// The runs of further lines ask what the lines do; and of choices that fill all matching solids
/// those that fit fill all that match and fit.
pub fn fitting_choices_fill_the_fitting_solids()
    ensures runs { (further : Layer → List Line) (e : FurtherRuns) → AreFurtherOf further e
        → (s : List Cell) → FitsRuns e s ↔ Fits further s }
    ensures choices { (p : ProblemParts)
        → ((a : Axis) → Ascends ◌<ℤ◌ (coordinates_of p.grid a))
        → (further : Layer → List Line) (e : FurtherRuns) → AreFurtherOf further e
        → (drawing : Segment → Style) (found kept : List (List Bool)) (all : List (List Cell))
        → AreSolidsOf drawing all
        → AreSolidsOfChoices (coordinates_of p.grid) p.blocks.numbers p.blocks.count found all
        → AreThose (FitsChoice p e) found kept
        → (those : List (List Cell)) × AreFittingSolids drawing further those
        × AreSolidsOfChoices (coordinates_of p.grid) p.blocks.numbers p.blocks.count kept those }
{}
