//! Laws of sections.

ghost use Rattle.std.specs.Prelude.{◌≡◌, ◌<ℤ◌, Bool, true, false, List, ℤ, pos, ℕ};
ghost use Rattle.lemmas.specs.Lists.{Ascends};
ghost use Rattle.solid_model.specs.declared.cell.Axis.{Axis};
ghost use Rattle.solid_model.specs.declared.cell.Cell.{Cell};
ghost use Rattle.solid_model.specs.declared.frame.Frame.{Frame};
ghost use Rattle.solid_model.specs.declared.frame.View.TheVariants.{Front, Top, Side};
ghost use Rattle.solid_model.specs.declared.segment.Segment.{Segment};
ghost use Rattle.solid_model.specs.declared.segment.Style.{Style};
ghost use Rattle.solid_model.specs.declared.segment.Style.TheVariants.{Blank, Solid};
ghost use Rattle.solid_model.specs.Cells.{is_full};
ghost use Rattle.solid_model.specs.Draws.{Draws};
ghost use Rattle.solid_model.specs.Frames.{IsFrame};
ghost use Rattle.solid_model.specs.Grid.{Coordinates, IsUnionOf};
ghost use Rattle.section_laws.specs.Sections.{cut_area, rest_behind, visible_style};
ghost use Rattle.section_laws.specs.Shaded.{AreShaded, AreSlab, IsCutGap};
ghost use Rattle.section_laws.specs.SmallSections.{area_in, section_in};

/// What a solid draws when it is cut, hidden edges left out, the whole view of another solid draws:
/// of grid cells from the gap on that the plane lies in, filled behind each full one. Wherever the
/// plane lies in its gap, these are the same cells.
pub fn sections_are_views_of_shaded_cells()
    ensures { (f : Frame) → IsFrame f
        → (coordinates : Coordinates) → ((a : Axis) → Ascends ◌<ℤ◌ (coordinates a))
        → (chosen shaded : List Bool) (first : ℕ) → AreShaded f.away coordinates first chosen shaded
        → (s other : List Cell) → IsUnionOf coordinates chosen (is_full s)
        → IsUnionOf coordinates shaded (is_full other)
        → (plane : ℤ) → IsCutGap f.away (coordinates f.away.axis) plane first
        → (g : Segment) (style : Style) → Draws f (is_full (rest_behind f plane s)) g style
        → Draws f (is_full other) g (visible_style style) }
{}

/// The cut area draws what the whole view of another solid draws: of the grid cells in the gap that
/// the plane lies in. No edge of it is hidden.
pub fn areas_are_views_of_their_slab()
    ensures { (f : Frame) → IsFrame f
        → (coordinates : Coordinates) → ((a : Axis) → Ascends ◌<ℤ◌ (coordinates a))
        → (chosen slab : List Bool) (gap : ℕ) → AreSlab f.away coordinates gap chosen slab
        → (s other : List Cell) → IsUnionOf coordinates chosen (is_full s)
        → IsUnionOf coordinates slab (is_full other)
        → (plane : ℤ) → IsCutGap f.away (coordinates f.away.axis) plane gap
        → (g : Segment) (style : Style) → Draws f (is_full (cut_area f plane s)) g style
        → Draws f (is_full other) g (visible_style style) }
{}

/// What a small solid without symmetry shows when it is cut, by hand: which side is left, what the
/// cut lays open, and that hidden edges are left out.
pub fn small_sections()
    ensures front { (section_in Front (pos 1) false (pos 2) (pos 0) ≡ Solid)
        × (section_in Front (pos 1) false (pos 0) (pos 0) ≡ Blank)
        × (section_in Front (pos 1) true (pos 0) (pos 2) ≡ Solid)
        × (section_in Front (pos 0) true (pos 0) (pos 2) ≡ Blank) }
    ensures top { (section_in Top (pos 1) true (pos 0) (pos 1) ≡ Blank)
        × (section_in Top (pos 1) false (pos 0) (pos 0) ≡ Solid)
        × (section_in Top (pos 2) true (pos 0) (pos 1) ≡ Solid) }
    ensures side { (section_in Side (pos 1) false (pos 0) (pos 1) ≡ Blank)
        × (section_in Side (pos 2) false (pos 0) (pos 1) ≡ Solid)
        × (section_in Side (pos 1) true (pos 0) (pos 1) ≡ Solid)
        × (section_in Side (pos 3) true (pos 0) (pos 1) ≡ Blank) }
    ensures areas { (area_in Front (pos 1) false (pos 2) (pos 0) ≡ Solid)
        × (area_in Front (pos 1) false (pos 1) (pos 0) ≡ Blank)
        × (area_in Top (pos 2) false (pos 0) (pos 0) ≡ Solid)
        × (area_in Top (pos 2) false (pos 2) (pos 0) ≡ Blank)
        × (area_in Side (pos 3) false (pos 0) (pos 0) ≡ Solid)
        × (area_in Side (pos 3) true (pos 0) (pos 1) ≡ Blank)
        × (area_in Side (pos 3) false (pos 0) (pos 2) ≡ Blank) }
{}
