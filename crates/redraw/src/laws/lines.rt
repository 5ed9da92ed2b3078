//! Laws of the lines of a written sheet.

ghost use Rattle.std.specs.Prelude.{◌≤◌, Bool, false, List, length, ℤ};
ghost use Rattle.solid_model.specs.declared.cell.Cell.{Cell};
ghost use Rattle.solid_model.specs.declared.frame.View.{View};
ghost use Rattle.solid_model.specs.Cells.{is_full, IsSolid};
ghost use Rattle.solid_model.specs.Drawings.{drawing_of, IsShown};
ghost use Rattle.solid_model.specs.DrawnStyle.{solid_drawing};
ghost use Rattle.solid_model.specs.Grid.{IsUnionOf};
ghost use Rattle.lemmas.specs.Lists.{Each};
ghost use Rattle.solid_model.specs.Moved.{IsMovedToZero};
ghost use Rattle.solid_model.specs.Panels.{GridParts, coordinates_of, IsGrid};
ghost use Rattle.solid_model.specs.Runs.{DrawingRuns};
ghost use Rattle.redraw.specs.Files.{sheet_lines, IsSheetOf};
ghost use Rattle.redraw.specs.Sheets.{IsNotNegative, IsDrawnLine};

/// The lines on which a solid's drawing is written show something in each view, and their drawing
/// is the solid's own, moved to least coordinates 0.
pub fn sheet_lines_draw_the_solid()
    ensures shown { (s : List Cell) → IsSolid s → (far_x far_z : ℤ) (d : DrawingRuns)
        → IsSheetOf s far_x far_z d → IsShown false (sheet_lines far_x far_z d) }
    ensures drawing { (s : List Cell) → IsSolid s → (far_x far_z : ℤ) (d : DrawingRuns)
        → IsSheetOf s far_x far_z d
        → (v : View)
        → IsMovedToZero (solid_drawing s) (drawing_of (sheet_lines far_x far_z d)) v }
{}

/// A union of grid cells is written with at most 24,576 lines, 4,096 for the level and for the
/// upright runs of each view. Each is level or upright and drawn, and none of its coordinates is
/// negative: so it may be kept where they are at most 1,000,000,000.
pub fn sheet_lines_are_few()
    ensures few { (g : GridParts) → IsGrid g → (chosen : List Bool) (s : List Cell) → IsSolid s
        → IsUnionOf (coordinates_of g) chosen (is_full s)
        → (far_x far_z : ℤ) (d : DrawingRuns) → IsSheetOf s far_x far_z d
        → length (sheet_lines far_x far_z d) ≤ 24576 }
    ensures not_negative { (g : GridParts) → IsGrid g → (chosen : List Bool) (s : List Cell)
        → IsSolid s
        → IsUnionOf (coordinates_of g) chosen (is_full s)
        → (far_x far_z : ℤ) (d : DrawingRuns) → IsSheetOf s far_x far_z d
        → Each IsNotNegative (sheet_lines far_x far_z d) }
    ensures drawn { (g : GridParts) → IsGrid g → (chosen : List Bool) (s : List Cell) → IsSolid s
        → IsUnionOf (coordinates_of g) chosen (is_full s)
        → (far_x far_z : ℤ) (d : DrawingRuns) → IsSheetOf s far_x far_z d
        → Each IsDrawnLine (sheet_lines far_x far_z d) }
{}
