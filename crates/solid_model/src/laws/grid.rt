//! Laws of the grid of a drawing.

ghost use Rattle.std.specs.Prelude.{◌≡◌, ◌↔◌, ◌≢◌, Bool, List, [], ℤ, IsTrue};
ghost use Rattle.solid_model.specs.declared.cell.Axis.{Axis};
ghost use Rattle.solid_model.specs.declared.cell.Cell.{Cell};
ghost use Rattle.solid_model.specs.declared.segment.Segment.{Segment};
ghost use Rattle.solid_model.specs.declared.segment.Style.{Style};
ghost use Rattle.solid_model.specs.Cells.{coordinate, cell_before, is_full};
ghost use Rattle.solid_model.specs.DrawnStyle.{solid_drawing};
ghost use Rattle.solid_model.specs.Grid.{IsGridCoordinate, AreGridCoordinates, Coordinates, GridCell, LiesInGridCell, LiesInGrid, IsUnionOf};
ghost use Rattle.solid_model.specs.Matching.{Matches};
ghost use Rattle.solid_model.specs.Moved.{SeesEachAxis};
ghost use Rattle.solid_model.specs.PerView.{of_view};
ghost use Rattle.solid_model.specs.Wire.{is_drawn_view};
ghost use Rattle.solid_model.specs.declared.frame.View.{View};
ghost use Rattle.solid_model.specs.Panels.{styles_along, PanelsStyles, AreGridStyles, GridParts, coordinates_of, IsGridOf};
ghost use Rattle.solid_model.specs.Runs.{IsDrawing};

/// A drawing has one list of grid coordinates along an axis.
pub fn one_list_of_grid_coordinates()
    ensures { (drawing : Segment → Style) (a : Axis) (zs ws : List ℤ)
        → AreGridCoordinates drawing a zs → AreGridCoordinates drawing a ws → zs ≡ ws }
{}

/// Each axis has a grid coordinate, since each is seen in a view that shows something.
pub fn each_axis_has_a_coordinate()
    ensures { (drawing : Segment → Style) (g : GridParts) → IsDrawing drawing → IsGridOf drawing g
        → (a : Axis) → coordinates_of g a ≢ [] }
{}

/// A matching solid lies in the grid, of two views too, since these see each axis. Where a cell
/// begins at no grid coordinate along an axis, it and the cell before it are both full or both
/// empty, since nothing is drawn between the two slices of cells, and columns beside a blank
/// segment are equal. So the solid is a union of grid cells, and lies in the box of all of them.
pub fn matching_solids_lie_in_the_grid()
    ensures slices { (drawing : Segment → Style) → SeesEachAxis drawing → (s : List Cell)
        → Matches drawing s → (a : Axis) (c : Cell)
        → (IsGridCoordinate drawing a (coordinate a c) → ⊥)
        → is_full s (cell_before a c) ≡ is_full s c }
    ensures union { (drawing : Segment → Style) → SeesEachAxis drawing → (s : List Cell)
        → Matches drawing s → (coordinates : Coordinates)
        → ((a : Axis) → AreGridCoordinates drawing a (coordinates a))
        → (n : GridCell) (c d : Cell) → LiesInGridCell coordinates n c
        → LiesInGridCell coordinates n d
        → is_full s c ≡ is_full s d }
    ensures inside { (drawing : Segment → Style) → SeesEachAxis drawing → (s : List Cell)
        → Matches drawing s → (coordinates : Coordinates)
        → ((a : Axis) → AreGridCoordinates drawing a (coordinates a))
        → (c : Cell) → IsTrue (is_full s c) → LiesInGrid coordinates c }
{}

/// A grid determines its drawing.
pub fn one_drawing_of_a_grid()
    ensures { (drawing other : Segment → Style) (g : GridParts) → IsDrawing drawing
        → IsDrawing other
        → IsGridOf drawing g → IsGridOf other g → (s : Segment) → drawing s ≡ other s }
{}

/// Whether a union of grid cells matches a drawing is seen on the grid: it does exactly where the
/// styles that it draws on the grid's segments are those of the grid, in each view that shows
/// something.
pub fn matching_is_seen_on_the_grid()
    ensures { (drawing : Segment → Style) (g : GridParts) → IsDrawing drawing → IsGridOf drawing g
        → (chosen : List Bool) (s : List Cell) → IsUnionOf (coordinates_of g) chosen (is_full s)
        → (panels : PanelsStyles) → AreGridStyles (solid_drawing s) (coordinates_of g) panels
        → ((v : View) (upright : Bool) → IsTrue (is_drawn_view g v)
        → styles_along upright (of_view v panels) ≡ styles_along upright (of_view v g.panels))
        ↔ Matches drawing s }
{}
