//! Laws of the plain form of lines, of the numbers in it, and of written files.

ghost use Rattle.std.specs.Prelude.{◌≡◌, ◌≤◌, ◌+◌, ◌*◌, Bool, ℕ, List, length, ℤ, Ok};
ghost use Rattle.decimal_texts.specs.Decimals.{decimal_text};
ghost use Rattle.solid_model.specs.declared.cell.Cell.{Cell};
ghost use Rattle.solid_model.specs.declared.segment.Segment.{Segment};
ghost use Rattle.solid_model.specs.Cells.{is_full, IsSolid};
ghost use Rattle.solid_model.specs.Drawings.{drawing_of};
ghost use Rattle.solid_model.specs.DrawnStyle.{solid_drawing};
ghost use Rattle.solid_model.specs.Grid.{IsUnionOf};
ghost use Rattle.solid_model.specs.Limits.{most_decimals, most_lines};
ghost use Rattle.solid_model.specs.Line.{Line, IsKept, IsNear};
ghost use Rattle.lemmas.specs.Lists.{Each};
ghost use Rattle.solid_model.specs.Panels.{GridParts, coordinates_of, IsGrid};
ghost use Rattle.solid_model.specs.Runs.{DrawingRuns, IsDrawing};
ghost use Rattle.dxf_groups.specs.Numerals.{scaled_of};
ghost use Rattle.dxf_entities.specs.Reading.{read_of};
ghost use Rattle.redraw.specs.Files.{sheet_lines, IsSheetOf};
ghost use Rattle.redraw.specs.Plain.{plain_file};
ghost use Rattle.read_back.specs.ReadBack.{numbered_from, IsInReach, ReadsBack};

/// A near number, as it is printed with so many decimals, is read as that number with as many.
pub fn printed_numbers_are_read()
    ensures { (decimals : ℕ) (z : ℤ) → IsNear z
        → scaled_of decimals (decimal_text decimals z) ≡ Ok z }
{}

/// The plain form of lines with so many decimals is read, with as many, as just these lines, in
/// their order, where each may be kept and they aren't too many.
pub fn plain_files_are_read()
    ensures { (decimals : ℕ) (lines : List Line) → Each IsKept lines → length lines ≤ most_lines
        → read_of decimals (plain_file decimals lines) ≡ Ok (numbered_from 5 lines) }
{}

/// The plain form of lines takes at most 104 bytes a line, and 40 for what stands around them, with
/// however many decimals.
pub fn plain_files_are_short()
    ensures { (decimals : ℕ) (lines : List Line) → decimals ≤ most_decimals → Each IsKept lines
        → length (plain_file decimals lines) ≤ 40 + 104 * length lines }
{}

/// The written file of a union of grid cells reads back with as many decimals, where no coordinate
/// of its lines is above 1,000,000,000 before it is divided: it isn't longer than a file may be, it
/// reads as lines that show something in each view, and their drawing is the solid's own, moved to
/// least coordinates 0.
pub fn written_files_read_back()
    ensures { (decimals : ℕ) → decimals ≤ most_decimals → (g : GridParts) → IsGrid g
        → (chosen : List Bool) (s : List Cell) → IsSolid s
        → IsUnionOf (coordinates_of g) chosen (is_full s)
        → (far_x far_z : ℤ) (d : DrawingRuns) → IsSheetOf s far_x far_z d
        → Each IsInReach (sheet_lines far_x far_z d)
        → ReadsBack decimals s (plain_file decimals (sheet_lines far_x far_z d)) }
{}

/// Where each view of the solid's drawing begins at (0, 0) already, what is read back is this very
/// drawing.
pub fn drawings_read_back_as_they_are()
    ensures { (decimals : ℕ) (s : List Cell) (text : List ℕ) → IsDrawing (solid_drawing s)
        → (back : ReadsBack decimals s text) → (segment : Segment)
        → drawing_of back.lines segment ≡ solid_drawing s segment }
{}
