//! Laws of the written files of solids. Each is the contract of a function that does nothing.

ghost use Rattle.std.specs.Prelude.{◌≡◌, List, ℕ, false, pos, codes};
ghost use Rattle.solid_model.specs.declared.cell.Cell.{Cell};
ghost use Rattle.solid_model.specs.declared.frame.View.{View};
ghost use Rattle.solid_model.specs.declared.frame.View.TheVariants.{Top};
ghost use Rattle.solid_model.specs.declared.segment.Segment.{Segment};
ghost use Rattle.solid_model.specs.declared.segment.Style.{Style};
ghost use Rattle.solid_model.specs.Cells.{SameCells};
ghost use Rattle.solid_model.specs.Matching.{Matches};
ghost use Rattle.solid_model.specs.Moved.{Shows};
ghost use Rattle.redraw.specs.Files.{IsFileOf, right_on_sheet, run_line, up_on_sheet};
ghost use Rattle.redraw.specs.Plain.{line_text};
ghost use Rattle.redraw.specs.SmallFiles.{brick, brick_file, hidden_line, lower_side};

/// A solid has one written file: it doesn't matter in what order its cells are listed, nor how
/// often.
pub fn one_written_file()
    ensures { (s t : List Cell) → SameCells s t → (decimals : ℕ) (a b : List ℕ)
        → IsFileOf decimals s a → IsFileOf decimals t b
        → a ≡ b }
{}

/// Solids that match one drawing have one written file, where the drawing shows all three views: it
/// has one list of runs, and shows in front how far the solids reach. Where a view is missing they
/// may differ in it, and a solid's file draws all three views: so it completes the drawing.
pub fn matching_solids_have_one_file()
    ensures { (drawing : Segment → Style) → ((v : View) → Shows drawing v) → (s t : List Cell)
        → Matches drawing s → Matches drawing t
        → (decimals : ℕ) (a b : List ℕ)
        → IsFileOf decimals s a → IsFileOf decimals t b → a ≡ b }
{}

/// A small file, written out by hand: that of a brick whose sides differ. Its top view stands 10
/// above its front view, and its side view 10 to the right. And two lines: a hidden one, which
/// begins to the left of 0, and one with a decimal, the lower side of the top view of a cube of 5
/// units.
pub fn small_file()
    ensures brick { IsFileOf 0 brick brick_file }
    ensures hidden { line_text 0 hidden_line
        ≡ codes "0\nLINE\n8\nTOP\n6\nHIDDEN\n10\n-3\n20\n12\n30\n0\n11\n25\n21\n12\n31\n0\n" }
    ensures half { line_text 1 (run_line Top false (right_on_sheet (pos 5) Top)
        (up_on_sheet (pos 5) Top) lower_side)
        ≡ codes
        "0\nLINE\n8\nTOP\n6\nCONTINUOUS\n10\n0.0\n20\n1.5\n30\n0\n11\n0.5\n21\n1.5\n31\n0\n" }
{}
