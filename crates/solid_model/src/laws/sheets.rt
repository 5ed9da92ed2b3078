//! Laws of the drawing of lines, and of drawings that are moved to least coordinates 0.

ghost use Rattle.std.specs.Prelude.{◌≡◌, Bool, false, true, List, [], ◌∷◌, pos};
ghost use Rattle.solid_model.specs.declared.frame.View.{View};
ghost use Rattle.solid_model.specs.declared.frame.View.TheVariants.{Front, Top, Side};
ghost use Rattle.solid_model.specs.declared.segment.Segment.{Segment};
ghost use Rattle.solid_model.specs.declared.segment.Style.{Style};
ghost use Rattle.solid_model.specs.declared.segment.Style.TheVariants.{Blank, Dashed, Solid};
ghost use Rattle.solid_model.specs.Drawings.{sheet_style, least_right, least_up, drawing_of, IsEmptyView, IsFirstEmptyView, IsShown, LacksView};
ghost use Rattle.solid_model.specs.Line.{Line, IsKept};
ghost use Rattle.lemmas.specs.Lists.{Each};
ghost use Rattle.solid_model.specs.Moved.{StandsFrom, BeginsAt, IsMovedToZero};
ghost use Rattle.solid_model.specs.Runs.{IsDrawing};
ghost use Rattle.solid_model.specs.SmallSheet.{small_sheet};
ghost use Rattle.solid_model.specs.SmallSolids.{styles_near_zero, none_drawn};

/// A view that is moved to least coordinates 0 begins there, and there is one way to move it; one
/// that begins there already stays as it is.
pub fn moved_drawings_begin_at_zero()
    ensures begins { (drawing at_zero : Segment → Style) (v : View)
        → IsMovedToZero drawing at_zero v → BeginsAt at_zero v (pos 0) (pos 0) }
    ensures one { (drawing at_zero other : Segment → Style) (v : View)
        → IsMovedToZero drawing at_zero v → IsMovedToZero drawing other v
        → (g : Segment) → g.view ≡ v → at_zero g ≡ other g }
    ensures already { (drawing : Segment → Style) (v : View) → BeginsAt drawing v (pos 0) (pos 0)
        → IsMovedToZero drawing drawing v }
{}

/// The views of a file's drawing begin at 0. On the sheet nothing that a line covers stands to the
/// left of its view's least right coordinate or below its least up coordinate, and a view that
/// isn't empty begins there; so its drawing is what the sheet shows, moved to least coordinates 0.
pub fn views_begin_at_the_least_lines()
    ensures stands_from { (ls : List Line) (v : View)
        → StandsFrom (sheet_style ls) v (least_right v ls) (least_up v ls) }
    ensures begins { (ls : List Line) → Each IsKept ls → (v : View) → (IsEmptyView ls v → ⊥)
        → BeginsAt (sheet_style ls) v (least_right v ls) (least_up v ls) }
    ensures not_below_zero { (ls : List Line) (v : View)
        → StandsFrom (drawing_of ls) v (pos 0) (pos 0) }
    ensures moved { (ls : List Line) → Each IsKept ls → (v : View) → (IsEmptyView ls v → ⊥)
        → IsMovedToZero (sheet_style ls) (drawing_of ls) v }
{}

/// The drawing of a file's lines keeps what a drawing of three views keeps, where each view shows
/// something, or where one may be missing and no two are.
pub fn lines_have_a_drawing()
    ensures { (two : Bool) (ls : List Line) → Each IsKept ls → IsShown two ls
        → IsDrawing (drawing_of ls) }
{}

/// A small sheet, worked out by hand. Solid wins where lines overlap, whatever their directions,
/// and dashed stays beyond; a line of no length covers nothing and doesn't count for the place at
/// which the view begins. Of two empty views the one from above is the first, and lacked even where
/// one may be missing.
pub fn small_sheet()
    ensures least { least_right Front small_sheet ∷ least_up Front small_sheet ∷ [] ≡ pos 5 ∷ pos 7
        ∷ [] }
    ensures level { styles_near_zero (drawing_of small_sheet) Front false ≡
        none_drawn
        ∷ (Blank ∷ Solid ∷ Solid ∷ Dashed ∷ [])
        ∷ none_drawn
        ∷ none_drawn ∷ [] }
    ensures upright { styles_near_zero (drawing_of small_sheet) Front true ≡
        none_drawn
        ∷ (Blank ∷ Solid ∷ Blank ∷ Blank ∷ [])
        ∷ none_drawn
        ∷ none_drawn ∷ [] }
    ensures first_empty { IsFirstEmptyView small_sheet Top }
    ensures not_side { IsFirstEmptyView small_sheet Side → ⊥ }
    ensures lacked { LacksView true small_sheet Top }
    ensures not_shown { IsShown true small_sheet → ⊥ }
{}
