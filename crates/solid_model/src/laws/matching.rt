//! Laws of which solids match a drawing.

ghost use Rattle.std.specs.Prelude.{◌≡◌, ◌↔◌, List};
ghost use Rattle.solid_model.specs.declared.cell.Cell.{Cell};
ghost use Rattle.solid_model.specs.declared.frame.View.{View};
ghost use Rattle.solid_model.specs.declared.segment.Segment.{Segment};
ghost use Rattle.solid_model.specs.declared.segment.Style.{Style};
ghost use Rattle.solid_model.specs.Cells.{is_full, IsSolid};
ghost use Rattle.solid_model.specs.Draws.{Draws};
ghost use Rattle.solid_model.specs.Frames.{frame_of};
ghost use Rattle.solid_model.specs.Matching.{Matches};
ghost use Rattle.solid_model.specs.Moved.{Shows};

/// Where each of the three views shows something, a solid matches a drawing exactly where its own
/// drawing is the same, segment by segment.
pub fn three_views_are_matched_segment_by_segment()
    ensures { (drawing : Segment → Style) → ((v : View) → Shows drawing v) → (s : List Cell)
        → Matches drawing s
        ↔ (IsSolid s × ((g : Segment) → Draws (frame_of g.view) (is_full s) g (drawing g))) }
{}

/// A solid that matches a drawing matches it too where a view is left out: so what is listed by two
/// views has all that the third one allows.
pub fn fewer_views_allow_more()
    ensures { (drawing fewer : Segment → Style)
        → ((g : Segment) → Shows fewer g.view → fewer g ≡ drawing g)
        → (s : List Cell) → Matches drawing s → Matches fewer s }
{}
