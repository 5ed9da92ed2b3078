//! Laws of where a solid stands, by what its drawing shows.

ghost use Rattle.std.specs.Prelude.{◌≡◌, ◌≢◌, List, ℤ, pos, ◌≤ℤ◌, IsTrue};
ghost use Rattle.solid_model.specs.declared.cell.Axis.{Axis};
ghost use Rattle.solid_model.specs.declared.cell.Cell.{Cell};
ghost use Rattle.solid_model.specs.declared.frame.Frame.{Frame};
ghost use Rattle.solid_model.specs.declared.frame.View.{View};
ghost use Rattle.solid_model.specs.declared.segment.Segment.{Segment};
ghost use Rattle.solid_model.specs.declared.segment.Style.{Style};
ghost use Rattle.solid_model.specs.Boxes.{place_of, FitsIn, StandsBetween, LiesInBox};
ghost use Rattle.solid_model.specs.Cells.{coordinate, is_full};
ghost use Rattle.solid_model.specs.Draws.{DrawsView};
ghost use Rattle.solid_model.specs.Frames.{IsFrame, frame_of};
ghost use Rattle.solid_model.specs.Matching.{Matches};
ghost use Rattle.solid_model.specs.Moved.{StandsFrom, BeginsAt, SeesEachAxis};
ghost use Rattle.solid_model.specs.Runs.{IsDrawing};

/// A solid lies within what a view shows of it, since an outermost full cell draws an outermost
/// edge: in any frame, where all that is drawn lies in the rectangle from (0, 0) to (width,
/// height), its cells stand at places 0 to width - 1 to the right and 0 to height - 1 upwards. So a
/// solid that matches a drawing whose three views lie in the sides of a box lies in the box.
pub fn solids_lie_within_their_views()
    ensures view { (f : Frame) → IsFrame f → (drawing : Segment → Style) (s : List Cell) (v : View)
        → DrawsView f (is_full s) drawing v
        → (width height : ℤ) → FitsIn drawing v width height → (c : Cell) → IsTrue (is_full s c)
        → StandsBetween (pos 0) width f.right c × StandsBetween (pos 0) height f.up c }
    ensures three_views { (drawing : Segment → Style) → SeesEachAxis drawing → (s : List Cell)
        → Matches drawing s → (extent : Axis → ℤ)
        → ((v : View)
        → FitsIn drawing v (extent (frame_of v).right.axis) (extent (frame_of v).up.axis))
        → (c : Cell) → IsTrue (is_full s c) → LiesInBox extent c }
{}

/// A solid begins where a view of it begins, in any frame: no cell stands before the place that the
/// view stands from, to the right or upwards, and where the view begins there, some cell stands at
/// it.
pub fn solids_begin_where_their_views_do()
    ensures none_before { (f : Frame) → IsFrame f
        → (drawing : Segment → Style) (s : List Cell) (v : View) → DrawsView f (is_full s) drawing v
        → (right up : ℤ) → StandsFrom drawing v right up
        → (c : Cell) → IsTrue (is_full s c) → (right ≤ℤ place_of f.right c)
        × (up ≤ℤ place_of f.up c) }
    ensures at_left { (f : Frame) → IsFrame f
        → (drawing : Segment → Style) (s : List Cell) (v : View) → DrawsView f (is_full s) drawing v
        → (right up : ℤ) → BeginsAt drawing v right up → (c : Cell) × IsTrue (is_full s c)
        × (place_of f.right c ≡ right) }
    ensures at_bottom { (f : Frame) → IsFrame f
        → (drawing : Segment → Style) (s : List Cell) (v : View) → DrawsView f (is_full s) drawing v
        → (right up : ℤ) → BeginsAt drawing v right up → (c : Cell) × IsTrue (is_full s c)
        × (place_of f.up c ≡ up) }
{}

/// A solid that matches a drawing begins at 0 along each axis: no cell has a coordinate below 0,
/// and some cell has 0.
pub fn matching_solids_begin_at_zero()
    ensures none_below { (drawing : Segment → Style) → SeesEachAxis drawing → (s : List Cell)
        → ((v : View) → StandsFrom drawing v (pos 0) (pos 0))
        → Matches drawing s → (c : Cell) → IsTrue (is_full s c) → (a : Axis)
        → pos 0 ≤ℤ coordinate a c }
    ensures reached { (drawing : Segment → Style) (s : List Cell) → IsDrawing drawing
        → Matches drawing s
        → (a : Axis) → (c : Cell) × IsTrue (is_full s c) × (coordinate a c ≡ pos 0) }
{}
