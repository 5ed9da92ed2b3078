//! The drawing of a file's lines.

ghost use Rattle.std.specs.Prelude.{◌≡◌, Bool, false, List, [], IfNone, IfOk, IfSome, MatchOption, OnOk, IsErrOf};
ghost use Rattle.solid_model.specs.declared.fault.Fault.{Fault};
ghost use Rattle.solid_model.specs.declared.frame.View.{View};
ghost use Rattle.solid_model.specs.declared.frame.View.TheVariants.{Front, Top, Side};
ghost use Rattle.solid_model.specs.declared.segment.Segment.{Segment};
ghost use Rattle.solid_model.specs.Segments.{start_of, line_of};
ghost use Rattle.solid_model.specs.Drawings.{sheet_style, drawing_of, IsEmptyView, IsFirstEmptyView, IsShown, LacksView};
ghost use Rattle.solid_model.specs.Line.{IsKept, Line};
ghost use Rattle.lemmas.specs.Lists.{Each};
ghost use Rattle.solid_model.specs.Runs.{run_style, runs_along, style_in};
ghost use Rattle.views.specs.Corners.{from_corner};
ghost use Rattle.views.specs.Missing.{TellsMissing};

use crate::corner::Corner;
use crate::strokes::strokes_in_order;
use crate::sweep::runs_of;
use solid_model::{Drawing, Fault, Memory, Refused, Runs, SheetLine, View, ViewLines};
use std::alloc::{AllocError, Global};

/// The level or the upright runs of a view whose corner comes to 0.
fn runs_along(
    alloc: Global,
    lines: &[SheetLine],
    view: View,
    upright: bool,
    corner: Corner,
) -> Result<Runs, AllocError>
    ensures { IfOk result (λ runs. (g : Segment) → g.view ≡ view → g.upright ≡ upright
        → run_style runs (line_of g) (start_of g) ≡ sheet_style lines.now (from_corner corner g)) }
{
    let strokes = strokes_in_order(alloc, lines, view, upright, corner)?;
    Ok(Runs::new(runs_of(alloc, &strokes)?))
}

/// The runs of one view of these lines, shifted so that its least right and its least up coordinate
/// are 0, as [`drawing`] has them; `None` exactly where no line covers anything of it. An `Err` is
/// out of memory.
pub fn view_of(alloc: Global, lines: &[SheetLine], view: View) -> Result<Option<ViewLines>, Memory>
    ensures drawn { IfOk result (λ shown. IfSome shown (λ runs. (g : Segment) → g.view ≡ view
        → run_style (runs_along g.upright runs) (line_of g) (start_of g)
        ≡ drawing_of lines.now g)) }
    ensures shown { IfOk result (λ shown. MatchOption shown (IsEmptyView lines.now view)
        (λ runs. IsEmptyView lines.now view → ⊥)) }
    ensures kept { OnOk result (Each IsKept lines.now) }
{
    let Some(corner) = Corner::of_view(view, lines) else {
        return Ok(None);
    };
    let level = runs_along(alloc, lines, view, false, corner)?;
    let upright = runs_along(alloc, lines, view, true, corner)?;
    Ok(Some(ViewLines { level, upright }))
}

/// The view that lines lack, by which of their views are missing: where more are than may be, the
/// first of them in the order front, top, side.
fn lacked_view(front: bool, top: bool, side: bool, two_views: bool) -> Option<View>
    ensures { (ls : List Line) → TellsMissing ls Front front → TellsMissing ls Top top
        → TellsMissing ls Side side
        → MatchOption result (IsShown two_views ls) (LacksView two_views ls) }
{
    if u8::from(front) + u8::from(top) + u8::from(side) <= u8::from(two_views) {
        None
    } else if front {
        Some(View::Front)
    } else if top {
        Some(View::Top)
    } else {
        Some(View::Side)
    }
}

/// The runs of a view: none where it is missing.
fn runs_or_none(alloc: Global, view: Option<ViewLines>) -> ViewLines
    ensures shown { IfSome view (λ runs. result ≡ runs) }
    ensures missing { IfNone view ((upright : Bool) → runs_along upright result ≡ []) }
{
    match view {
        Some(runs) => runs,
        None => ViewLines {
            level: Runs::new(Vec::new(alloc)),
            upright: Runs::new(Vec::new(alloc)),
        },
    }
}

/// The drawing of a file's lines, each view shifted so that its least right and least up coordinate
/// are 0. Lines that overlap, repeat or run back count as one, solid ones win over dashed ones, and
/// a line of no length covers nothing. The first view of which no line covers anything, in the
/// order front, top, side, is the fault `EmptyView`; but with `two_views` one view may be missing,
/// and it is a fault only where another one is missing too. `Memory` comes where memory ran out.
/// The time grows as n log n in the number of lines, whatever their lengths, and the memory is a
/// small constant times the number of lines of one view and kind, beside the runs.
pub fn drawing_of_views(
    alloc: Global,
    lines: &[SheetLine],
    two_views: bool,
) -> Result<Drawing, Refused>
    ensures drawn { IfOk result (λ d. (g : Segment) → style_in d g ≡ drawing_of lines.now g) }
    ensures shown { OnOk result (IsShown two_views lines.now) }
    ensures fault { (fault : Fault) → IsErrOf result (Refused.Fault fault)
        → (view : View) × (fault ≡ Fault.EmptyView view) × LacksView two_views lines.now view }
{
    let front = view_of(alloc, lines, View::Front)?;
    let top = view_of(alloc, lines, View::Top)?;
    let side = view_of(alloc, lines, View::Side)?;
    if let Some(view) = lacked_view(front.is_none(), top.is_none(), side.is_none(), two_views) {
        return Err(Refused::Fault(Fault::EmptyView { view }));
    }
    Ok(Drawing {
        front: runs_or_none(alloc, front),
        top: runs_or_none(alloc, top),
        side: runs_or_none(alloc, side),
    })
}

/// The same of lines of all three views: the first view of which no line covers anything is the
/// fault `EmptyView`.
pub fn drawing(alloc: Global, lines: &[SheetLine]) -> Result<Drawing, Refused>
    ensures drawn { IfOk result (λ d. (g : Segment) → style_in d g ≡ drawing_of lines.now g) }
    ensures shown { OnOk result (IsShown false lines.now) }
    ensures fault { (fault : Fault) → IsErrOf result (Refused.Fault fault)
        → (view : View) × (fault ≡ Fault.EmptyView view) × IsFirstEmptyView lines.now view }
{
    drawing_of_views(alloc, lines, false)
}
