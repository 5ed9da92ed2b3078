//! What a view's lines cover, of one kind, level or upright.

ghost use Rattle.std.specs.Prelude.{◌≡◌, IfOk};
ghost use Rattle.std.specs.List.{list_any};
ghost use Rattle.solid_model.specs.declared.segment.Segment.{Segment};
ghost use Rattle.solid_model.specs.declared.segment.Style.{Style};
ghost use Rattle.solid_model.specs.Drawings.{is_covered};
ghost use Rattle.solid_model.specs.Segments.{along_of, across_of, start_of, line_of};
ghost use Rattle.solid_model.specs.Line.{IsNear};
ghost use Rattle.views.specs.Corners.{from_corner};
ghost use Rattle.views.specs.Strokes.{is_drawn, AreInOrder};
ghost use Rattle.views.specs.LineStrokes.{lies_along, covers_along, stroke_of};

use crate::corner::Corner;
use solid_model::{SheetLine, Style, View};
use std::alloc::{AllocError, Global};

/// What a line covers of a view, of one style, on the line `at` across it, from `from` to `to`
/// along it. Strokes may overlap.
#[derive(Clone, Copy, Debug)]
pub struct Stroke {
    pub at: i64,
    pub from: i64,
    pub to: i64,
    pub style: Style,
}

/// The coordinates of the line's ends along level or upright segments.
fn ends_along(line: &SheetLine, upright: bool) -> (i64, i64)
    ensures from { result.0 ≡ along_of upright line.now.x0 line.now.y0 }
    ensures to { result.1 ≡ along_of upright line.now.x1 line.now.y1 }
    ensures near { IsNear result.0 × IsNear result.1 }
{
    if upright {
        (line.y0, line.y1)
    } else {
        (line.x0, line.x1)
    }
}

/// The coordinates of the line's ends across level or upright segments.
fn ends_across(line: &SheetLine, upright: bool) -> (i64, i64)
    ensures from { result.0 ≡ across_of upright line.now.x0 line.now.y0 }
    ensures to { result.1 ≡ across_of upright line.now.x1 line.now.y1 }
    ensures near { IsNear result.0 × IsNear result.1 }
{
    ends_along(line, !upright)
}

/// The line is level or upright, as is asked, and has length.
fn lies_along(line: &SheetLine, upright: bool) -> bool
    ensures { result ≡ lies_along upright line.now }
{
    let (from, to) = ends_along(line, upright);
    let (at, at_end) = ends_across(line, upright);
    at == at_end && from != to
}

/// And it is the view's.
fn covers_along(line: &SheetLine, view: View, upright: bool) -> bool
    ensures { result ≡ covers_along view upright line.now }
{
    view == line.view && lies_along(line, upright)
}

/// What the line covers of the view, whose corner comes to 0.
fn stroke_of(line: &SheetLine, upright: bool, corner: Corner) -> Stroke
    ensures { result ≡ stroke_of corner upright line.now }
{
    let (from, to) = ends_along(line, upright);
    let (at, _) = ends_across(line, upright);
    let along = corner.along(upright);
    Stroke {
        at: at - corner.across(upright),
        from: from.min(to) - along,
        to: from.max(to) - along,
        style: line.style,
    }
}

/// The strokes of the view's level, or its upright, lines, in the lines' order.
fn strokes_of(
    alloc: Global,
    lines: &[SheetLine],
    view: View,
    upright: bool,
    corner: Corner,
) -> Result<Vec<Stroke>, AllocError>
    ensures { IfOk result (λ strokes. (style : Style) (g : Segment)
        → g.view ≡ view → g.upright ≡ upright
        → list_any (is_drawn style (line_of g) (start_of g)) strokes.items
        ≡ is_covered style lines.now (from_corner corner g)) }
{
    let mut strokes = Vec::new(alloc);
    for line in lines {
        if covers_along(line, view, upright) {
            strokes.push(stroke_of(line, upright, corner))?;
        }
    }
    Ok(strokes)
}

/// The same strokes, by line and then start.
pub fn strokes_in_order(
    alloc: Global,
    lines: &[SheetLine],
    view: View,
    upright: bool,
    corner: Corner,
) -> Result<Vec<Stroke>, AllocError>
    ensures drawn { IfOk result (λ strokes. (style : Style) (g : Segment)
        → g.view ≡ view → g.upright ≡ upright
        → list_any (is_drawn style (line_of g) (start_of g)) strokes.items
        ≡ is_covered style lines.now (from_corner corner g)) }
    ensures ordered { IfOk result (λ strokes. AreInOrder strokes.items) }
{
    let mut strokes = strokes_of(alloc, lines, view, upright, corner)?;
    strokes.sort_by_key(|stroke| (stroke.at, stroke.from))?;
    Ok(strokes)
}
