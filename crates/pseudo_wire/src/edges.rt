//! What the views show of a grid's points and edges.

ghost use Rattle.std.specs.Prelude.{◌≡◌, ◌≤◌};
ghost use Rattle.solid_model.specs.PerAxis.{numbers_of, cell_of};
ghost use Rattle.solid_model.specs.Wire.{is_drawn_from, is_end_of_drawn, is_on_drawn, is_drawn_or_point};
ghost use Rattle.pseudo_wire.specs.DrawnPoints.{is_marked_edge};

use crate::drawn_points::is_marked_point;
use solid_model::{Axis, Grid, Marks, PerAxis, PerView, Style, View};

/// The view shows something on the level, or the upright, segment that begins where the point
/// projects.
fn is_drawn_from(grid: &Grid, view: View, upright: bool, point: PerAxis) -> bool
    ensures { result ≡ is_drawn_from grid.now view upright (cell_of point) }
{
    let frame = view.frame();
    let line = point.along(frame.across(upright).axis);
    let cell = point.along(frame.along(upright).axis);
    grid.style_at(view, upright, line, cell) != Style::Blank
}

/// The point's projection is an end of such a segment.
fn is_end_of_drawn(grid: &Grid, view: View, upright: bool, point: PerAxis) -> bool
    ensures { result ≡ is_end_of_drawn grid.now view upright (cell_of point) }
{
    let axis = view.frame().along(upright).axis;
    is_drawn_from(grid, view, upright, point)
        || match point.before(axis) {
            Some(before) => is_drawn_from(grid, view, upright, before),
            None => false,
        }
}

/// The point's projection lies on something that the view shows, or the view is missing.
pub fn is_on_drawn(grid: &Grid, point: PerAxis, view: View) -> bool
    ensures { result ≡ is_on_drawn grid.now (cell_of point) view }
{
    !grid.shows(view)
        || is_end_of_drawn(grid, view, false, point)
        || is_end_of_drawn(grid, view, true, point)
}

/// The view shows something where the edge along an axis from a point projects, or sees the edge as
/// a point, or is missing.
fn is_drawn_or_point(grid: &Grid, axis: Axis, point: PerAxis, view: View) -> bool
    ensures { result ≡ is_drawn_or_point grid.now axis (cell_of point) view }
{
    let frame = view.frame();
    !grid.shows(view)
        || (frame.along(false).axis != axis || is_drawn_from(grid, view, false, point))
            && (frame.along(true).axis != axis || is_drawn_from(grid, view, true, point))
}

/// The edge along an axis from a point is drawn in each of the two views that show it as a segment,
/// but for a missing one, and its ends have marks wherever they project.
pub fn is_marked_edge(grid: &Grid, points: &PerView<Marks>, axis: Axis, point: PerAxis) -> bool
    requires { numbers_of point axis ≤ 1024 }
    ensures { result ≡ is_marked_edge grid.now points.now axis (cell_of point) }
{
    is_drawn_or_point(grid, axis, point, View::Front)
        && is_drawn_or_point(grid, axis, point, View::Top)
        && is_drawn_or_point(grid, axis, point, View::Side)
        && is_marked_point(points, point)
        && is_marked_point(points, point.after(axis))
}
