//! What a layer's whole view shows of chosen grid cells, as its view shows it of the solid, turned
//! where it is seen from the opposite side. No cell is turned: the layer's own columns are the
//! view's of the turned grid cells.

ghost use Rattle.std.specs.Prelude.{◌≡◌, Bool, List, ℤ, IfOk};
ghost use Rattle.solid_model.specs.declared.cell.Cell.{Cell};
ghost use Rattle.solid_model.specs.declared.segment.Segment.{Segment};
ghost use Rattle.solid_model.specs.Cells.{is_full};
ghost use Rattle.solid_model.specs.DrawnStyle.{solid_drawing};
ghost use Rattle.solid_model.specs.Grid.{IsUnionOf};
ghost use Rattle.solid_model.specs.Panels.{coordinates_of};
ghost use Rattle.solid_model.specs.Runs.{run_style};
ghost use Rattle.solid_model.specs.Segments.{segment_at};
ghost use Rattle.further_views.specs.Further.{view_style};
ghost use Rattle.six_views.specs.Turned.{AreSightColumns, mirrored_places, stays, turn_axis, turned_cells, turned_coordinates};

use crate::frames::sight_frame;
use column_lanes::Column;
use columns::{counts_of, styles_along, view_columns};
use further_views::Layer;
use redraw::runs_on;
use solid_model::{Axis, Grid, Memory, Runs, View, ViewLines};
use std::alloc::Global;

/// The coordinates of a grid along an axis, each with the other sign, in order.
fn mirrored_places(alloc: Global, grid: &Grid, axis: Axis) -> Result<Vec<i64>, Memory>
    ensures { IfOk result (λ places.
        places.items ≡ mirrored_places (coordinates_of grid.now axis)) }
{
    let coordinates = grid.coordinates(axis);
    let mut places = Vec::new(alloc);
    for done in 0..coordinates.len() {
        places.push(-coordinates[coordinates.len() - 1 - done])?;
    }
    Ok(places)
}

/// The axis round which a solid is turned to be seen from the side opposite to a view's own.
fn turn_axis(view: View) -> Axis
    ensures { result ≡ turn_axis view }
{
    match view {
        View::Front | View::Side => Axis::Z,
        View::Top => Axis::X,
    }
}

/// Along this axis a layer sees coordinates as they are, and not mirrored.
fn stays(layer: Layer, axis: Axis) -> bool
    ensures { result ≡ stays layer axis }
{
    !layer.opposite || turn_axis(layer.view) == axis
}

/// The coordinates along an axis of a grid that is turned to be seen as a layer.
pub fn turned_places(
    alloc: Global,
    grid: &Grid,
    layer: Layer,
    axis: Axis,
) -> Result<Vec<i64>, Memory>
    ensures { IfOk result (λ places. places.items
        ≡ turned_coordinates layer (coordinates_of grid.now) axis) }
{
    if stays(layer, axis) {
        Ok(Vec::from_slice(alloc, grid.coordinates(axis))?)
    } else {
        mirrored_places(alloc, grid, axis)
    }
}

/// The level, or the upright, runs that a layer's whole view shows, whose columns are these.
fn runs_along(
    alloc: Global,
    grid: &Grid,
    layer: Layer,
    columns: &[Column],
    upright: bool,
) -> Result<Runs, Memory>
    requires { (chosen : List Bool)
        × AreSightColumns layer (coordinates_of grid.now) chosen columns.now }
    ensures { IfOk result (λ runs. (chosen : List Bool) (s : List Cell)
        → AreSightColumns layer (coordinates_of grid.now) chosen columns.now
        → IsUnionOf (coordinates_of grid.now) chosen (is_full s) → (j z : ℤ)
        → run_style runs j z
        ≡ solid_drawing (turned_cells layer s) (segment_at layer.view upright z j)) }
{
    let frame = layer.view.frame();
    let styles = styles_along(alloc, layer.view, counts_of(grid), columns, upright)?;
    let lines = turned_places(alloc, grid, layer, frame.across(upright).axis)?;
    let ends = turned_places(alloc, grid, layer, frame.along(upright).axis)?;
    Ok(Runs::new(runs_on(alloc, &lines, &ends, &styles)?))
}

/// The runs that a layer's whole view shows of the chosen cells of a grid, wherever they begin.
pub fn seen_lines(
    alloc: Global,
    grid: &Grid,
    layer: Layer,
    cells: &[bool],
) -> Result<ViewLines, Memory>
    ensures { IfOk result (λ lines. (s : List Cell)
        → IsUnionOf (coordinates_of grid.now) cells.now (is_full s)
        → (g : Segment) → g.view ≡ layer.view
        → view_style lines g ≡ solid_drawing (turned_cells layer s) g) }
{
    let columns = view_columns(alloc, sight_frame(layer), counts_of(grid).gaps(), cells)?;
    Ok(ViewLines {
        level: runs_along(alloc, grid, layer, &columns, false)?,
        upright: runs_along(alloc, grid, layer, &columns, true)?,
    })
}
