//! The positions along an axis at which the views that show it show something.

ghost use Rattle.std.specs.Prelude.{◌≡◌, ◌⊎◌, ◌↔◌, ◌++◌, ℤ, ◌<ℤ◌, IfOk};
ghost use Rattle.solid_model.specs.Grid.{IsGridCoordinate, AreGridCoordinates};
ghost use Rattle.lemmas.specs.Lists.{Member, Ascends};
ghost use Rattle.solid_model.specs.Runs.{IsDrawing, style_in};
ghost use Rattle.grid.specs.Positions.{ends_of, run_lines, ShowsByKind, ShowsInView};

use solid_model::{Axis, Drawing, Run, View};
use std::alloc::{AllocError, Global};

/// The positions, and where the runs begin and end.
fn with_ends(mut positions: Vec<i64>, runs: &[Run]) -> Result<Vec<i64>, AllocError>
    ensures { IfOk result (λ more. more.items ≡ positions.items ++ ends_of runs.now) }
{
    for run in runs {
        positions.extend_from_slice(&[run.from, run.to])?;
    }
    Ok(positions)
}

/// The positions, and on which lines the runs lie.
fn with_lines(mut positions: Vec<i64>, runs: &[Run]) -> Result<Vec<i64>, AllocError>
    ensures { IfOk result (λ more. more.items ≡ positions.items ++ run_lines runs.now) }
{
    for run in runs {
        positions.push(run.at)?;
    }
    Ok(positions)
}

/// The positions, and those that a view shows along its level, or its upright, segments, where
/// these run along the axis: a run of that kind begins or ends at each change of style, and a run
/// of the other kind lies on each line that is drawn.
fn with_kind(
    positions: Vec<i64>,
    drawing: &Drawing,
    view: View,
    upright: bool,
    axis: Axis,
) -> Result<Vec<i64>, AllocError>
    ensures shown { IfOk result (λ more. (z : ℤ) → Member more.items z
        ↔ (Member positions.items z ⊎ ShowsByKind (style_in drawing.now) axis view upright z)) }
    ensures kept { IsDrawing (style_in drawing.now) }
{
    let runs = drawing.view(view);
    if view.frame().along(upright).axis != axis {
        return Ok(positions);
    }
    let positions = with_ends(positions, runs.along(upright).as_slice())?;
    with_lines(positions, runs.along(!upright).as_slice())
}

/// The positions, and those that a view shows along the axis.
fn with_view(
    positions: Vec<i64>,
    drawing: &Drawing,
    view: View,
    axis: Axis,
) -> Result<Vec<i64>, AllocError>
    ensures shown { IfOk result (λ more. (z : ℤ) → Member more.items z
        ↔ (Member positions.items z ⊎ ShowsInView (style_in drawing.now) axis view z)) }
    ensures kept { IsDrawing (style_in drawing.now) }
{
    let positions = with_kind(positions, drawing, view, false, axis)?;
    with_kind(positions, drawing, view, true, axis)
}

/// The positions along the axis at which the drawing shows something, in no order.
fn positions_along(alloc: Global, drawing: &Drawing, axis: Axis) -> Result<Vec<i64>, AllocError>
    ensures shown { IfOk result (λ positions. (z : ℤ)
        → Member positions.items z ↔ IsGridCoordinate (style_in drawing.now) axis z) }
    ensures kept { IsDrawing (style_in drawing.now) }
{
    let mut positions = Vec::new(alloc);
    for view in [View::Front, View::Top, View::Side] {
        positions = with_view(positions, drawing, view, axis)?;
    }
    Ok(positions)
}

/// The positions in order, each once.
fn in_order(mut positions: Vec<i64>) -> Vec<i64>
    ensures ordered { Ascends ◌<ℤ◌ result.items }
    ensures same { (z : ℤ) → Member result.items z ↔ Member positions.items z }
{
    positions.sort_unstable();
    positions.dedup();
    positions
}

/// The grid coordinates of an axis.
pub fn grid_coordinates(
    alloc: Global,
    drawing: &Drawing,
    axis: Axis,
) -> Result<Vec<i64>, AllocError>
    ensures exact { IfOk result (λ zs. AreGridCoordinates (style_in drawing.now) axis zs.items) }
    ensures kept { IsDrawing (style_in drawing.now) }
{
    Ok(in_order(positions_along(alloc, drawing, axis)?))
}
