//! Whether a solid fits the further views and sections of a drawing.

ghost use Rattle.std.specs.Prelude.{◌↔◌, List, IsTrue, IfOk};
ghost use Rattle.solid_model.specs.declared.cell.Cell.{Cell};
ghost use Rattle.solid_model.specs.Cells.{is_full};
ghost use Rattle.solid_model.specs.Choices.{cells_of_choice};
ghost use Rattle.solid_model.specs.Grid.{IsUnionOf};
ghost use Rattle.solid_model.specs.Panels.{coordinates_of};
ghost use Rattle.further_views.specs.Further.{view_style};
ghost use Rattle.six_views.specs.Fits.{ShowsLayer, ShowsLeft, ShowsMoved};
ghost use Rattle.six_views.specs.Further.{FitsRuns};
ghost use Rattle.six_views.specs.SightFrames.{sight_frame};

use crate::frames::sight_frame;
use crate::moved::{first_line, views_are_moved};
use crate::seen::seen_lines;
use further_views::{Cut, Further, Layer};
use section_laws::cells_left;
use solid_model::{Choice, Grid, Memory, Problem, ViewLines};
use std::alloc::Global;

/// Whether a layer's whole view of the chosen cells of a grid, moved to least coordinates 0, shows
/// these runs.
fn shows_whole(
    alloc: Global,
    grid: &Grid,
    layer: Layer,
    cells: &[bool],
    shown: &ViewLines,
) -> Result<bool, Memory>
    ensures { IfOk result (λ yes. (s : List Cell)
        → IsUnionOf (coordinates_of grid.now) cells.now (is_full s)
        → (IsTrue yes ↔ ShowsMoved (sight_frame layer) (is_full s) (view_style shown.now)
        layer.view)) }
{
    let own = seen_lines(alloc, grid, layer, cells)?;
    let level = own.level.as_slice();
    let upright = own.upright.as_slice();
    let Some(right) = first_line(upright) else {
        return Ok(false);
    };
    let Some(up) = first_line(level) else {
        return Ok(false);
    };
    Ok(views_are_moved(&own, shown, right, up))
}

/// Whether what a cut leaves of the chosen cells, hidden edges left out, shows them.
fn shows_left(
    alloc: Global,
    grid: &Grid,
    layer: Layer,
    cut: Cut,
    cells: &[bool],
    shown: &ViewLines,
) -> Result<bool, Memory>
    ensures { IfOk result (λ yes. (s : List Cell)
        → IsUnionOf (coordinates_of grid.now) cells.now (is_full s)
        → (IsTrue yes ↔ ShowsLeft (sight_frame layer) cut s (view_style shown.now)
        layer.view)) }
{
    grid.known();
    let left = cells_left(alloc, grid, sight_frame(layer), cut.at, cut.area, cells)?;
    let Some(kept) = left else {
        return Ok(false);
    };
    shows_whole(alloc, grid, layer, &kept, shown)
}

/// Whether the chosen cells of a grid show these runs as a layer does: whole or cut, moved to least
/// coordinates 0. An `Err` is out of memory.
pub fn shows(
    alloc: Global,
    grid: &Grid,
    layer: Layer,
    cells: &[bool],
    shown: &ViewLines,
) -> Result<bool, Memory>
    ensures { IfOk result (λ yes. (s : List Cell)
        → IsUnionOf (coordinates_of grid.now) cells.now (is_full s)
        → (IsTrue yes ↔ ShowsLayer layer s (view_style shown.now))) }
{
    match layer.cut {
        Some(cut) => shows_left(alloc, grid, layer, cut, cells, shown),
        None => shows_whole(alloc, grid, layer, cells, shown),
    }
}

/// Whether the solid that a choice of a problem's blocks fills fits the further views and sections:
/// it shows the runs of each layer that is asked for. A choice that fills no cell fits where none
/// is. An `Err` is out of memory.
pub fn fits(
    alloc: Global,
    problem: &Problem,
    further: &Further,
    choice: &Choice,
) -> Result<bool, Memory>
    ensures { IfOk result (λ yes. (s : List Cell)
        → IsUnionOf (coordinates_of problem.now.grid)
        (cells_of_choice problem.now.blocks.numbers choice.now) (is_full s)
        → (IsTrue yes ↔ FitsRuns further.now s)) }
{
    let cells = problem.cells(alloc, choice)?;
    let grid = problem.grid();
    for view in further.as_slice() {
        if !shows(alloc, grid, view.layer, &cells, &view.lines)? {
            return Ok(false);
        }
    }
    Ok(true)
}
