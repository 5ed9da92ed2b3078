//! Grid cells that stand for what a plane leaves of a solid, wherever it lies.

ghost use Rattle.std.specs.Prelude.{IfOk, MatchOption, List, Bool};
ghost use Rattle.solid_model.specs.Frames.{IsFrame};
ghost use Rattle.solid_model.specs.Panels.{coordinates_of};
ghost use Rattle.section_laws.specs.LeftCells.{DrawsWhatIsLeft, IsLeftFrom, LeavesNothing};

use crate::cut_cells::kept_cells;
use crate::gaps::{first_gap, holds_left};
use solid_model::{Frame, Grid, Memory};
use std::alloc::Global;

/// The gap along a frame's sight that tells of all grid cells what a plane across the sight leaves:
/// all from that gap on, or the area that is cut in it. `None` where nothing is left, whichever
/// cells are chosen.
pub fn cut_gap(grid: &Grid, frame: Frame, plane: i64, area: bool) -> Option<usize>
    requires { IsFrame frame }
    ensures { MatchOption result
        ((chosen : List Bool) → LeavesNothing frame (coordinates_of grid.now) chosen plane area)
        (IsLeftFrom frame (coordinates_of grid.now) plane area) }
{
    let coordinates = grid.coordinates(frame.away.axis);
    let Some(gap) = first_gap(coordinates, frame.away.forward, plane) else {
        return None;
    };
    if !holds_left(coordinates, frame.away.forward, gap, plane, area) {
        return None;
    }
    Some(gap)
}

/// Grid cells whose solid draws in a frame what a plane across the sight leaves of the union of
/// chosen ones, hidden edges left out: of all behind it, or of the area that it cuts. `None` where
/// nothing is left. An `Err` is out of memory.
pub fn cells_left(
    alloc: Global,
    grid: &Grid,
    frame: Frame,
    plane: i64,
    area: bool,
    cells: &[bool],
) -> Result<Option<Vec<bool>>, Memory>
    requires { IsFrame frame }
    ensures { IfOk result (λ left. MatchOption left
        (LeavesNothing frame (coordinates_of grid.now) cells.now plane area)
        (λ kept. DrawsWhatIsLeft frame (coordinates_of grid.now) cells.now plane area
        kept.items)) }
{
    grid.known();
    let Some(gap) = cut_gap(grid, frame, plane, area) else {
        return Ok(None);
    };
    let kept = kept_cells(alloc, grid, frame.away, gap, area, cells)?;
    Ok(Some(kept))
}
