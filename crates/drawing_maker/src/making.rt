//! A made solid, with the grid of its drawing.

ghost use Rattle.std.specs.Prelude.{◌≡◌, IfOk};
ghost use Rattle.solid_model.specs.Panels.{IsGrid};
ghost use Rattle.drawing_maker.specs.Making.{IsMade};
ghost use Rattle.drawing_maker.specs.Rows.{grid_over};

use crate::cells::cells_between;
use crate::cubes::made_cubes;
use crate::ticks::{Tick, coordinates_of, ticks_of};
use columns::draw_in;
use solid_model::{Grid, Memory, Panels, PerAxis};
use std::alloc::Global;

/// The grid with the coordinates of these ticks along each axis, whose segments have these styles.
fn grid_over(alloc: Global, ticks: &[Tick], panels: Panels) -> Result<Grid, Memory>
    requires { IsGrid (grid_over ticks.now panels) }
    ensures { IfOk result (λ grid. grid ≡ grid_over ticks.now panels) }
{
    let xs = coordinates_of(alloc, ticks)?;
    let ys = coordinates_of(alloc, ticks)?;
    let zs = coordinates_of(alloc, ticks)?;
    Ok(Grid::new(xs, ys, zs, panels))
}

/// The grid of the drawing of a solid that is made from a number, by the words of PCG32 with stream
/// 54, and which of the grid's cells it fills, z slowest and x fastest. The solid is a row of 14
/// cubes along the diagonal, the first from (0, 0, 0) on and each other one behind a gap of 1:
/// unit cubes, hollow cubes of side 3 with a void in the middle, and one or two cubes of side 5
/// with eight voids, the first cube among them; each is enlarged by a scale from 1 to 9. An Err is
/// out of memory.
pub fn make(alloc: Global, n: u64) -> Result<(Grid, Vec<bool>), Memory>
    ensures { IfOk result (λ made. IsMade n made.0 made.1.items) }
{
    let cubes = made_cubes(alloc, n)?;
    let ticks = ticks_of(alloc, &cubes)?;
    let cells = cells_between(alloc, &ticks)?;
    let count = ticks.len();
    let counts = PerAxis {
        x: count,
        y: count,
        z: count,
    };
    let panels = draw_in(alloc, counts, &cells)?;
    let grid = grid_over(alloc, &ticks, panels)?;
    Ok((grid, cells))
}
