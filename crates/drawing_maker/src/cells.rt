//! Which of the cells between the ticks of a row are full.
//!
//! What lies before each tick, a part of a cube or nothing, tells which cells are full.

ghost use Rattle.std.specs.Prelude.{◌≡◌, ◌≤◌, ◌++◌, length, map, drop, IfOk, OnOk};
ghost use Rattle.std.specs.List.{flat_map};
ghost use Rattle.drawing_maker.specs.Rows.{is_full_part, is_full_before, cells_in_line, cells_in_layer, cells_before};

use crate::ticks::{Part, Tick};
use solid_model::Memory;
use std::alloc::Global;

/// The cell that lies in these parts along x, y and z is full: all three are of one cube, which
/// the origins tell, since no two begin at one coordinate, and it isn't a void of that cube.
fn is_full_part(x: Part, y: Part, z: Part) -> bool
    ensures { result ≡ is_full_part x y z }
{
    x.cube.origin == y.cube.origin
        && (y.cube.origin == z.cube.origin && !x.cube.kind.is_void(x.place, y.place, z.place))
}

/// The cell that lies before these ticks along x, y and z is full.
fn is_full_before(x: Tick, y: Tick, z: Tick) -> bool
    ensures { result ≡ is_full_before x y z }
{
    match (x.before, y.before, z.before) {
        (Some(x), Some(y), Some(z)) => is_full_part(x, y, z),
        _ => false,
    }
}

/// Adds the cells before each of the ticks along x.
fn push_line(cells: &mut Vec<bool>, ticks: &[Tick], y: Tick, z: Tick) -> Result<(), Memory>
    ensures { OnOk result (cells.new.items ≡ cells.old.items ++ cells_in_line ticks.now y z) }
{
    for x in ticks {
        cells.push(is_full_before(*x, y, z))?;
    }
    Ok(())
}

/// Adds those before each of the ticks along x and y.
fn push_layer(cells: &mut Vec<bool>, ticks: &[Tick], z: Tick) -> Result<(), Memory>
    ensures { OnOk result (cells.new.items ≡ cells.old.items ++ cells_in_layer ticks.now z) }
{
    for y in ticks {
        push_line(cells, ticks, *y, z)?;
    }
    Ok(())
}

/// The cells before each of the ticks along x, y and z, z slowest and x fastest.
fn cells_before(alloc: Global, ticks: &[Tick]) -> Result<Vec<bool>, Memory>
    ensures { IfOk result (λ cells. cells.items ≡ cells_before ticks.now) }
{
    let mut cells = Vec::new(alloc);
    for z in ticks {
        push_layer(&mut cells, ticks, *z)?;
    }
    Ok(cells)
}

/// The cells between the ticks along x, y and z, z slowest and x fastest: those before all ticks
/// but the first one; an Err is out of memory.
pub fn cells_between(alloc: Global, ticks: &[Tick]) -> Result<Vec<bool>, Memory>
    requires { 1 ≤ length ticks.now }
    ensures { IfOk result (λ cells. cells.items ≡ cells_before (drop 1 ticks.now)) }
{
    cells_before(alloc, &ticks[1..])
}
