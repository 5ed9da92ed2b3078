//! Grid cells of which a whole view shows what a section shows of others.

ghost use Rattle.std.specs.Prelude.{◌≡◌, ◌↔◌, ◌≤◌, false, slice_index_or, IsTrue, IfOk, if◌then◌else◌};
ghost use Rattle.solid_model.specs.declared.cell.Axis.{Axis};
ghost use Rattle.solid_model.specs.GridPlaces.{place_in};
ghost use Rattle.solid_model.specs.Limits.{most_grid_coordinates};
ghost use Rattle.solid_model.specs.Panels.{coordinates_of};
ghost use Rattle.solid_model.specs.PerAxis.{numbers_of};
ghost use Rattle.section_laws.specs.Shaded.{IsShaded, IsInSlab, IsLeftCell, AreLeftCells};

use solid_model::{Direction, Grid, Memory, PerAxis, place_of_cell};
use std::alloc::Global;

/// The grid cell is chosen, in a list of all of them with z slowest and x fastest.
fn is_chosen(cells: &[bool], sizes: PerAxis, cell: PerAxis) -> bool
    requires sizes { (a : Axis) → numbers_of sizes a ≤ most_grid_coordinates }
    requires cell { (a : Axis) → numbers_of cell a ≤ most_grid_coordinates }
    ensures { result
        ≡ slice_index_or cells.now (place_in (numbers_of sizes) (numbers_of cell)) false }
{
    let place = place_of_cell(sizes, cell);
    place < cells.len() && cells[place]
}

/// The less of the two ends of a row of gaps along a direction.
fn least_end(away: Direction, first: usize, own: usize) -> usize
    ensures { result ≡ (if away.forward then first else own) }
{
    if away.forward { first } else { own }
}

/// The greater one.
fn greatest_end(away: Direction, first: usize, own: usize) -> usize
    ensures { result ≡ (if away.forward then own else first) }
{
    if away.forward { own } else { first }
}

/// A cell is chosen in the row of a grid cell along the sight, from the gap `first` to its own.
fn is_shaded(cells: &[bool], sizes: PerAxis, away: Direction, first: usize, cell: PerAxis) -> bool
    requires sizes { (a : Axis) → numbers_of sizes a ≤ most_grid_coordinates }
    requires first { first ≤ most_grid_coordinates }
    requires cell { (a : Axis) → numbers_of cell a ≤ most_grid_coordinates }
    ensures { IsTrue result
        ↔ IsShaded away (numbers_of sizes) first cells.now (numbers_of cell) }
{
    let own = cell.along(away.axis);
    let last = greatest_end(away, first, own);
    for number in least_end(away, first, own)..last + 1 {
        if is_chosen(cells, sizes, cell.numbered(away.axis, number)) {
            return true;
        }
    }
    false
}

/// A grid cell lies in a gap along the sight, and is chosen.
fn is_in_slab(cells: &[bool], sizes: PerAxis, away: Direction, gap: usize, cell: PerAxis) -> bool
    requires sizes { (a : Axis) → numbers_of sizes a ≤ most_grid_coordinates }
    requires cell { (a : Axis) → numbers_of cell a ≤ most_grid_coordinates }
    ensures { IsTrue result
        ↔ IsInSlab away (numbers_of sizes) gap cells.now (numbers_of cell) }
{
    if cell.along(away.axis) != gap {
        return false;
    }
    is_chosen(cells, sizes, cell)
}

/// A grid cell belongs to the area that is cut in a gap along the sight, or to all that is left from
/// that gap on.
fn is_kept(
    cells: &[bool],
    sizes: PerAxis,
    away: Direction,
    gap: usize,
    area: bool,
    cell: PerAxis,
) -> bool
    requires sizes { (a : Axis) → numbers_of sizes a ≤ most_grid_coordinates }
    requires gap { gap ≤ most_grid_coordinates }
    requires cell { (a : Axis) → numbers_of cell a ≤ most_grid_coordinates }
    ensures { IsTrue result
        ↔ IsLeftCell area away (numbers_of sizes) gap cells.now (numbers_of cell) }
{
    if area {
        is_in_slab(cells, sizes, away, gap, cell)
    } else {
        is_shaded(cells, sizes, away, gap, cell)
    }
}

/// The chosen grid cells that lie in a gap along the sight, or all that are at or behind a chosen
/// one from that gap on: z slowest and x fastest. An `Err` is out of memory.
pub fn kept_cells(
    alloc: Global,
    grid: &Grid,
    away: Direction,
    gap: usize,
    area: bool,
    cells: &[bool],
) -> Result<Vec<bool>, Memory>
    requires { gap ≤ most_grid_coordinates }
    ensures { IfOk result (λ kept.
        AreLeftCells area away (coordinates_of grid.now) gap cells.now kept.items) }
{
    let sizes = grid.sizes();
    let mut kept = Vec::new(alloc);
    for place in 0..sizes.count() {
        kept.push(is_kept(cells, sizes, away, gap, area, sizes.cell(place)))?;
    }
    Ok(kept)
}
