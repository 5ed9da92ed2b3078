//! The boundary squares of a plane.

ghost use Rattle.std.specs.Prelude.{◌≡◌, ◌<◌, ◌&&◌, not, ℕ, pos, slice_index_or, IfOk};
ghost use Rattle.faces.specs.PlaneSquares.{is_there};
ghost use Rattle.lemmas.specs.Bits.{is_set};
ghost use Rattle.solid_model.specs.Faces.{inner_cell, outer_cell, is_boundary};
ghost use Rattle.solid_model.specs.Marks.{is_marked};
ghost use Rattle.solid_model.specs.Rounds.{Spot};

use crate::squares::Squares;
use cell_rows::{CellRows, LayerRows};
use solid_model::{Memory, Out};
use std::alloc::Global;

/// The rows of the cells that lie inwards from a plane.
fn inner_rows(cells: &CellRows, out: Out, at: usize) -> LayerRows<'_>
    ensures { (u v : ℕ) → u < 64 → is_set (slice_index_or result v 0) u
        ≡ is_marked cells.now (inner_cell out (pos at) (record { u = pos u; v = pos v })) }
{
    if out.direction().forward {
        cells.layer_before(out, at)
    } else {
        cells.layer(out, at)
    }
}

/// The rows of the cells that lie outwards from it.
fn outer_rows(cells: &CellRows, out: Out, at: usize) -> LayerRows<'_>
    ensures { (u v : ℕ) → u < 64 → is_set (slice_index_or result v 0) u
        ≡ is_marked cells.now (outer_cell out (pos at) (record { u = pos u; v = pos v })) }
{
    if out.direction().forward {
        cells.layer(out, at)
    } else {
        cells.layer_before(out, at)
    }
}

/// The boundary squares of a row: those with a full cell inwards and an empty one outwards.
fn boundary_row(inner: &LayerRows<'_>, outer: &LayerRows<'_>, v: usize) -> u64
    ensures { (u : ℕ) → u < 64 → is_set result u ≡ (is_set (slice_index_or inner.now v 0) u
        && not (is_set (slice_index_or outer.now v 0) u)) }
{
    inner.row(v) & !outer.row(v)
}

/// The boundary squares of the marked cells in the plane at a whole coordinate, for whoever looks
/// at it from outside. An `Err` is out of memory.
pub fn plane_squares(
    alloc: Global,
    cells: &CellRows,
    out: Out,
    at: usize,
) -> Result<Squares, Memory>
    ensures { IfOk result (λ squares. (q : Spot)
        → is_there squares q ≡ is_boundary (is_marked cells.now) out (pos at) q) }
{
    let height = cells.sizes().along(out.up());
    let inner = inner_rows(cells, out, at);
    let outer = outer_rows(cells, out, at);
    let mut rows = Vec::with_capacity(alloc, height)?;
    for v in 0..height {
        rows.push(boundary_row(&inner, &outer, v))?;
    }
    Ok(Squares::new(rows))
}
