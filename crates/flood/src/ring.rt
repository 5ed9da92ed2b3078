//! The ring of cells round a box, and what bars the ways in it.

ghost use Rattle.std.specs.Prelude.{◌≡◌, ◌≤◌, None, false, IsTrue, IfSome, IfOk};
ghost use Rattle.flood.specs.Passages.{parts_of};
ghost use Rattle.flood.specs.Ring.{ringed, inner, outer, touches_box, has_bar_before, AreBarsBefore, AreAllBars, ArePassages};
ghost use Rattle.solid_model.specs.declared.cell.Axis.{Axis};
ghost use Rattle.solid_model.specs.PerAxis.{numbers_of, cell_of, AreFew};
ghost use Rattle.solid_model.specs.WalledBoxes.{Sizes, is_within};

use crate::cell_bars::CellBars;
use crate::passages::Passages;
use crate::walls::Walls;
use solid_model::{Axis, Memory, PerAxis};
use std::alloc::Global;

/// The sizes of a box with its ring.
pub fn ringed(sizes: PerAxis) -> PerAxis
    requires { (a : Axis) → numbers_of sizes a ≤ 1022 }
    ensures sizes { numbers_of result ≡ ringed (numbers_of sizes) }
    ensures few { AreFew (numbers_of result) }
{
    PerAxis {
        x: sizes.x + 2,
        y: sizes.y + 2,
        z: sizes.z + 2,
    }
}

/// The numbers of a cell counted from the ring.
pub fn outer(cell: PerAxis) -> PerAxis
    requires { AreFew (numbers_of cell) }
    ensures { cell_of result ≡ outer (cell_of cell) }
{
    PerAxis {
        x: cell.x + 1,
        y: cell.y + 1,
        z: cell.z + 1,
    }
}

/// The numbers in the box of a cell that is counted from the ring, where they are 0 or more.
fn inner(cell: PerAxis) -> Option<PerAxis>
    ensures some { IfSome result (λ n. cell_of n ≡ inner (cell_of cell)) }
    ensures none { result ≡ None → (sizes : Sizes) (a : Axis)
        → touches_box sizes a (inner (cell_of cell)) ≡ false }
{
    Some(PerAxis {
        x: cell.x.checked_sub(1)?,
        y: cell.y.checked_sub(1)?,
        z: cell.z.checked_sub(1)?,
    })
}

/// One of the two cells on the sides of the face before a cell stands in the box.
fn touches_box(sizes: PerAxis, axis: Axis, cell: PerAxis) -> bool
    ensures { result ≡ touches_box (numbers_of sizes) axis (cell_of cell) }
{
    sizes.has(cell)
        || match cell.before(axis) {
            Some(before) => sizes.has(before),
            None => false,
        }
}

/// Something bars the way back along an axis from a cell that is counted from the ring.
fn has_bar<W: Walls>(walls: &W, sizes: PerAxis, axis: Axis, cell: PerAxis) -> bool
    requires sizes { numbers_of sizes ≡ W.sizes walls.now }
    requires within { IsTrue (is_within (ringed (W.sizes walls.now)) (cell_of cell)) }
    ensures { result ≡ has_bar_before (W.sizes walls.now) (W.stands walls.now) axis
        (inner (cell_of cell)) }
{
    if cell.along(axis) == 0 {
        return true;
    }
    match inner(cell) {
        Some(cell) => touches_box(sizes, axis, cell) && walls.stands(axis, cell),
        None => false,
    }
}

/// What bars the ways back from a cell of the box.
fn bars_within<W: Walls>(walls: &W, cell: PerAxis) -> CellBars
    requires { IsTrue (is_within (W.sizes walls.now) (cell_of cell)) }
    ensures { AreBarsBefore (W.sizes walls.now) (W.stands walls.now) (cell_of cell) result }
{
    CellBars {
        x: walls.stands(Axis::X, cell),
        y: walls.stands(Axis::Y, cell),
        z: walls.stands(Axis::Z, cell),
    }
}

/// What bars the ways back from a cell that is counted from the ring.
fn bars_before<W: Walls>(walls: &W, sizes: PerAxis, cell: PerAxis) -> CellBars
    requires sizes { numbers_of sizes ≡ W.sizes walls.now }
    requires within { IsTrue (is_within (ringed (W.sizes walls.now)) (cell_of cell)) }
    ensures { AreBarsBefore (W.sizes walls.now) (W.stands walls.now) (inner (cell_of cell))
        result }
{
    match inner(cell) {
        Some(own) if sizes.has(own) => bars_within(walls, own),
        _ => CellBars {
            x: has_bar(walls, sizes, Axis::X, cell),
            y: has_bar(walls, sizes, Axis::Y, cell),
            z: has_bar(walls, sizes, Axis::Z, cell),
        },
    }
}

/// What bars the ways back from the cells of a box and its ring.
fn all_bars<W: Walls>(alloc: Global, walls: &W) -> Result<Vec<CellBars>, Memory>
    ensures { IfOk result (λ bars. AreAllBars (W.sizes walls.now) (W.stands walls.now)
        bars.items) }
{
    let sizes = walls.sizes();
    let all = ringed(sizes);
    let mut bars = Vec::with_capacity(alloc, all.count())?;
    let mut cell = PerAxis::FIRST;
    for place in 0..all.count() {
        cell = all.next_cell(cell, place);
        bars.push_reserved(bars_before(walls, sizes, cell));
    }
    Ok(bars)
}

/// The cells of a box and its ring, and the ways between them that no wall bars.
pub fn passages<W: Walls>(alloc: Global, walls: &W) -> Result<Passages, Memory>
    ensures { IfOk result (λ g. ArePassages (W.sizes walls.now) (W.stands walls.now)
        (parts_of g)) }
{
    let sizes = ringed(walls.sizes());
    Ok(Passages {
        count: sizes.count(),
        strides: PerAxis {
            x: 1,
            y: sizes.x,
            z: sizes.x * sizes.y,
        },
        bars: all_bars(alloc, walls)?,
    })
}
