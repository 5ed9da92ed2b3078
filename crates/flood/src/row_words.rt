//! What is true of the cells of a box with walls, as words: a word is a row of cells along x, and a
//! bit of it a cell.

ghost use Rattle.std.specs.Prelude.{◌≡◌, ◌≤◌, ◌<◌, ℕ, IsTrue, IfOk};
ghost use Rattle.flood.specs.RowWords.{is_inner, opens_back, opens_out, leads_at_once, is_told, AreRowWords, row_bit};
ghost use Rattle.lemmas.specs.Bits.{is_set};
ghost use Rattle.solid_model.specs.Cells.{cell_before, cell_after};
ghost use Rattle.solid_model.specs.declared.cell.Axis.TheVariants.{X};
ghost use Rattle.solid_model.specs.PerAxis.{numbers_of, cell_of, AreFew};
ghost use Rattle.solid_model.specs.WalledBoxes.{is_within};

use crate::walls::Walls;
use solid_model::{Axis, Memory, PerAxis};
use std::alloc::Global;

/// What a bit tells of its cell.
#[derive(Clone, Copy)]
pub enum Told {
    /// Nothing stands between it and the cell before it in the box, along an axis.
    OpensBack(Axis),
    /// Nothing stands between it and a cell outside.
    LeadsOut,
}

/// The cell before one of the box along an axis is one of the box too.
#[inline(always)]
fn has_before(sizes: PerAxis, axis: Axis, cell: PerAxis) -> bool
    requires { IsTrue (is_within (numbers_of sizes) (cell_of cell)) }
    ensures { result ≡ is_within (numbers_of sizes) (cell_before axis (cell_of cell)) }
{
    0 < cell.along(axis)
}

/// The cell after one of the box along an axis is one of the box too.
#[inline(always)]
fn has_after(sizes: PerAxis, axis: Axis, cell: PerAxis) -> bool
    requires few { AreFew (numbers_of sizes) }
    requires within { IsTrue (is_within (numbers_of sizes) (cell_of cell)) }
    ensures { result ≡ is_within (numbers_of sizes) (cell_after axis (cell_of cell)) }
{
    cell.along(axis) + 1 < sizes.along(axis)
}

/// Both neighbours of a cell of the box along an axis are cells of the box too.
#[inline(always)]
fn is_inner(sizes: PerAxis, axis: Axis, cell: PerAxis) -> bool
    requires few { AreFew (numbers_of sizes) }
    requires within { IsTrue (is_within (numbers_of sizes) (cell_of cell)) }
    ensures { result ≡ is_inner (numbers_of sizes) axis (cell_of cell) }
{
    has_before(sizes, axis, cell) && has_after(sizes, axis, cell)
}

/// Nothing stands between a cell and the one before it in the box.
#[inline(always)]
fn opens_back<W: Walls>(walls: &W, sizes: PerAxis, axis: Axis, cell: PerAxis) -> bool
    requires sizes { numbers_of sizes ≡ W.sizes walls.now }
    requires within { IsTrue (is_within (W.sizes walls.now) (cell_of cell)) }
    ensures { result ≡ opens_back (W.sizes walls.now) (W.stands walls.now) axis (cell_of cell) }
{
    has_before(sizes, axis, cell) && !walls.stands(axis, cell)
}

/// Nothing stands between a cell and one outside, along an axis.
fn opens_out<W: Walls>(walls: &W, sizes: PerAxis, axis: Axis, cell: PerAxis) -> bool
    requires sizes { numbers_of sizes ≡ W.sizes walls.now }
    requires few { AreFew (numbers_of sizes) }
    requires within { IsTrue (is_within (W.sizes walls.now) (cell_of cell)) }
    ensures { result ≡ opens_out (W.sizes walls.now) (W.stands walls.now) axis (cell_of cell) }
{
    if !has_before(sizes, axis, cell) && !walls.stands(axis, cell) {
        return true;
    }
    !has_after(sizes, axis, cell) && !walls.stands(axis, cell.after(axis))
}

/// Nothing stands between a cell and one outside. Of most cells all neighbours are in the box.
#[inline(always)]
fn leads_at_once<W: Walls>(walls: &W, sizes: PerAxis, cell: PerAxis) -> bool
    requires sizes { numbers_of sizes ≡ W.sizes walls.now }
    requires few { AreFew (numbers_of sizes) }
    requires within { IsTrue (is_within (W.sizes walls.now) (cell_of cell)) }
    ensures { result ≡ leads_at_once (W.sizes walls.now) (W.stands walls.now) (cell_of cell) }
{
    if is_inner(sizes, Axis::X, cell)
        && is_inner(sizes, Axis::Y, cell)
        && is_inner(sizes, Axis::Z, cell)
    {
        return false;
    }
    opens_out(walls, sizes, Axis::X, cell)
        || opens_out(walls, sizes, Axis::Y, cell)
        || opens_out(walls, sizes, Axis::Z, cell)
}

/// What is told of a cell.
#[inline(always)]
fn is_told<W: Walls>(walls: &W, sizes: PerAxis, told: Told, cell: PerAxis) -> bool
    requires sizes { numbers_of sizes ≡ W.sizes walls.now }
    requires few { AreFew (numbers_of sizes) }
    requires within { IsTrue (is_within (W.sizes walls.now) (cell_of cell)) }
    ensures { result ≡ is_told (W.sizes walls.now) (W.stands walls.now) told (cell_of cell) }
{
    match told {
        Told::OpensBack(axis) => opens_back(walls, sizes, axis, cell),
        Told::LeadsOut => leads_at_once(walls, sizes, cell),
    }
}

/// The word of the row of a cell.
#[inline(always)]
fn row_word<W: Walls>(walls: &W, sizes: PerAxis, told: Told, cell: PerAxis) -> u64
    requires sizes { numbers_of sizes ≡ W.sizes walls.now }
    requires few { AreFew (numbers_of sizes) }
    requires word { sizes.x ≤ 64 }
    requires y { cell.y < sizes.y }
    requires z { cell.z < sizes.z }
    ensures { (k : ℕ) → is_set result k ≡ row_bit (W.sizes walls.now)
        (is_told (W.sizes walls.now) (W.stands walls.now) told) cell.y cell.z k }
{
    let mut word: u64 = 0;
    for x in 0..sizes.x {
        if is_told(walls, sizes, told, PerAxis { x, ..cell }) {
            word |= 1 << x;
        }
    }
    word
}

/// The words of all rows, z slowest. An `Err` is out of memory. It is inlined, since each call has a
/// question of its own, which it doesn't ask anew at each cell then.
#[inline(always)]
pub fn row_words<W: Walls>(alloc: Global, walls: &W, told: Told) -> Result<Vec<u64>, Memory>
    requires word { W.sizes walls.now X ≤ 64 }
    ensures { IfOk result (λ words. AreRowWords (W.sizes walls.now)
        (is_told (W.sizes walls.now) (W.stands walls.now) told) words.items) }
{
    let sizes = walls.sizes();
    let rows = sizes.z * sizes.y;
    let mut words = Vec::with_capacity(alloc, rows)?;
    for row in 0..rows {
        let first = PerAxis {
            x: 0,
            y: row % sizes.y,
            z: row / sizes.y,
        };
        words.push_reserved(row_word(walls, sizes, told, first));
    }
    Ok(words)
}
