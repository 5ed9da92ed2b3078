//! The cells of a box from which a chain of steps leads out of it.

ghost use Rattle.std.specs.Prelude.{◌≡◌, ◌≤◌, IsTrue, IfOk};
ghost use Rattle.flood.specs.RowWords.{is_in_rows};
ghost use Rattle.solid_model.specs.declared.cell.Axis.TheVariants.{X};
ghost use Rattle.solid_model.specs.Marks.{AreMarksOf};
ghost use Rattle.solid_model.specs.PerAxis.{numbers_of, cell_of};
ghost use Rattle.solid_model.specs.WalledBoxes.{is_within, LeadsOut};

use crate::row_flood::{RowWays, flood_rows};
use crate::row_words::{Told, row_words};
use crate::walls::Walls;
use cell_rows::has_bit;
use solid_model::{Axis, Marks, Memory, PerAxis};
use std::alloc::Global;

/// Rows have a cell of the box.
fn is_in_rows(sizes: PerAxis, rows: &[u64], cell: PerAxis) -> bool
    requires few { (a : Axis) → numbers_of sizes a ≤ 1022 }
    requires word { sizes.x ≤ 64 }
    requires within { IsTrue (is_within (numbers_of sizes) (cell_of cell)) }
    ensures { result ≡ is_in_rows (numbers_of sizes) rows.now (cell_of cell) }
{
    let row = cell.z * sizes.y + cell.y;
    row < rows.len() && has_bit(rows[row], cell.x)
}

/// The marks on the cells of a box that rows have.
fn marks_in_rows(alloc: Global, sizes: PerAxis, rows: &[u64]) -> Result<Marks, Memory>
    requires few { (a : Axis) → numbers_of sizes a ≤ 1022 }
    requires word { sizes.x ≤ 64 }
    ensures { IfOk result (λ marks. AreMarksOf (numbers_of sizes)
        (λ n. IsTrue (is_in_rows (numbers_of sizes) rows.now n)) marks) }
{
    let count = sizes.count();
    let mut values = Vec::with_capacity(alloc, count)?;
    let mut cell = PerAxis::FIRST;
    for place in 0..count {
        cell = sizes.next_cell(cell, place);
        values.push_reserved(is_in_rows(sizes, rows, cell));
    }
    Ok(Marks::new(sizes, values))
}

/// The cells of a box from which a chain of steps that pass no wall leads out of it. A row along x
/// has at most 64 cells, so that it is a word: steps lead from all cells of a row at once. An `Err`
/// is out of memory.
pub fn leading_out<W: Walls>(alloc: Global, walls: &W) -> Result<Marks, Memory>
    requires word { W.sizes walls.now X ≤ 64 }
    ensures { IfOk result (λ marks. AreMarksOf (W.sizes walls.now)
        (LeadsOut (W.sizes walls.now) (λ a n. IsTrue (W.stands walls.now a n))) marks) }
{
    let sizes = walls.sizes();
    let ways = RowWays {
        layer: sizes.y,
        along: row_words(alloc, walls, Told::OpensBack(Axis::X))?,
        beside: row_words(alloc, walls, Told::OpensBack(Axis::Y))?,
        behind: row_words(alloc, walls, Told::OpensBack(Axis::Z))?,
    };
    let mut reached = row_words(alloc, walls, Told::LeadsOut)?;
    flood_rows(&ways, reached.as_mut_slice());
    let marks = marks_in_rows(alloc, sizes, reached.as_slice())?;
    Ok(marks)
}
