//! Boxes of cells, as rows tell them.

ghost use Rattle.std.specs.Prelude.{◌≡◌, ◌≤◌, IfOk};
ghost use Rattle.solid_model.specs.declared.cell.Axis.{Axis};
ghost use Rattle.solid_model.specs.Limits.{most_grid_coordinates};
ghost use Rattle.solid_model.specs.PerAxis.{numbers_of};

use cell_rows::CellRows;
use solid_model::{Marks, PerAxis};
use std::alloc::Global;
use std::test::Fail;

/// The number that a digit stands for.
fn number(digit: Option<u8>) -> usize
    ensures { result ≤ 9 }
{
    usize::from(digit.unwrap_or(b'0').saturating_sub(b'0') % 10)
}

/// Numbers along x, y and z, a digit each.
pub fn numbers(text: &str) -> PerAxis
    ensures few { (a : Axis) → numbers_of result a ≤ 63 }
    ensures coordinates { (a : Axis) → numbers_of result a ≤ most_grid_coordinates }
{
    let mut digits = text.bytes();
    PerAxis {
        x: number(digits.next()),
        y: number(digits.next()),
        z: number(digits.next()),
    }
}

/// Cells, a `#` for each that is chosen and a `.` for each other one, whatever stands between them.
pub fn cells(alloc: Global, text: &str) -> Result<Vec<bool>, Fail> {
    let mut cells = Vec::new(alloc);
    for byte in text.bytes() {
        if byte == b'#' || byte == b'.' {
            cells.push(byte == b'#')?;
        }
    }
    Ok(cells)
}

/// The rows of the chosen cells of a box of these sizes.
pub fn rows_of(alloc: Global, sizes: PerAxis, text: &str) -> Result<CellRows, Fail>
    requires { (a : Axis) → numbers_of sizes a ≤ 63 }
    ensures { IfOk result (λ rows. rows.sizes ≡ sizes) }
{
    let cells = cells(alloc, text)?;
    if cells.len() != sizes.count() {
        return Err(Fail::new("as many cells as the sizes tell"));
    }
    Ok(CellRows::of(alloc, &Marks::new(sizes, cells))?)
}
