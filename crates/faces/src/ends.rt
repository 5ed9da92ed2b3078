//! The points where sides of the border of squares may end.

ghost use Rattle.std.specs.Prelude.{◌≡◌, ◌<◌, ℕ, true, false, length, slice_index_or, IfOk};
ghost use Rattle.faces.specs.Border.{TellEnds};
ghost use Rattle.faces.specs.Ends.{TellRowEnds, AreTurned};
ghost use Rattle.lemmas.specs.Bits.{is_set};

use crate::squares::Squares;
use cell_rows::has_bit;
use solid_model::Memory;
use std::alloc::Global;

/// The points of a row at which the four squares aren't all there, or all missing.
fn row_ends(above: u64, below: u64) -> u64
    ensures { TellRowEnds above below result }
{
    (above ^ below) | (above ^ (above << 1)) | (below ^ (below << 1))
}

/// The same, row by row: those of a row lie between the squares of this row and of the one before.
fn ends_by_rows(alloc: Global, squares: &Squares) -> Result<Vec<u64>, Memory>
    ensures { IfOk result (λ ends. (length ends.items ≡ 64)
        × TellEnds squares.now true ends.items) }
{
    squares.known();
    let mut ends = Vec::with_capacity(alloc, 64)?;
    let mut below = 0;
    for v in 0..64 {
        let above = squares.row(v);
        ends.push(row_ends(above, below))?;
        below = above;
    }
    Ok(ends)
}

/// A column of rows, as a row.
fn column(rows: &[u64], number: usize) -> u64
    requires number { number < 64 }
    requires count { length rows.now ≡ 64 }
    ensures { (k : ℕ) → k < 64 → is_set result k ≡ is_set (slice_index_or rows.now k 0) number }
{
    let mut found: u64 = 0;
    for place in 0..64 {
        if has_bit(rows[place], number) {
            found |= 1 << place;
        }
    }
    found
}

/// The bits that are set in some row.
fn all_bits(rows: &[u64]) -> u64
    ensures { (v k : ℕ) → is_set result k ≡ false
        → is_set (slice_index_or rows.now v 0) k ≡ false }
{
    let mut all = 0;
    for row in rows {
        all |= *row;
    }
    all
}

/// A column of rows of which these are the bits that are set in some row.
fn some_column(rows: &[u64], all: u64, number: usize) -> u64
    requires number { number < 64 }
    requires count { length rows.now ≡ 64 }
    requires all { (v k : ℕ) → is_set all k ≡ false
        → is_set (slice_index_or rows.now v 0) k ≡ false }
    ensures { (k : ℕ) → k < 64 → is_set result k ≡ is_set (slice_index_or rows.now k 0) number }
{
    if has_bit(all, number) {
        column(rows, number)
    } else {
        0
    }
}

/// The columns of rows, as rows.
fn turned(alloc: Global, rows: &[u64]) -> Result<Vec<u64>, Memory>
    requires { length rows.now ≡ 64 }
    ensures { IfOk result (λ columns. AreTurned rows.now columns.items) }
{
    let all = all_bits(rows);
    let mut columns = Vec::with_capacity(alloc, 64)?;
    for number in 0..64 {
        columns.push(some_column(rows, all, number))?;
    }
    Ok(columns)
}

/// The points where sides of the border may end, by v, then u, where upwards counts first, else by
/// u, then v. An `Err` is out of memory.
pub fn ends_of(alloc: Global, squares: &Squares, up_first: bool) -> Result<Vec<u64>, Memory>
    ensures { IfOk result (λ ends. (length ends.items ≡ 64)
        × TellEnds squares.now up_first ends.items) }
{
    let ends = ends_by_rows(alloc, squares)?;
    if up_first {
        Ok(ends)
    } else {
        turned(alloc, ends.as_slice())
    }
}
