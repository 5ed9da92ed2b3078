//! The rows of one layer of cells.

ghost use Rattle.std.specs.Prelude.{◌≡◌};

use std::marker::Model;

/// The rows of the cells in one layer of a box, which stand equally far apart among all rows along
/// their axis: so no row is looked for by its cell. Contracts see their list.
#[derive(Debug, Drop)]
pub struct LayerRows<'a> {
    rows: &'a [u64],
    start: usize,
    stride: usize,
    count: usize,
}

impl<'a> Model for LayerRows<'a> {
    ghost use Rattle.std.specs.Prelude.{◌<◌, ◌+◌, ◌*◌, ℕ, List, length};
    ghost use Rattle.cell_rows.specs.Layers.{spaced};

    ghost Value = { List ℕ };

    ghost view = { λ s. spaced s.rows.now s.start s.stride s.count };

    ghost invariant = { λ s. (v : ℕ) → v < s.count → s.start + v * s.stride < length s.rows.now };
}

impl<'a> LayerRows<'a> {
    ghost use Rattle.std.specs.Prelude.{◌≡◌, ◌<◌, ◌+◌, ◌*◌, ℕ, length};
    ghost use Rattle.cell_rows.specs.Layers.{spaced};

    /// So many rows, from a place on, so far apart.
    pub fn of(rows: &'a [u64], start: usize, stride: usize, count: usize) -> LayerRows<'a>
        requires { (v : ℕ) → v < count → start + v * stride < length rows.now }
        ensures { result ≡ spaced rows.now start stride count }
    {
        LayerRows {
            rows,
            start,
            stride,
            count,
        }
    }
}

impl LayerRows<'_> {
    ghost use Rattle.std.specs.Prelude.{◌≡◌, slice_index_or};

    /// The row of this number, 0 beyond the last.
    pub fn row(&self, number: usize) -> u64
        ensures { result ≡ slice_index_or self.now number 0 }
    {
        if number < self.count {
            self.rows[self.start + number * self.stride]
        } else {
            0
        }
    }
}
