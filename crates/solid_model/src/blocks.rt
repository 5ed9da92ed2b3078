//! The blocks of a grid.
//!
//! Numbers of blocks have 16 bits, since there are at most 4,096. `of` takes a cell's three numbers
//! as one value and asks for nothing: beyond the box there is no block.

use crate::grid::Grid;
use crate::per_axis::PerAxis;
use std::marker::Model;

/// The blocks of a grid: for each grid cell, z slowest and x fastest, the number of its block, or
/// none where it is outside; and how many blocks there are.
#[derive(Debug, Drop)]
pub struct Blocks {
    sizes: PerAxis,
    of: Vec<Option<u16>>,
    count: u16,
}

impl Model for Blocks {
    ghost use Rattle.solid_model.specs.Blocks.{BlockNumbers};
    ghost use Rattle.solid_model.specs.Kept.{AreNumbers};

    ghost Value = { BlockNumbers };

    ghost view = { λ s. record { sizes = s.sizes; numbers = s.of.items; count = s.count } };

    ghost invariant = { λ s. AreNumbers record {
      sizes = s.sizes;
      numbers = s.of.items;
      count = s.count;
    } };
}

impl Blocks {
    ghost use Rattle.std.specs.Prelude.{◌≡◌, ◌≤◌, length};
    ghost use Rattle.solid_model.specs.Blocks.{block_at};
    ghost use Rattle.solid_model.specs.Kept.{AreNumbers};
    ghost use Rattle.lemmas.specs.Lists.{Each};
    ghost use Rattle.solid_model.specs.PerAxis.{numbers_of, cell_of};
    ghost use Rattle.solid_model.specs.WalledBoxes.{box_count, IsEarlier};
    ghost use Rattle.solid_model.specs.GridBox.{grid_sizes};

    /// The blocks of a grid: so many, one number or none for each grid cell.
    pub fn new(grid: &Grid, of: Vec<Option<u16>>, count: u16) -> Blocks
        requires listed { length of.items ≡ box_count (grid_sizes grid.now) }
        requires below { Each (IsEarlier count) of.items }
        ensures sizes { numbers_of result.sizes ≡ grid_sizes grid.now }
        ensures numbers { result.numbers ≡ of.items }
        ensures count { result.count ≡ count }
    {
        Blocks {
            sizes: grid.sizes(),
            of,
            count,
        }
    }

    /// Each cell has a number or none, and the numbers are below the count, which has 16 bits.
    pub fn known(&self)
        ensures kept { AreNumbers self.now }
        ensures few { self.now.count ≤ 65535 }
    {
        let _count = self.count;
    }

    /// How many blocks there are.
    pub fn count(&self) -> u16
        ensures { result ≡ self.now.count }
    {
        self.count
    }

    /// The block of each grid cell, or none where it is outside.
    pub fn numbers(&self) -> &[Option<u16>]
        ensures { result.now ≡ self.now.numbers }
    {
        self.of.as_slice()
    }

    /// The block of a grid cell, or none where it is outside.
    pub fn of(&self, cell: PerAxis) -> Option<u16>
        ensures { result ≡ block_at self.now (cell_of cell) }
    {
        if self.sizes.has(cell) {
            self.of[self.sizes.place(cell)]
        } else {
            None
        }
    }
}
