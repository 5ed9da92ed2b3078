//! A grid and its blocks: what is searched.
//!
//! `cells` and `volume` take any choice: what it doesn't speak of counts as empty. `same` looks at
//! the grids alone, so that the block numbers, of which there may be 250,047, aren't compared while
//! a desk is locked.

use crate::blocks::Blocks;
use crate::choice::Choice;
use crate::grid::Grid;
use crate::memory::Memory;
use crate::volume::chosen_volume;
use std::alloc::Global;
use std::marker::Model;

/// A grid and its blocks: which choices of the blocks fill a solid that matches the grid's drawing?
#[derive(Debug, Drop)]
pub struct Problem {
    grid: Grid,
    blocks: Blocks,
}

impl Model for Problem {
    ghost use Rattle.solid_model.specs.Blocks.{ProblemParts, IsBlocksOf};

    ghost Value = { ProblemParts };

    ghost view = { λ s. record { grid = s.grid; blocks = s.blocks } };

    ghost invariant = { λ s. IsBlocksOf s.grid s.blocks };
}

impl Problem {
    ghost use Rattle.std.specs.Prelude.{◌≡◌, ◌↔◌, ◌≤◌, IsTrue, IfOk};
    ghost use Rattle.solid_model.specs.Blocks.{IsBlocksOf};
    ghost use Rattle.solid_model.specs.Choices.{cells_of_choice};
    ghost use Rattle.solid_model.specs.Panels.{coordinates_of, IsGrid};
    ghost use Rattle.solid_model.specs.Volumes.{volume_of};

    /// The problem of a grid, of which these are the blocks.
    pub fn new(grid: Grid, blocks: Blocks) -> Problem
        requires { IsBlocksOf grid blocks }
        ensures { result ≡ record { grid = grid; blocks = blocks } }
    {
        Problem { grid, blocks }
    }

    /// Its blocks are those of its grid, which is that of a drawing; their number has 16 bits.
    pub fn known(&self)
        ensures blocks { IsBlocksOf self.now.grid self.now.blocks }
        ensures grid { IsGrid self.now.grid }
        ensures few { self.now.blocks.count ≤ 65535 }
    {
        self.grid.known();
        self.blocks.known();
    }

    /// Its grid.
    pub fn grid(&self) -> &Grid
        ensures grid { result.now ≡ self.now.grid }
        ensures kept { IsBlocksOf self.now.grid self.now.blocks }
    {
        &self.grid
    }

    /// The blocks of its grid.
    pub fn blocks(&self) -> &Blocks
        ensures { result.now ≡ self.now.blocks }
    {
        &self.blocks
    }

    /// Both have the same grid, and so the same blocks, which aren't looked at: the blocks of a
    /// grid are numbered in one way.
    pub fn same(&self, other: &Problem) -> bool
        ensures { IsTrue result ↔ (self.now ≡ other.now) }
    {
        self.grid.same(&other.grid)
    }

    /// Which of the grid's cells are full, z slowest and x fastest, where these of its blocks are.
    /// An `Err` is out of memory.
    pub fn cells(&self, alloc: Global, choice: &Choice) -> Result<Vec<bool>, Memory>
        ensures { IfOk result (λ cells.
            cells.items ≡ cells_of_choice self.now.blocks.numbers choice.now) }
    {
        let mut cells = Vec::new(alloc);
        for block in self.blocks.numbers() {
            cells.push(choice.fills(*block))?;
        }
        Ok(cells)
    }

    /// The number of unit cells that are full where these of its blocks are.
    pub fn volume(&self, choice: &Choice) -> u128
        ensures { result ≡ volume_of (coordinates_of self.now.grid)
            (cells_of_choice self.now.blocks.numbers choice.now) }
    {
        chosen_volume(&self.grid, self.blocks.numbers(), choice)
    }
}
