//! The blocks of a grid, from its virtual faces.
//!
//! The enclosed components of which blocks are made are numbered in 32 bits, since there may be one
//! for each of 250,047 cells; only where there are few enough do they get the 16 bits of a block's
//! number.

ghost use Rattle.std.specs.Prelude.{◌≡◌, ◌≤◌, ℕ, IfOk, IsErrOf};
ghost use Rattle.solid_model.specs.Blocks.{IsBlocksOf, HasTooManyBlocks};
ghost use Rattle.solid_model.specs.Kept.{IsFaceMapOf};
ghost use Rattle.solid_model.specs.WalledBoxes.{IsEarlier};
ghost use Rattle.solid_model.specs.declared.fault.Fault.{Fault};
ghost use Rattle.solid_model.specs.Limits.{most_blocks};
ghost use Rattle.lemmas.specs.Lists.{Each};

use flood::{Walls, enclosed_components};
use solid_model::{Axis, Blocks, FaceMap, Fault, Grid, Memory, PerAxis, Refused};
use std::alloc::Global;

/// The most blocks of a grid.
const MOST_BLOCKS: u32 = 4096;

/// The cells of a grid, with faces as the walls between them.
#[derive(Clone, Copy)]
struct FaceWalls<'a> {
    grid: &'a Grid,
    faces: &'a FaceMap,
}

impl Walls for FaceWalls<'_> {
    ghost use Rattle.solid_model.specs.Marks.{is_marked, marks_along};
    ghost use Rattle.solid_model.specs.GridBox.{grid_sizes};

    ghost sizes = { λ s. grid_sizes s.grid.now };

    ghost stands = { λ s a n. is_marked (marks_along a s.faces.now) n };

    fn sizes(&self) -> PerAxis {
        self.grid.sizes()
    }

    fn stands(&self, axis: Axis, cell: PerAxis) -> bool {
        self.faces.has(axis, cell)
    }
}

/// A block's number, kept in fewer bytes.
fn short_number(number: Option<u32>) -> Option<u16>
    requires { IsEarlier most_blocks number }
    ensures { result ≡ number }
{
    match number {
        Some(number) => Some(number as u16),
        None => None,
    }
}

/// The numbers of the blocks, kept in fewer bytes.
fn short_numbers(alloc: Global, numbers: &[Option<u32>]) -> Result<Vec<Option<u16>>, Memory>
    requires { Each (IsEarlier most_blocks) numbers.now }
    ensures { IfOk result (λ short. short.items ≡ numbers.now) }
{
    let mut short = Vec::with_capacity(alloc, numbers.len())?;
    for number in numbers {
        short.push(short_number(*number))?;
    }
    Ok(short)
}

/// The blocks of a grid, whose virtual faces these are (Wesley and Markowsky 1981): its cells that
/// chains join which cross no virtual face, numbered by their first cells; those that such a chain
/// joins with the outside of the box are in none. There is a fault where there are more than 4,096,
/// and it carries their number; Memory comes when out of memory.
pub fn blocks_of(alloc: Global, grid: &Grid, faces: &FaceMap) -> Result<Blocks, Refused>
    requires { IsFaceMapOf grid.now faces.now }
    ensures blocks { IfOk result (λ blocks. IsBlocksOf grid.now blocks) }
    ensures few { IfOk result (λ blocks. blocks.count ≤ most_blocks) }
    ensures many { (fault : Fault) → IsErrOf result (Refused.Fault fault)
        → (count : ℕ) × (fault ≡ Fault.TooManyBlocks count) × HasTooManyBlocks grid.now count }
{
    let enclosed = enclosed_components(alloc, &FaceWalls { grid, faces })?;
    if enclosed.count > MOST_BLOCKS {
        return Err(Refused::Fault(Fault::TooManyBlocks {
            count: enclosed.count,
        }));
    }
    let numbers = short_numbers(alloc, enclosed.numbers.as_slice())?;
    Ok(Blocks::new(grid, numbers, enclosed.count as u16))
}
