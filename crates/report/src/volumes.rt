//! The volumes of solids, as sums over their blocks.
//!
//! The volumes of blocks stand in this crate, the one that sums them up, and not beside the volume
//! of a grid cell in `solid_model`.

ghost use Rattle.std.specs.Prelude.{◌≡◌, ◌≤◌, ◌<◌, ◌+◌, ℕ, Bool, List, false, length, replicate, slice_index_or, IfOk, IfSome, if◌then◌else◌};
ghost use Rattle.report.specs.Volumes.{AreVolumes, chosen_sum, most_block_volume};
ghost use Rattle.solid_model.specs.Choices.{is_chosen};
ghost use Rattle.solid_model.specs.Panels.{coordinates_of};

use solid_model::{Choice, Memory, Problem, cell_volume};
use std::alloc::Global;

/// Adds the volume of a cell to that of its block, if it has one.
fn add_volume(volumes: &mut Vec<u128>, block: Option<u16>, volume: u128)
    requires there { IfSome block (λ b. b < length volumes.old.items) }
    requires small { (k : ℕ) → slice_index_or volumes.old.items k 0 ≤ most_block_volume }
    requires cell { volume ≤ 8000000000000000000000000000 }
    ensures count { length volumes.new.items ≡ length volumes.old.items }
    ensures small { (k : ℕ) → slice_index_or volumes.new.items k 0
        ≤ slice_index_or volumes.old.items k 0 + volume }
    ensures sums { (choice : List Bool) → chosen_sum volumes.new.items choice
        ≡ chosen_sum volumes.old.items choice + (if is_chosen choice block then volume else 0) }
{
    if let Some(block) = block {
        volumes[usize::from(block)] += volume;
    }
}

/// A volume of nothing for each of so many blocks.
fn no_volumes(alloc: Global, count: u16) -> Result<Vec<u128>, Memory>
    ensures none { IfOk result (λ volumes. volumes.items ≡ replicate count 0) }
    ensures few { count ≤ 65535 }
{
    let volumes = vec![in alloc; 0; usize::from(count)]?;
    Ok(volumes)
}

/// The volume of each block of a problem. An `Err` is out of memory.
pub fn block_volumes(alloc: Global, problem: &Problem) -> Result<Vec<u128>, Memory>
    ensures { IfOk result (λ volumes. AreVolumes (coordinates_of problem.now.grid)
        problem.now.blocks.numbers volumes.items) }
{
    let grid = problem.grid();
    let blocks = problem.blocks();
    let sizes = grid.sizes();
    let mut volumes = no_volumes(alloc, blocks.count())?;
    for place in 0..grid.cell_count() {
        let cell = sizes.cell(place);
        add_volume(&mut volumes, blocks.of(cell), cell_volume(grid, cell));
    }
    Ok(volumes)
}

/// A choice fills the block of this number.
fn is_full(choice: &Choice, block: usize) -> bool
    ensures { result ≡ slice_index_or choice.now block false }
{
    block < choice.len() && choice.get(block)
}

/// The volume of the blocks that a choice fills, of which these are the volumes.
pub fn chosen_sum(volumes: &[u128], choice: &Choice) -> u128
    requires few { length volumes.now ≤ 65536 }
    requires small { (k : ℕ) → slice_index_or volumes.now k 0 ≤ most_block_volume }
    ensures { result ≡ chosen_sum volumes.now choice.now }
{
    let mut sum = 0;
    for block in 0..volumes.len() {
        if is_full(choice, block) {
            sum += volumes[block];
        }
    }
    sum
}
