//! The enclosed components of a box with walls.

ghost use Rattle.std.specs.Prelude.{◌≡◌, ◌≤◌, IsTrue, IfOk};
ghost use Rattle.flood.specs.Graph.{component};
ghost use Rattle.flood.specs.Ring.{ring_place, enclosed_of, AreEnclosedNumbers};
ghost use Rattle.solid_model.specs.declared.cell.Axis.{Axis};
ghost use Rattle.solid_model.specs.PerAxis.{numbers_of, cell_of};
ghost use Rattle.solid_model.specs.WalledBoxes.{is_within, AreEnclosed};

use crate::numbering::components;
use crate::ring::{outer, passages, ringed};
use crate::walls::Walls;
use solid_model::{Memory, PerAxis};
use std::alloc::Global;

/// The node of the ringed box that stands for a cell of the box.
fn node_of(sizes: PerAxis, cell: PerAxis) -> usize
    requires few { (a : Axis) → numbers_of sizes a ≤ 1022 }
    requires within { IsTrue (is_within (numbers_of sizes) (cell_of cell)) }
    ensures { result ≡ ring_place (numbers_of sizes) (cell_of cell) }
{
    ringed(sizes).place(outer(cell))
}

/// The enclosed components of a box: for each cell, z slowest and x fastest, the number of its own,
/// or none where it leads out; and how many there are.
#[derive(Debug, Drop)]
pub struct EnclosedNumbers {
    pub numbers: Vec<Option<u32>>,
    pub count: u32,
}

/// The number of a node's component among the enclosed ones: the first component isn't enclosed.
fn enclosed_of(components: &[u32], node: usize) -> Option<u32>
    ensures { result ≡ enclosed_of (component components.now node) }
{
    if node < components.len() && components[node] > 0 {
        Some(components[node] - 1)
    } else {
        None
    }
}

/// The numbers of the enclosed components of a box's cells, from those of the components of the
/// ringed box.
fn enclosed_numbers(
    alloc: Global,
    sizes: PerAxis,
    components: &[u32],
) -> Result<Vec<Option<u32>>, Memory>
    requires { (a : Axis) → numbers_of sizes a ≤ 1022 }
    ensures { IfOk result (λ enclosed.
        AreEnclosedNumbers (numbers_of sizes) (component components.now) enclosed.items) }
{
    let count = sizes.count();
    let mut enclosed = Vec::with_capacity(alloc, count)?;
    let mut cell = PerAxis::FIRST;
    for place in 0..count {
        cell = sizes.next_cell(cell, place);
        enclosed.push_reserved(enclosed_of(components, node_of(sizes, cell)));
    }
    Ok(enclosed)
}

/// The enclosed components of a box with walls, in time that grows with its cells. An `Err` is out
/// of memory.
pub fn enclosed_components<W: Walls>(alloc: Global, walls: &W) -> Result<EnclosedNumbers, Memory>
    ensures { IfOk result (λ enclosed. AreEnclosed (W.sizes walls.now)
        (λ a n. IsTrue (W.stands walls.now a n)) enclosed.numbers.items enclosed.count) }
{
    let sizes = walls.sizes();
    let found = components(alloc, &passages(alloc, walls)?)?;
    Ok(EnclosedNumbers {
        numbers: enclosed_numbers(alloc, sizes, found.numbers.as_slice())?,
        count: found.count.saturating_sub(1),
    })
}
