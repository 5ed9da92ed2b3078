//! The cells of a box in a list, and the ways between neighbours.

ghost use Rattle.std.specs.Prelude.{◌≡◌, ◌<◌, IfSome};
ghost use Rattle.flood.specs.Passages.{parts_of, StepsAlong, has_bar, back, forth, way_on};
ghost use Rattle.solid_model.specs.PerAxis.{numbers_of};

use crate::cell_bars::CellBars;
use crate::graph::Graph;
use solid_model::{Axis, PerAxis};

/// The cells of a box as the nodes of a graph.
#[derive(Drop)]
pub struct Passages {
    /// How many cells there are.
    pub count: usize,
    /// How far neighbours along each axis stand apart in the list of all cells.
    pub strides: PerAxis,
    /// What bars the ways back from each cell.
    pub bars: Vec<CellBars>,
}

impl Passages {
    /// A bar stands before a node along an axis.
    fn has_bar(&self, axis: Axis, node: usize) -> bool
        ensures { result ≡ has_bar (parts_of self.now) axis node }
    {
        let bars = self.bars.as_slice();
        node < bars.len() && bars[node].along(axis)
    }

    /// The node before one along an axis, if nothing bars the way.
    fn back(&self, axis: Axis, node: usize) -> Option<usize>
        ensures back { result ≡ back (parts_of self.now) axis node }
        ensures inside { node < self.now.count → IfSome result (λ q. q < self.now.count) }
    {
        if self.has_bar(axis, node) {
            None
        } else {
            node.checked_sub(self.strides.along(axis))
        }
    }

    /// The node after one along an axis, if nothing bars the way.
    fn forth(&self, axis: Axis, node: usize) -> Option<usize>
        ensures forth { result ≡ forth (parts_of self.now) axis node }
        ensures inside { IfSome result (λ q. q < self.now.count) }
    {
        let stride = self.strides.along(axis);
        if node < self.count.saturating_sub(stride) && !self.has_bar(axis, node + stride) {
            Some(node + stride)
        } else {
            None
        }
    }
}

impl Graph for Passages {
    ghost nodes = { λ g. g.count };

    ghost steps = { λ g. StepsAlong (parts_of g) };

    ghost ways = { λ g. 6 };

    ghost next = { λ g. way_on (parts_of g) };

    fn node_count(&self) -> usize {
        self.count
    }

    fn way_count(&self) -> usize {
        6
    }

    // The last way is the first that a flood goes on by: along x nodes lie side by side in memory.
    fn neighbour(&self, node: usize, way: usize) -> Option<usize> {
        match way {
            0 => self.back(Axis::Z, node),
            1 => self.forth(Axis::Z, node),
            2 => self.back(Axis::Y, node),
            3 => self.forth(Axis::Y, node),
            4 => self.back(Axis::X, node),
            _ => self.forth(Axis::X, node),
        }
    }
}
