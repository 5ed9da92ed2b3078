//! A way down the tree of a problem's prefixes.

use crate::descent::{begin, step_down, step_up};
use crate::meeting::meets_all;
use crate::path::Path;
use line_demands::Partial;
use solid_model::{Memory, Prefix, Problem};
use std::alloc::Global;
use std::marker::Model;

/// A way down the tree of a problem's prefixes, which decides its blocks one after another, and
/// with each live prefix what follows from it. All memory is taken at the beginning. Contracts see
/// it as the problem and the values of its first blocks: of what is said of all blocks, the first
/// so many; what is said of the others is left over.
#[derive(Debug, Drop)]
pub struct BlockPath<'a> {
    /// What the last live prefix on the way says, and what follows from it.
    partial: Partial<'a>,
    /// For each live prefix on the way, from the empty one on, how many decisions there were before
    /// its last value.
    marks: Vec<u16>,
    blocks: u16,
    said: Prefix,
    depth: u16,
}

impl<'a> Model for BlockPath<'a> {
    ghost use Rattle.std.specs.Prelude.{◌≤◌, length, take, vec_capacity};
    ghost use Rattle.search_tree.specs.BlockPaths.{PathParts, IsPath};

    ghost Value = { PathParts };

    ghost view = { λ s. record { problem = s.partial.problem; values = take s.depth s.said } };

    ghost invariant = { λ s. (s.depth ≤ length s.said)
        × IsPath s.partial s.blocks (take s.depth s.said) s.marks.items (length s.said)
        (vec_capacity s.marks) };
}

impl<'a> BlockPath<'a> {
    ghost use Rattle.std.specs.Prelude.{◌≡◌, ◌≤◌, [], length, take, IfOk};

    /// The way that stands at the empty prefix. An `Err` is out of memory.
    pub fn new(alloc: Global, problem: &'a Problem) -> Result<BlockPath<'a>, Memory>
        ensures { IfOk result (λ path. path ≡ record { problem = problem.now; values = [] }) }
    {
        problem.known();
        let blocks = problem.blocks().count();
        let count = usize::from(blocks);
        let said = Vec::from_elem(alloc, false, count)?;
        let mut marks = Vec::with_capacity(alloc, count + 1)?;
        let mut partial = Partial::new(alloc, problem)?;
        begin(&mut partial, &mut marks);
        Ok(BlockPath {
            partial,
            marks,
            blocks,
            said: Prefix::from_bools(alloc, said.as_slice())?,
            depth: 0,
        })
    }

    /// With how many same values the present prefix and a piece begin.
    pub fn shared(&self, piece: &Prefix) -> usize
        ensures within { result ≤ length piece.now }
        ensures same { take result self.now.values ≡ take result piece.now }
    {
        self.said.shared(piece).min(usize::from(self.depth))
    }
}

impl<'a> Path for BlockPath<'a> {
    ghost use Rattle.solid_model.specs.Forcing.{is_live};

    ghost live = { λ s. is_live s.problem };

    ghost blocks = { λ s. s.problem.blocks.count };

    ghost prefix = { λ s. s.values };

    fn depth(&self) -> usize {
        usize::from(self.depth)
    }

    fn to_prefix(&self) -> Result<Prefix, Memory> {
        self.said.first(usize::from(self.depth))
    }

    fn block_count(&self) -> usize {
        usize::from(self.blocks)
    }

    fn is_live(&mut self) -> bool {
        if self.marks.len() <= usize::from(self.depth) {
            return false;
        }
        let whole = self.depth == self.blocks;
        meets_all(&mut self.partial, whole)
    }

    fn go_down(&mut self, full: bool) {
        step_down(
            &mut self.partial,
            &mut self.marks,
            &self.said,
            self.depth,
            full,
        );
        self.said.set(usize::from(self.depth), full);
        self.depth += 1;
    }

    fn go_up(&mut self) -> Option<bool> {
        if self.depth == 0 {
            return None;
        }
        step_up(&mut self.partial, &mut self.marks, &self.said, self.depth);
        self.depth -= 1;
        Some(self.said.get(usize::from(self.depth)))
    }
}
