//! A way down a binary tree.

use solid_model::{Memory, Prefix};
use std::alloc::Global;
use std::marker::Model;

/// A way down a binary tree: values, and the nodes to which the first of them lead, from the root
/// on. It may stop before the last value.
#[derive(Drop)]
pub struct Way {
    values: Prefix,
    nodes: Vec<u32>,
}

impl Model for Way {
    ghost use Rattle.prefix_tree.specs.Nodes.{WayParts, IsBegunWay};

    ghost Value = { WayParts };

    ghost view = { λ s. record { values = s.values; nodes = s.nodes.items } };

    ghost invariant = { λ s. IsBegunWay record { values = s.values; nodes = s.nodes.items } };
}

impl Way {
    ghost use Rattle.std.specs.Prelude.{◌≡◌, ◌<◌, ◌≤◌, ◌+◌, ◌++◌, ◌∷◌, [], length, take, slice_index_or, IfOk, MatchResult};
    ghost use Rattle.prefix_tree.specs.Nodes.{root_way};

    /// The way that stands at the root. An `Err` is out of memory.
    pub fn new(alloc: Global) -> Result<Way, Memory>
        ensures { IfOk result (λ way. way ≡ root_way) }
    {
        let values = Prefix::from_bools(alloc, &[])?;
        let mut nodes = Vec::new(alloc);
        nodes.push(0)?;
        Ok(Way { values, nodes })
    }

    /// How many values of a prefix it leads along.
    pub fn shared(&self, prefix: &Prefix) -> usize
        ensures within { result ≤ length prefix.now }
        ensures led { result < length self.now.nodes }
        ensures same { take result self.now.values ≡ take result prefix.now }
    {
        self.values.shared(prefix).min(self.nodes.len() - 1)
    }

    /// The node to which so many of its values lead.
    pub fn node(&self, count: usize) -> u32
        requires { count < length self.now.nodes }
        ensures { result ≡ slice_index_or self.now.nodes count 0 }
    {
        self.nodes[count]
    }

    /// Its values are those of a prefix from now on. An `Err` is out of memory, and leaves it as it
    /// is.
    pub fn say(&mut self, prefix: &Prefix) -> Result<(), Memory>
        ensures { MatchResult result
            (λ _. self.new ≡ record { values = prefix.now; nodes = self.old.nodes })
            (λ _. self.new ≡ self.old) }
    {
        self.values.try_clone_from(prefix)?;
        Ok(())
    }

    /// Leaves it after so many values.
    pub fn leave(&mut self, count: usize)
        requires { count < length self.old.nodes }
        ensures { self.new
            ≡ record { values = self.old.values; nodes = take (count + 1) self.old.nodes } }
    {
        self.nodes.truncate(count + 1);
    }

    /// The next value leads to this node. An `Err` is out of memory, and leaves it as it is.
    pub fn push(&mut self, node: u32) -> Result<(), Memory>
        ensures { MatchResult result
            (λ _. self.new
            ≡ record { values = self.old.values; nodes = self.old.nodes ++ node ∷ [] })
            (λ _. self.new ≡ self.old) }
    {
        self.nodes.push(node)?;
        Ok(())
    }
}
