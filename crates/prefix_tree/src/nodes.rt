//! The nodes of a binary tree that lists of truth values lead down.
//!
//! A binary tree and no hashing: as many steps as a prefix is long, with no bad case. A node takes
//! twelve bytes, its value and the number of the node before it in one number of 32 bits, since
//! memory that a desk touches for the first time is a large part of what an answer of it takes,
//! under the lock too; contracts see them apart (`NodeParts`).

use solid_model::Memory;
use std::alloc::Global;
use std::marker::Model;

/// The greatest number of a node.
const MOST: usize = 0x7fff_ffff;

/// A node that another one, before it, leads to for a value, and where it leads for a full block
/// and for an empty one: to node 0 it leads nowhere, since that is the root. That the one before it
/// leads to it for a full block adds one to twice the number of that one.
#[derive(Drop)]
pub struct Node {
    led: u32,
    full: u32,
    empty: u32,
}

impl Model for Node {
    ghost use Rattle.std.specs.Prelude.{◌==◌, ◌/◌, ◌%◌};
    ghost use Rattle.prefix_tree.specs.Nodes.{NodeParts};

    ghost Value = { NodeParts };

    ghost view = { λ s. record {
      before = s.led / 2;
      value = s.led % 2 == 1;
      full = s.full;
      empty = s.empty;
    } };
}

impl Node {
    ghost use Rattle.std.specs.Prelude.{◌≡◌, ◌≤◌};
    ghost use Rattle.prefix_tree.specs.Nodes.{new_node, child, with_child, most_nodes};

    /// A node that leads nowhere.
    fn new(before: u32, value: bool) -> Node
        requires { before ≤ most_nodes }
        ensures { result ≡ new_node before value }
    {
        Node {
            led: before * 2 + u32::from(value),
            full: 0,
            empty: 0,
        }
    }

    /// The number of the node before it, and for which value that one leads to it.
    fn before(&self) -> (u32, bool)
        ensures before { result.0 ≡ self.now.before }
        ensures value { result.1 ≡ self.now.value }
    {
        (self.led / 2, self.led % 2 == 1)
    }

    /// Where it leads for a value.
    fn child(&self, full: bool) -> Option<u32>
        ensures { result ≡ child self.now full }
    {
        let next = if full { self.full } else { self.empty };
        if next == 0 { None } else { Some(next) }
    }

    /// It leads there for this value from now on.
    fn set_child(&mut self, full: bool, next: u32)
        ensures { self.new ≡ with_child self.old full next }
    {
        if full {
            self.full = next;
        } else {
            self.empty = next;
        }
    }
}

/// The nodes of a binary tree, the first of which is the root. Contracts see them as the lists that
/// lead to them.
#[derive(Drop)]
pub struct Nodes {
    list: Vec<Node>,
}

impl Model for Nodes {
    ghost use Rattle.std.specs.Prelude.{Bool, List};
    ghost use Rattle.prefix_tree.specs.Nodes.{ways, IsTrie};

    ghost Value = { List (List Bool) };

    ghost view = { λ s. ways s.list.items };

    ghost invariant = { λ s. IsTrie s.list.items };
}

impl Nodes {
    ghost use Rattle.std.specs.Prelude.{◌≡◌, ◌<◌, ◌≤◌, ◌++◌, ◌∷◌, [], Bool, List, ℕ, length, IfOk, MatchOption};
    ghost use Rattle.prefix_tree.specs.Places.{prefix_at, AreDistinct, StandsAt};

    /// The root alone, which leads nowhere. An `Err` is out of memory.
    pub fn new(alloc: Global) -> Result<Nodes, Memory>
        ensures { IfOk result (λ nodes. nodes ≡ [] ∷ []) }
    {
        let mut list = Vec::new(alloc);
        list.push(Node::new(0, false))?;
        Ok(Nodes { list })
    }

    /// Each prefix stands once, and is no longer than its number.
    pub fn known(&self)
        ensures distinct { AreDistinct self.now }
        ensures short { (k : ℕ) → k < length self.now → length (prefix_at self.now k) ≤ k }
    {
        let _ = &self.list;
    }

    /// How many there are.
    pub fn len(&self) -> usize
        ensures { result ≡ length self.now }
    {
        self.list.len()
    }

    /// Where a node leads for a value.
    pub fn child(&self, at: u32, full: bool) -> Option<u32>
        requires { at < length self.now }
        ensures { MatchOption result
            ((rest : List Bool) (k : ℕ)
            → ¬ StandsAt self.now (prefix_at self.now at ++ full ∷ rest) k)
            (StandsAt self.now (prefix_at self.now at ++ full ∷ [])) }
    {
        self.list[at as usize].child(full)
    }

    /// The node that leads to one, and for which value. None leads to the root.
    pub fn before(&self, at: u32) -> (u32, bool)
        requires inside { at < length self.now }
        requires led { 0 < at }
        ensures before { result.0 < at }
        ensures led { prefix_at self.now at ≡ prefix_at self.now result.0 ++ result.1 ∷ [] }
    {
        self.list[at as usize].before()
    }

    /// The node to which a node leads for a value; if there is none, it comes behind the others. An
    /// `Err` is out of memory, or of 31-bit numbers for nodes.
    pub fn step(&mut self, at: u32, full: bool) -> Result<u32, Memory>
        requires { at < length self.old }
        ensures grown { (more : List (List Bool)) × (self.new ≡ self.old ++ more) }
        ensures there { IfOk result (StandsAt self.new (prefix_at self.old at ++ full ∷ [])) }
    {
        if let Some(next) = self.list[at as usize].child(full) {
            return Ok(next);
        }
        let next = self.list.len();
        if next > MOST {
            return Err(Memory);
        }
        self.list.push(Node::new(at, full))?;
        self.list[at as usize].set_child(full, next as u32);
        Ok(next as u32)
    }
}
