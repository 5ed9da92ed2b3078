//! The components of a graph.

ghost use Rattle.std.specs.Prelude.{◌≡◌, ◌≤◌, ◌-◌, ◌*◌, ◌^◌, ◌<◌, true, length, vec_len, vec_capacity, replicate, IfOk};
ghost use Rattle.flood.specs.Graph.{GoesBack, AreComponents, AreComponentsOf};
ghost use Rattle.flood.specs.NodeMarks.{no_mark, Numbers};
ghost use Rattle.lemmas.specs.Bits.{bit_of};

use crate::flood::{UNMARKED, flood};
use crate::graph::Graph;
use cell_rows::next_place;
use solid_model::Memory;
use std::alloc::Global;

/// The number of each node's component, and how many components there are.
#[derive(Debug, Drop)]
pub struct Numbering {
    pub numbers: Vec<u32>,
    pub count: u32,
}

/// Marks each node with the number of its component, and tells how many there are. The stack is
/// room for the nodes.
fn number_nodes<G: Graph>(graph: &G, marks: &mut [u32], stack: &mut Vec<usize>) -> u32
    requires back { GoesBack (G.nodes graph.now) (G.steps graph.now) }
    requires few { G.nodes graph.now < no_mark }
    requires none { marks.old ≡ replicate (G.nodes graph.now) no_mark }
    requires empty { vec_len stack.old ≡ 0 }
    requires room { G.nodes graph.now ≤ vec_capacity stack.old }
    ensures { Numbers (G.steps graph.now) (G.nodes graph.now) (λ _. true) marks.new
        (G.nodes graph.now) result }
{
    let mut count = 0;
    for node in 0..graph.node_count() {
        if marks[node] == UNMARKED {
            flood(graph, node, count, marks, stack);
            count += 1;
        }
    }
    count
}

/// The components of a graph whose steps go back, numbered by their first nodes, in time that grows
/// with the nodes and their ways. Memory is taken once, at the beginning; an `Err` is out of
/// memory.
pub fn components<G: Graph>(alloc: Global, graph: &G) -> Result<Numbering, Memory>
    requires back { GoesBack (G.nodes graph.now) (G.steps graph.now) }
    requires few { G.nodes graph.now < 2 ^ 32 - 1 }
    ensures { IfOk result (λ c. AreComponents (G.steps graph.now) (G.nodes graph.now)
        c.numbers.items c.count) }
{
    let size = graph.node_count();
    let mut numbers = vec![in alloc; UNMARKED; size]?;
    let mut stack = Vec::with_capacity(alloc, size)?;
    let count = number_nodes(graph, numbers.as_mut_slice(), &mut stack);
    Ok(Numbering { numbers, count })
}

/// Marks each node that is asked for with the number of its component, and tells how many there
/// are. The stack is room for the nodes.
fn number_some<G: Graph>(graph: &G, nodes: &[u64], marks: &mut [u32], stack: &mut Vec<usize>) -> u32
    requires back { GoesBack (G.nodes graph.now) (G.steps graph.now) }
    requires few { G.nodes graph.now < no_mark }
    requires within { length nodes.now * 64 ≤ G.nodes graph.now }
    requires none { marks.old ≡ replicate (G.nodes graph.now) no_mark }
    requires empty { vec_len stack.old ≡ 0 }
    requires room { G.nodes graph.now ≤ vec_capacity stack.old }
    ensures { Numbers (G.steps graph.now) (G.nodes graph.now) (bit_of nodes.now) marks.new
        (G.nodes graph.now) result }
{
    let mut count = 0;
    let mut node = next_place(nodes, 0);
    while node < nodes.len() * 64 {
        if marks[node] == UNMARKED {
            flood(graph, node, count, marks, stack);
            count += 1;
        }
        node = next_place(nodes, node + 1);
    }
    count
}

/// The components of a graph whose steps go back, for those nodes alone whose bits are set, where
/// bit k % 64 of word k / 64 stands for node k. The time grows with what chains of steps lead to
/// from them; memory is taken once, at the beginning. An `Err` is out of memory.
pub fn components_of<G: Graph>(alloc: Global, graph: &G, nodes: &[u64]) -> Result<Numbering, Memory>
    requires back { GoesBack (G.nodes graph.now) (G.steps graph.now) }
    requires few { G.nodes graph.now < 2 ^ 32 - 1 }
    requires within { length nodes.now * 64 ≤ G.nodes graph.now }
    ensures { IfOk result (λ c. AreComponentsOf (G.steps graph.now) (G.nodes graph.now)
        (bit_of nodes.now) c.numbers.items c.count) }
{
    let size = graph.node_count();
    let mut numbers = vec![in alloc; UNMARKED; size]?;
    let mut stack = Vec::with_capacity(alloc, size)?;
    let count = number_some(graph, nodes, numbers.as_mut_slice(), &mut stack);
    Ok(Numbering { count, numbers })
}
