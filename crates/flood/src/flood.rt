//! Marks on the nodes to which a chain of steps leads: a flood over a graph.

ghost use Rattle.std.specs.Prelude.{◌≡◌, ◌≤◌, ◌++◌, [], ◌∷◌, ◌+◌, ◌<◌, Some, length, slice_set, vec_len, vec_capacity, IfSome};
ghost use Rattle.flood.specs.NodeMarks.{no_mark, mark_of, unmarked, AreClosed, Spreads, Floods};

use crate::graph::Graph;

/// What stands in place of a mark.
pub const UNMARKED: u32 = u32::MAX;

/// Gives a node that has no mark the number, and puts it on the stack.
fn mark(node: usize, number: u32, marks: &mut [u32], stack: &mut Vec<usize>)
    requires node { node < length marks.old }
    requires none { mark_of marks.old node ≡ no_mark }
    requires number { number < no_mark }
    requires room { vec_len stack.old + unmarked marks.old ≤ vec_capacity stack.old }
    ensures marks { marks.new ≡ slice_set marks.old node number }
    ensures stack { stack.new.items ≡ stack.old.items ++ node ∷ [] }
    ensures room { vec_len stack.new + unmarked marks.new
        ≡ vec_len stack.old + unmarked marks.old }
    ensures capacity { vec_capacity stack.new ≡ vec_capacity stack.old }
{
    marks[node] = number;
    stack.push_reserved(node);
}

/// Marks a neighbour, if there is one that has no mark.
fn visit(neighbour: Option<usize>, number: u32, marks: &mut [u32], stack: &mut Vec<usize>)
    requires inside { IfSome neighbour (λ b. b < length marks.old) }
    requires number { number < no_mark }
    requires room { vec_len stack.old + unmarked marks.old ≤ vec_capacity stack.old }
    ensures spreads { Spreads (λ b. neighbour ≡ Some b) number marks.old stack.old.items marks.new
        stack.new.items }
    ensures room { vec_len stack.new + unmarked marks.new
        ≡ vec_len stack.old + unmarked marks.old }
    ensures capacity { vec_capacity stack.new ≡ vec_capacity stack.old }
{
    if let Some(node) = neighbour {
        if marks[node] == UNMARKED {
            mark(node, number, marks, stack);
        }
    }
}

/// Marks the neighbours of a node that have no mark, and puts them on the stack.
fn spread<G: Graph>(graph: &G, node: usize, number: u32, marks: &mut [u32], stack: &mut Vec<usize>)
    requires node { node < G.nodes graph.now }
    requires size { length marks.old ≡ G.nodes graph.now }
    requires number { number < no_mark }
    requires room { vec_len stack.old + unmarked marks.old ≤ vec_capacity stack.old }
    ensures spreads { Spreads (G.steps graph.now node) number marks.old stack.old.items marks.new
        stack.new.items }
    ensures room { vec_len stack.new + unmarked marks.new
        ≡ vec_len stack.old + unmarked marks.old }
    ensures capacity { vec_capacity stack.new ≡ vec_capacity stack.old }
{
    for way in 0..graph.way_count() {
        visit(graph.neighbour(node, way), number, marks, stack);
    }
}

/// Marks what a chain of steps leads to from a node that has no mark. What has a mark before keeps
/// it. The stack is room for the nodes.
pub fn flood<G: Graph>(
    graph: &G,
    start: usize,
    number: u32,
    marks: &mut [u32],
    stack: &mut Vec<usize>,
)
    requires start { start < G.nodes graph.now }
    requires none { mark_of marks.old start ≡ no_mark }
    requires closed { AreClosed (G.steps graph.now) marks.old }
    requires size { length marks.old ≡ G.nodes graph.now }
    requires number { number < no_mark }
    requires empty { vec_len stack.old ≡ 0 }
    requires room { G.nodes graph.now ≤ vec_capacity stack.old }
    ensures floods { Floods (G.steps graph.now) start number marks.old marks.new [] }
    ensures empty { vec_len stack.new ≡ 0 }
    ensures capacity { vec_capacity stack.new ≡ vec_capacity stack.old }
{
    mark(start, number, marks, stack);
    while let Some(node) = stack.pop() {
        spread(graph, node, number, marks, stack);
    }
}
