//! Graphs whose components were found by hand.

ghost use Rattle.std.specs.Prelude.{◌≡◌, ◌≤◌, ◌<◌, if◌then◌else◌, ◌+◌, ◌*◌, ◌||◌, Some, None, false, slice_index_or, IsTrue};

use flood::{Graph, components};
use std::alloc::Global;
use std::fmt::Write;
use std::test::Fail;
use test_files::rows_tell;

/// A row a graph: for each node the letters of the nodes to which it is joined, and a comma, where
/// each joint is told once; how many components it has; and for each node the number of its
/// component.
const GRAPHS: &str = "\
, -> 1 0
 -> 0
a, -> 1 0
c,,e,f,,,, -> 4 0 1 0 2 0 2 3
b,c,d,a, -> 1 0 0 0 0
,b,f,b,,a, -> 3 0 1 0 1 2 0
b,c,a,e,f,d, -> 2 0 0 0 1 1 1";

/// The most nodes that a graph of these has.
const SIDE: usize = 8;

/// A graph as a table: a node is joined to another where it says so for the one or the other.
#[derive(Drop)]
struct Table {
    size: usize,
    cells: Vec<bool>,
    ghost small: { size ≤ 8 },
}

impl Table {
    /// The table says that the node is joined to the other.
    fn says(&self, node: usize, other: usize) -> bool
        requires node { node < 8 }
        requires other { other < 8 }
        ensures { result ≡ slice_index_or self.now.cells.items (node * 8 + other) false }
    {
        let place = node * SIDE + other;
        place < self.cells.len() && self.cells[place]
    }
}

impl Graph for Table {
    ghost nodes = { λ t. t.size };

    ghost steps = { λ t a b. (b < t.size) × IsTrue (slice_index_or t.cells.items (a * 8 + b) false
        || slice_index_or t.cells.items (b * 8 + a) false) };

    ghost ways = { λ t. t.size };

    ghost next = { λ t a b. if slice_index_or t.cells.items (a * 8 + b) false
        || slice_index_or t.cells.items (b * 8 + a) false then Some b else None };

    fn node_count(&self) -> usize {
        self.size
    }

    fn way_count(&self) -> usize {
        self.size
    }

    fn neighbour(&self, node: usize, way: usize) -> Option<usize> {
        if self.says(node, way) || self.says(way, node) {
            Some(way)
        } else {
            None
        }
    }
}

/// The graph that a row begins with.
fn read_table(alloc: Global, text: &str) -> Result<Table, Fail> {
    let mut cells = vec![in alloc; false; SIDE * SIDE]?;
    let mut size: usize = 0;
    for byte in text.bytes() {
        if byte == b',' {
            size = size.saturating_add(1);
        } else if size < SIDE {
            let place = size * SIDE + usize::from(byte.saturating_sub(b'a'));
            if place < cells.len() {
                cells[place] = true;
            }
        }
    }
    Ok(Table {
        size: size.min(SIDE),
        cells,
    })
}

/// What is found of a graph, as a row has it.
fn told_graph(alloc: Global, text: &str) -> Result<String, Fail> {
    let graph = read_table(alloc, text)?;
    let found = components(alloc, &graph)?;
    let mut told = format!(in alloc; "{}", found.count)?;
    for number in found.numbers.iter() {
        write!(told, " {number}")?;
    }
    Ok(told)
}

#[test]
fn components_are_those_found_by_hand(rt: HostRuntime) -> Result<(), Fail> {
    rows_tell(GRAPHS, |row| told_graph(rt.alloc(), row.told))
}
