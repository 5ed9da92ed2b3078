//! Tracing rounds.

ghost use Rattle.std.specs.Prelude.{◌≡◌, ◌++◌, [], ◌∷◌, ◌+◌, ◌<◌, true, false, length, map, replicate, slice_set, IfOk};
ghost use Rattle.rounds.specs.NodeMarks.{has_mark, unmarked_nodes, AreClosedBack, IsTraced, AreTraced};
ghost use Rattle.rounds.specs.Succession.{IsInside, AreRounds};

use crate::succession::Succession;
use solid_model::Memory;
use std::alloc::Global;

/// Gives a node that has no mark one, and puts it at the end of the round.
fn mark(node: usize, marks: &mut [bool], round: &mut Vec<usize>) -> Result<(), Memory>
    requires node { node < length marks.old }
    requires none { has_mark marks.old node ≡ false }
    ensures marks { IfOk result (λ done. marks.new ≡ slice_set marks.old node true) }
    ensures few { IfOk result (λ done. unmarked_nodes marks.new + 1 ≡ unmarked_nodes marks.old) }
    ensures round { IfOk result (λ done. round.new.items ≡ round.old.items ++ node ∷ []) }
{
    round.push(node)?;
    marks[node] = true;
    Ok(())
}

/// The round of an inside node that has no mark, from the node on. Its nodes get marks. An `Err` is
/// out of memory.
fn trace<S: Succession>(
    alloc: Global,
    succession: &S,
    start: usize,
    marks: &mut [bool],
) -> Result<Vec<usize>, Memory>
    requires start { IsInside (S.nodes succession.now) (S.inside succession.now) start }
    requires size { length marks.old ≡ S.nodes succession.now }
    requires none { has_mark marks.old start ≡ false }
    requires closed { AreClosedBack (S.nodes succession.now) (S.inside succession.now)
        (S.next succession.now) marks.old }
    ensures { IfOk result (λ round. IsTraced (S.nodes succession.now) (S.inside succession.now)
        (S.next succession.now) start marks.old marks.new round.items) }
{
    let mut round = Vec::new(alloc);
    mark(start, marks, &mut round)?;
    let mut node = succession.following(start);
    while node != start {
        mark(node, marks, &mut round)?;
        node = succession.following(node);
    }
    Ok(round)
}

/// The rounds of all nodes, of which none has a mark.
fn trace_all<S: Succession>(
    alloc: Global,
    succession: &S,
    marks: &mut [bool],
) -> Result<Vec<Vec<usize>>, Memory>
    requires none { marks.old ≡ replicate (S.nodes succession.now) false }
    ensures { IfOk result (λ rounds. AreTraced (S.nodes succession.now) (S.inside succession.now)
        (S.next succession.now) marks.new (map (λ r. r.items) rounds.items)
        (S.nodes succession.now)) }
{
    let mut rounds = Vec::new(alloc);
    let end = succession.node_count();
    let mut node = succession.onward(0);
    while node < end {
        if succession.has(node) && !marks[node] {
            rounds.push(trace(alloc, succession, node, marks)?)?;
        }
        node = succession.onward(node + 1);
    }
    Ok(rounds)
}

/// All rounds of a succession, each from its least node on, by their least nodes, in time and
/// memory that grow with the nodes. An `Err` is out of memory.
pub fn all_rounds<S: Succession>(alloc: Global, succession: &S) -> Result<Vec<Vec<usize>>, Memory>
    ensures { IfOk result (λ rounds. AreRounds (S.nodes succession.now) (S.inside succession.now)
        (S.next succession.now) (map (λ r. r.items) rounds.items)) }
{
    let mut marks = vec![in alloc; false; succession.node_count()]?;
    trace_all(alloc, succession, marks.as_mut_slice())
}
