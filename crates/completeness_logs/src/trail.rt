//! Where a log's tree stands: the decisions, and the places of those whose empty side is to come.

ghost use Rattle.std.specs.Prelude.{◌≡◌, ◌<◌, ◌≤◌, ◌++◌, ◌∷◌, [], ℕ, None, true, false, get_or, length, reverse, take, OnErr, OnOk};
ghost use Rattle.solid_model.specs.declared.decision.Decision.{Decision};
ghost use Rattle.solid_model.specs.Decisions.{decided_by};
ghost use Rattle.completeness_logs.specs.Logs.{with_block};
ghost use Rattle.completeness_logs.specs.SplitMarks.{AreSplitMarks, no_decision, sides_to_come, all_to_come};

use line_demands::{Partial, undo_to};
use solid_model::Memory;

/// The block of a decision.
fn decided_block(partial: &Partial<'_>, at: u16) -> u16
    requires { at < length partial.now.decisions }
    ensures { result ≡ (get_or partial.now.decisions at no_decision).block }
{
    partial.decisions()[usize::from(at)].block
}

/// Goes on where a tree has ended: to the empty side of the last split whose empty side is to come.
/// False: there is none.
pub fn close_tree(partial: &mut Partial<'_>, marks: &mut Vec<u16>) -> bool
    requires { AreSplitMarks partial.old.decisions (reverse marks.old.items) }
    ensures problem { partial.new.problem ≡ partial.old.problem }
    ensures marks { AreSplitMarks partial.new.decisions (reverse marks.new.items) }
    ensures coming { all_to_come result partial.new.decisions (reverse marks.new.items)
        ≡ sides_to_come partial.old.decisions (reverse marks.old.items) }
    ensures back { result ≡ true → (mark : ℕ)
        × (last : Decision)
        × (reverse marks.old.items ≡ mark ∷ reverse marks.new.items)
        × (partial.new.decisions ≡ take mark partial.old.decisions ++ last ∷ []) }
    ensures end { result ≡ false → (partial.new ≡ partial.old)
        × (marks.new.items ≡ marks.old.items) }
{
    partial.known();
    match marks.pop() {
        None => false,
        Some(mark) => {
            let block = decided_block(partial, mark);
            undo_to(partial, mark);
            partial.decide(block, false);
            true
        }
    }
}

/// Goes on with a block that is forced.
pub fn go_force(partial: &mut Partial<'_>, block: u16, full: bool, marks: &[u16])
    requires there { block < partial.old.problem.blocks.count }
    requires undecided { decided_by partial.old.decisions block ≡ None }
    requires marks { AreSplitMarks partial.old.decisions (reverse marks.now) }
    ensures problem { partial.new.problem ≡ partial.old.problem }
    ensures marks { AreSplitMarks partial.new.decisions (reverse marks.now) }
    ensures coming { all_to_come true partial.new.decisions (reverse marks.now)
        ≡ with_block (decided_by partial.old.decisions) block full
        ∷ sides_to_come partial.old.decisions (reverse marks.now) }
{
    partial.decide(block, full);
}

/// Goes on with the full side of a split.
pub fn go_split(partial: &mut Partial<'_>, block: u16, marks: &mut Vec<u16>) -> Result<(), Memory>
    requires there { block < partial.old.problem.blocks.count }
    requires undecided { decided_by partial.old.decisions block ≡ None }
    requires marks { AreSplitMarks partial.old.decisions (reverse marks.old.items) }
    ensures problem { partial.new.problem ≡ partial.old.problem }
    ensures marks { OnOk result (AreSplitMarks partial.new.decisions (reverse marks.new.items)) }
    ensures coming { OnOk result (all_to_come true partial.new.decisions (reverse marks.new.items)
        ≡ with_block (decided_by partial.old.decisions) block true
        ∷ with_block (decided_by partial.old.decisions) block false
        ∷ sides_to_come partial.old.decisions (reverse marks.old.items)) }
    ensures split { OnOk result ((marks.new.items
        ≡ marks.old.items ++ length partial.old.decisions ∷ [])
        × (partial.new.decisions
        ≡ partial.old.decisions ++ record { block = block; full = true } ∷ [])) }
    ensures kept { OnErr result
        ((partial.new ≡ partial.old) × (marks.new.items ≡ marks.old.items)) }
{
    let mark = partial.decided();
    marks.push(mark)?;
    partial.decide(block, true);
    Ok(())
}
