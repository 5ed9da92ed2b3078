//! Steps down the tree of a problem's prefixes, and back: with each live prefix what follows from
//! it is decided.
//!
//! A value that is decided already tells at once whether the next prefix is live; another one is
//! decided and closed; where that ends in a conflict the prefix is dead, and all is taken back. For
//! each live prefix on the way a mark says how many decisions there were before its last value, so
//! going up takes back to the mark. Its decisions at a live prefix are no forcing chain from it:
//! what an earlier one forced stands before the later values. So what is kept is that the prefix
//! implies them (`IsImplied`), and that they leave nothing excluded and every line able to be met.

ghost use Rattle.std.specs.Prelude.{◌≡◌, ◌∷◌, [], ◌++◌, Bool, List, true, false, ◌+◌, ◌-◌, ◌<◌, ◌≤◌, length, take, vec_capacity};
ghost use Rattle.search_tree.specs.BlockPaths.{IsClosure, AreMarks};
ghost use Rattle.solid_model.specs.Decisions.{decided_by};
ghost use Rattle.solid_model.specs.Demands.{said_by};
ghost use Rattle.solid_model.specs.Forcing.{IsStable, Lives};

use line_demands::{Partial, undo_to};
use propagate::{Closed, close, decide_closed};
use solid_model::Prefix;

/// Begins at the empty prefix, where no block is decided and nothing is marked: takes all decisions
/// that follow from it, unless it isn't live.
pub fn begin(partial: &mut Partial<'_>, marks: &mut Vec<u16>)
    requires none { partial.old.decisions ≡ [] }
    requires unmarked { marks.old.items ≡ [] }
    requires room { 0 < vec_capacity marks.old }
    ensures problem { partial.new.problem ≡ partial.old.problem }
    ensures marked { AreMarks partial.old.problem [] partial.new.decisions marks.new.items }
    ensures room { vec_capacity marks.new ≡ vec_capacity marks.old }
{
    match close(partial) {
        Closed::Stable => marks.push_reserved(0),
        Closed::Conflict { .. } => undo_to(partial, 0),
    }
}

/// Goes on from a live prefix, which is closed, to the one with a value more: takes it and all
/// decisions that follow, unless they were taken before. False: that prefix isn't live, and no
/// decision is taken.
fn close_next(partial: &mut Partial<'_>, block: u16, full: bool) -> bool
    requires there { block < partial.old.problem.blocks.count }
    requires stable { IsStable partial.old.problem (decided_by partial.old.decisions) }
    ensures problem { partial.new.problem ≡ partial.old.problem }
    ensures front { take (length partial.old.decisions) partial.new.decisions
        ≡ partial.old.decisions }
    ensures live { result ≡ true → (prefix : List Bool) → length prefix ≡ block
        → IsClosure partial.old.problem prefix (decided_by partial.old.decisions)
        → IsClosure partial.old.problem (prefix ++ full ∷ []) (decided_by partial.new.decisions) }
    ensures dead { result ≡ false → (prefix : List Bool) → length prefix ≡ block
        → IsClosure partial.old.problem prefix (decided_by partial.old.decisions)
        → Lives partial.old.problem (said_by (prefix ++ full ∷ [])) → ⊥ }
    ensures back { result ≡ false → partial.new ≡ partial.old }
{
    let mark = partial.decided();
    match partial.value(block) {
        Some(value) => value == full,
        None => match decide_closed(partial, block, full) {
            Closed::Stable => true,
            Closed::Conflict { .. } => {
                undo_to(partial, mark);
                false
            }
        },
    }
}

/// Goes on from a prefix, that of the first values that are said, so many, to the one with a value
/// more. Below a prefix that isn't live nothing is decided.
pub fn step_down(
    partial: &mut Partial<'_>,
    marks: &mut Vec<u16>,
    said: &Prefix,
    depth: u16,
    full: bool,
)
    requires there { depth < partial.old.problem.blocks.count }
    requires said { depth ≤ length said.now }
    requires marked { AreMarks partial.old.problem (take depth said.now) partial.old.decisions
        marks.old.items }
    requires room { depth + 1 < vec_capacity marks.old }
    ensures problem { partial.new.problem ≡ partial.old.problem }
    ensures marked { AreMarks partial.old.problem (take depth said.now ++ full ∷ [])
        partial.new.decisions marks.new.items }
    ensures room { vec_capacity marks.new ≡ vec_capacity marks.old }
{
    if marks.len() > usize::from(depth) {
        let mark = partial.decided();
        if close_next(partial, depth, full) {
            marks.push_reserved(mark);
        }
    }
}

/// Goes back from a prefix, that of the first values that are said, so many, to the one without the
/// last of them: takes back what was decided for it.
pub fn step_up(partial: &mut Partial<'_>, marks: &mut Vec<u16>, said: &Prefix, depth: u16)
    requires some { 0 < depth }
    requires said { depth ≤ length said.now }
    requires marked { AreMarks partial.old.problem (take depth said.now) partial.old.decisions
        marks.old.items }
    ensures problem { partial.new.problem ≡ partial.old.problem }
    ensures marked { AreMarks partial.old.problem (take (depth - 1) said.now)
        partial.new.decisions marks.new.items }
    ensures room { vec_capacity marks.new ≡ vec_capacity marks.old }
{
    if marks.len() > usize::from(depth) {
        if let Some(mark) = marks.pop() {
            undo_to(partial, mark);
        }
    }
}
