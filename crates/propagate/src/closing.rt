//! All that is forced.
//!
//! What is to be done is the list of decisions itself: of the lines that touch the block of each,
//! in order, those that may exclude a value, as was told when it was taken, are looked at once for
//! it; each takes at most one decision, which stands at the end of the list, so that the line comes
//! again if it may exclude more. So closing keeps no set of lines and takes no memory. `close`
//! looks at all lines first; `decide_closed` takes a decision and begins at it, where the lines
//! exclude nothing under those before.

ghost use Rattle.std.specs.Prelude.{◌≡◌, ◌<◌, ◌≤◌, ◌+◌, ◌++◌, ◌∷◌, [], ℕ, Some, None, length, slice_get, slice_index_or, IfSome, IsTrue};
ghost use Rattle.propagate.specs.Closing.{Grows, TellsClosed, IsHandled};
ghost use Rattle.propagate.specs.Forced.{IsCalm};
ghost use Rattle.solid_model.specs.declared.decision.Decision.{Decision};
ghost use Rattle.solid_model.specs.declared.line_id.LineId.{LineId};
ghost use Rattle.solid_model.specs.Decisions.{decided_by};
ghost use Rattle.solid_model.specs.Demands.{has_line, lines_of, AllMet, IsFirstBroken};

use crate::line::forced_by_line;
use line_demands::{Partial, has_place};
use solid_model::LineId;

/// How closing ended.
#[derive(Clone, Copy, Debug, PartialEq, Eq)]
pub enum Closed {
    /// Every line can be met, and none excludes a value.
    Stable,
    /// The line can't be met.
    Conflict { line: LineId },
}

/// Looks at the line of a number, and takes a decision that it forces. The first line that can't be
/// met then, if there is one.
fn settle_line(partial: &mut Partial<'_>, number: usize) -> Option<LineId>
    requires number { number < length (lines_of partial.old.problem.grid) }
    requires met { AllMet partial.old.problem (decided_by partial.old.decisions) }
    ensures problem { partial.new.problem ≡ partial.old.problem }
    ensures grows { Grows partial.old.problem partial.old.decisions partial.new.decisions }
    ensures lost { IfSome result (IsFirstBroken partial.old.problem
        (decided_by partial.new.decisions)) }
    ensures met { result ≡ None → AllMet partial.old.problem (decided_by partial.new.decisions) }
    ensures done { (from : ℕ) (d : LineId) → from ≤ length partial.old.decisions
        → IsHandled partial.old.problem partial.new.decisions from
        (slice_index_or (lines_of partial.old.problem.grid) number d) }
    ensures kept { (from : ℕ) → from ≤ length partial.old.decisions → (l : LineId)
        → IsHandled partial.old.problem partial.old.decisions from l
        → IsHandled partial.old.problem partial.new.decisions from l }
{
    partial.known();
    let seen = partial.seen(number);
    let decision = forced_by_line(partial, seen)?;
    partial.decide(decision.block, decision.full);
    partial.broken_line()
}

/// The block of a decision.
pub fn decided_block(partial: &Partial<'_>, at: u16) -> u16
    requires { at < length partial.now.decisions }
    ensures decision { (d : Decision) × (slice_get partial.now.decisions at ≡ Some d)
        × (d.block ≡ result) }
    ensures there { result < partial.now.problem.blocks.count }
{
    partial.known();
    partial.decisions()[usize::from(at)].block
}

/// Looks at each line that touches the block of a decision and may force something by what was told
/// when it was taken, until a line can't be met.
fn settle_touching(partial: &mut Partial<'_>, at: u16) -> Option<LineId>
    requires at { at < length partial.old.decisions }
    requires met { AllMet partial.old.problem (decided_by partial.old.decisions) }
    ensures problem { partial.new.problem ≡ partial.old.problem }
    ensures grows { Grows partial.old.problem partial.old.decisions partial.new.decisions }
    ensures lost { IfSome result (IsFirstBroken partial.old.problem
        (decided_by partial.new.decisions)) }
    ensures met { result ≡ None → AllMet partial.old.problem (decided_by partial.new.decisions) }
    ensures done { result ≡ None → (l : LineId) → IsTrue (has_line partial.old.problem.grid l)
        → IsHandled partial.old.problem partial.old.decisions at l
        → IsHandled partial.old.problem partial.new.decisions (at + 1) l }
{
    partial.known();
    let block = decided_block(partial, at);
    let doubts = partial.doubts(at);
    if doubts == 0 {
        return None;
    }
    for place in 0..partial.touching(block) {
        if !has_place(doubts, place as usize) {
            continue;
        }
        let number = partial.touched(block, place);
        if let Some(line) = settle_line(partial, number) {
            return Some(line);
        }
    }
    None
}

/// Looks at all lines, until one can't be met.
fn settle_all(partial: &mut Partial<'_>) -> Option<LineId>
    requires met { AllMet partial.old.problem (decided_by partial.old.decisions) }
    ensures problem { partial.new.problem ≡ partial.old.problem }
    ensures grows { Grows partial.old.problem partial.old.decisions partial.new.decisions }
    ensures lost { IfSome result (IsFirstBroken partial.old.problem
        (decided_by partial.new.decisions)) }
    ensures met { result ≡ None → AllMet partial.old.problem (decided_by partial.new.decisions) }
    ensures done { result ≡ None → (l : LineId) → IsTrue (has_line partial.old.problem.grid l)
        → IsHandled partial.old.problem partial.new.decisions (length partial.old.decisions) l }
{
    for number in 0..partial.line_count() {
        if let Some(line) = settle_line(partial, number) {
            return Some(line);
        }
    }
    None
}

/// Looks at the lines that touch the blocks of the decisions from one on, and of those that they
/// force, until one can't be met.
fn settle_from(partial: &mut Partial<'_>, from: u16) -> Option<LineId>
    requires handled { (l : LineId) → IsTrue (has_line partial.old.problem.grid l)
        → IsHandled partial.old.problem partial.old.decisions from l }
    requires met { AllMet partial.old.problem (decided_by partial.old.decisions) }
    ensures problem { partial.new.problem ≡ partial.old.problem }
    ensures grows { Grows partial.old.problem partial.old.decisions partial.new.decisions }
    ensures lost { IfSome result (IsFirstBroken partial.old.problem
        (decided_by partial.new.decisions)) }
    ensures met { result ≡ None → AllMet partial.old.problem (decided_by partial.new.decisions) }
    ensures done { result ≡ None → (l : LineId) → IsTrue (has_line partial.old.problem.grid l)
        → IsCalm partial.old.problem (decided_by partial.new.decisions) l }
{
    let mut at = from;
    while at < partial.decided() {
        if let Some(line) = settle_touching(partial, at) {
            return Some(line);
        }
        at += 1;
    }
    None
}

/// Takes all decisions that the lines force, one after another, until a line can't be met or none
/// excludes a value. Those decisions form a forcing chain from the decisions before. Stable comes
/// exactly where under every forcing chain from these every line can be met. Else it is a conflict,
/// and its line is the least that can't be met now.
pub fn close(partial: &mut Partial<'_>) -> Closed
    ensures problem { partial.new.problem ≡ partial.old.problem }
    ensures grows { Grows partial.old.problem partial.old.decisions partial.new.decisions }
    ensures closed { TellsClosed partial.old.problem partial.old.decisions partial.new.decisions
        result }
{
    let from = partial.decided();
    if let Some(line) = partial.broken_line() {
        return Closed::Conflict { line };
    }
    if let Some(line) = settle_all(partial) {
        return Closed::Conflict { line };
    }
    match settle_from(partial, from) {
        Some(line) => Closed::Conflict { line },
        None => Closed::Stable,
    }
}

/// Decides a block that isn't decided, and closes, where the lines exclude nothing before: only
/// lines that touch a block decided since are looked at, and of these only those which may force
/// something.
pub fn decide_closed(partial: &mut Partial<'_>, block: u16, full: bool) -> Closed
    requires there { block < partial.old.problem.blocks.count }
    requires open { decided_by partial.old.decisions block ≡ None }
    requires calm { (l : LineId) → IsTrue (has_line partial.old.problem.grid l)
        → IsCalm partial.old.problem (decided_by partial.old.decisions) l }
    ensures problem { partial.new.problem ≡ partial.old.problem }
    ensures grows { Grows partial.old.problem
        (partial.old.decisions ++ record { block = block; full = full } ∷ [])
        partial.new.decisions }
    ensures closed { TellsClosed partial.old.problem
        (partial.old.decisions ++ record { block = block; full = full } ∷ [])
        partial.new.decisions result }
{
    partial.known();
    let from = partial.decided();
    partial.decide(block, full);
    if let Some(line) = partial.broken_line() {
        return Closed::Conflict { line };
    }
    match settle_from(partial, from) {
        Some(line) => Closed::Conflict { line },
        None => Closed::Stable,
    }
}
