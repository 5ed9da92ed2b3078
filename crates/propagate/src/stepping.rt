//! One forced decision.
//!
//! `step` asks all lines. Who takes many steps keeps which lines are doubted: a decision doubts
//! those alone that touch its block and may force something, by what was told when it was taken,
//! so that `step_doubted` asks few. Who takes decisions back must know what was so before them: to
//! where nothing was forced, no line is doubted.

ghost use Rattle.std.specs.Prelude.{◌≡◌, ◌<◌, ◌+◌, ℕ, true, false, Some, length, take, slice_get, slice_index_or};
ghost use Rattle.line_demands.specs.Free.{LeavesFree};
ghost use Rattle.line_demands.specs.Touching.{touches};
ghost use Rattle.propagate.specs.Forced.{IsStep};
ghost use Rattle.propagate.specs.Doubting.{AreDoubted, AreDoubtedBefore};
ghost use Rattle.solid_model.specs.declared.decision.Decision.{Decision};
ghost use Rattle.solid_model.specs.declared.line_id.LineId.{LineId};
ghost use Rattle.solid_model.specs.Decisions.{decided_by};
ghost use Rattle.solid_model.specs.Demands.{lines_of, CanBeMet};

use crate::closing::decided_block;
use crate::doubted::DoubtedLines;
use crate::line::forced_by_line;
use line_demands::{Partial, has_place};
use solid_model::LineId;

/// What a step did.
#[derive(Clone, Copy, Debug, PartialEq, Eq)]
pub enum Forcing {
    /// The line excluded a value of the block, which is decided the other way now.
    Forced {
        block: u16,
        full: bool,
        line: LineId,
    },
    /// Every line can be met, and none excludes a value.
    Stable,
    /// The line can't be met.
    Conflict {
        line: LineId,
    },
}

/// Takes one decision that the lines force. Where a line can't be met, it names the least such
/// line. Else, where a value of an undecided block is excluded, the least line that excludes one
/// decides: of the blocks of which it excludes a value the least, full if it excludes both values.
/// Else it is stable. Unless it is forced the partial is left as it was.
pub fn step(partial: &mut Partial<'_>) -> Forcing
    ensures problem { partial.new.problem ≡ partial.old.problem }
    ensures step { IsStep partial.old.problem partial.old.decisions partial.new.decisions result }
{
    partial.known();
    if let Some(line) = partial.broken_line() {
        return Forcing::Conflict { line };
    }
    for number in 0..partial.line_count() {
        let seen = partial.seen(number);
        if let Some(decision) = forced_by_line(partial, seen) {
            partial.decide(decision.block, decision.full);
            return Forcing::Forced {
                block: decision.block,
                full: decision.full,
                line: seen.line,
            };
        }
    }
    Forcing::Stable
}

/// Doubts the lines that touch the block of a decision and may force something, by what was told
/// when it was taken.
fn doubt_touching(partial: &Partial<'_>, at: u16, doubted: &mut DoubtedLines)
    requires at { at < length partial.now.decisions }
    requires count { length doubted.old ≡ length (lines_of partial.now.problem.grid) }
    ensures count { length doubted.new ≡ length doubted.old }
    ensures kept { (k : ℕ) → slice_index_or doubted.new k false ≡ false
        → slice_index_or doubted.old k false ≡ false }
    ensures free { (d : Decision) → slice_get partial.now.decisions at ≡ Some d
        → (k : ℕ) (l : LineId) → slice_get (lines_of partial.now.problem.grid) k ≡ Some l
        → touches partial.now.problem d.block l ≡ true → slice_index_or doubted.new k false ≡ false
        → CanBeMet partial.now.problem (decided_by (take (at + 1) partial.now.decisions)) l
        → LeavesFree partial.now.problem (decided_by (take (at + 1) partial.now.decisions)) l }
{
    let block = decided_block(partial, at);
    let doubts = partial.doubts(at);
    for place in 0..partial.touching(block) {
        if !has_place(doubts, place as usize) {
            continue;
        }
        doubted.doubt(partial.touched(block, place));
    }
}

/// Doubts what a last decision gives to doubt.
pub fn doubt_last(partial: &Partial<'_>, doubted: &mut DoubtedLines)
    requires { AreDoubtedBefore partial.now.problem partial.now.decisions doubted.old }
    ensures { AreDoubted partial.now.problem partial.now.decisions doubted.new }
{
    partial.known();
    let count = partial.decided();
    doubt_touching(partial, count - 1, doubted);
}

/// A step, as `step` takes it, that asks doubted lines alone.
pub fn step_doubted(partial: &mut Partial<'_>, doubted: &mut DoubtedLines) -> Forcing
    requires { AreDoubted partial.old.problem partial.old.decisions doubted.old }
    ensures problem { partial.new.problem ≡ partial.old.problem }
    ensures step { IsStep partial.old.problem partial.old.decisions partial.new.decisions result }
    ensures doubted { AreDoubted partial.new.problem partial.new.decisions doubted.new }
{
    partial.known();
    if let Some(line) = partial.broken_line() {
        return Forcing::Conflict { line };
    }
    for number in doubted.first()..partial.line_count() {
        if !doubted.has(number) {
            continue;
        }
        let asked = partial.seen(number);
        if let Some(decision) = forced_by_line(partial, asked) {
            doubted.pass(number);
            partial.decide(decision.block, decision.full);
            doubt_last(partial, doubted);
            return Forcing::Forced {
                block: decision.block,
                full: decision.full,
                line: asked.line,
            };
        }
        doubted.clear(number);
    }
    doubted.pass(partial.line_count());
    Forcing::Stable
}
