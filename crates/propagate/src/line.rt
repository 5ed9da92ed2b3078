//! What a line forces.
//!
//! Which values two columns exclude of each other has a formula for each style, but what is to be
//! found among them is the least block, and full where both values are excluded. So a few cells are
//! doubted, and each of these alone is tried with either value, by the test that tells whether a
//! line can be met; the block is asked for only where a value is excluded.

ghost use Rattle.std.specs.Prelude.{◌≡◌, ◌<◌, ℕ, pos, true, None, IsTrue};
ghost use Rattle.solid_model.specs.Known.{LiesWithin};
ghost use Rattle.line_demands.specs.Seen.{IsSeen, column_of, known_beside};
ghost use Rattle.line_demands.specs.Excluding.{ExcludesOpen};
ghost use Rattle.propagate.specs.Looking.{TellsLeast};
ghost use Rattle.line_demands.specs.Excluding.{ExcludesAt};
ghost use Rattle.propagate.specs.Beside.{ExcludesAmong};
ghost use Rattle.lemmas.specs.Bits.{is_set};
ghost use Rattle.solid_model.specs.Frames.{frame_of};
ghost use Rattle.solid_model.specs.GridBox.{grid_sizes};
ghost use Rattle.solid_model.specs.Decisions.{decided_by};
ghost use Rattle.solid_model.specs.Demands.{has_line, CanBeMet};

use crate::cells::{forced_value, lesser};
use line_demands::{Partial, SeenLine, block_beside, column_of, doubted, without_lowest};
use solid_model::{Decision, Problem};

/// The decision that an undecided cell of the column after a line, or of the one before it, forces.
fn forced_at(problem: &Problem, seen: SeenLine, of_after: bool, depth: usize) -> Option<Decision>
    requires line { IsTrue (has_line problem.now.grid seen.line) }
    requires after { LiesWithin seen.after.full seen.after.may }
    requires before { LiesWithin seen.before.full seen.before.may }
    requires depth { depth < grid_sizes problem.now.grid (frame_of seen.line.view).away.axis }
    requires within { depth < 64 }
    requires open { known_beside seen of_after (pos depth) ≡ None }
    ensures { TellsLeast (ExcludesAt problem.now seen of_after depth) result }
{
    let column = column_of(seen, of_after);
    let beyond = column_of(seen, !of_after);
    let full = forced_value(seen.style, column, beyond, depth)?;
    let block = block_beside(problem, seen.line, of_after, depth)?;
    Some(Decision { block, full })
}

/// The decision that some cells of the column after a line force, or some of the one before it, all
/// of them undecided: on the least block, full if one of them is.
fn forced_among(problem: &Problem, seen: SeenLine, of_after: bool, cells: u64) -> Option<Decision>
    requires line { IsTrue (has_line problem.now.grid seen.line) }
    requires after { LiesWithin seen.after.full seen.after.may }
    requires before { LiesWithin seen.before.full seen.before.may }
    requires inside { (k : ℕ) → is_set cells k ≡ true
        → k < grid_sizes problem.now.grid (frame_of seen.line.view).away.axis }
    requires open { (k : ℕ) → is_set cells k ≡ true → known_beside seen of_after (pos k) ≡ None }
    ensures { TellsLeast (ExcludesAmong problem.now seen of_after cells) result }
{
    let mut left = cells;
    let mut least = None;
    while left != 0 {
        let depth = left.trailing_zeros() as usize;
        left = without_lowest(left);
        least = lesser(least, forced_at(problem, seen, of_after, depth));
    }
    least
}

/// The decision that a line forces which can be met, if it excludes a value of an undecided block:
/// on the least of these blocks, and full where it excludes both values.
pub fn forced_by_line(partial: &Partial<'_>, seen: SeenLine) -> Option<Decision>
    requires seen { IsSeen partial.now.problem (decided_by partial.now.decisions) seen }
    requires met { CanBeMet partial.now.problem (decided_by partial.now.decisions) seen.line }
    ensures { TellsLeast (ExcludesOpen partial.now.problem (decided_by partial.now.decisions)
        seen.line)
        result }
{
    partial.known();
    let problem = partial.problem();
    let after = doubted(seen.style, seen.after, seen.before);
    let before = doubted(seen.style, seen.before, seen.after);
    if after | before == 0 {
        return None;
    }
    lesser(
        forced_among(problem, seen, true, after),
        forced_among(problem, seen, false, before),
    )
}
