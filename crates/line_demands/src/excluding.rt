//! Whether a line excludes a value of a block.
//!
//! A search looks at all values that a line excludes (`propagate`), a checker of its log at one
//! that is claimed: so this asks each cell of the block beside the line, and no more.

ghost use Rattle.std.specs.Prelude.{◌≡◌, ◌↔◌, ◌<◌, pos, ℤ, None, IsTrue};
ghost use Rattle.line_demands.specs.Doubted.{CanDrawWith};
ghost use Rattle.line_demands.specs.Excluding.{ExcludesAt, ExcludesBeside};
ghost use Rattle.line_demands.specs.Seen.{column_of};
ghost use Rattle.solid_model.specs.Decisions.{decided_by};
ghost use Rattle.solid_model.specs.Demands.{has_line};
ghost use Rattle.solid_model.specs.Forcing.{LineExcludes, with_value};
ghost use Rattle.solid_model.specs.Frames.{frame_of};
ghost use Rattle.solid_model.specs.GridBox.{grid_sizes};
ghost use Rattle.solid_model.specs.Known.{known_bits, LiesWithin};

use crate::known::{KnownColumn, can_draw};
use crate::partial::Partial;
use crate::seen::{SeenLine, block_beside};
use solid_model::{LineId, Problem, Style};

/// The column, where an undecided cell has a value.
fn with_value(column: KnownColumn, depth: usize, value: bool) -> KnownColumn
    requires depth { depth < 64 }
    requires within { LiesWithin column.full column.may }
    requires undecided { known_bits column.full column.may (pos depth) ≡ None }
    ensures within { LiesWithin result.full result.may }
    ensures known { (k : ℤ) → known_bits result.full result.may k
        ≡ with_value depth value (known_bits column.full column.may) k }
{
    let cell: u64 = 1 << depth;
    if value {
        KnownColumn {
            full: column.full | cell,
            may: column.may,
        }
    } else {
        KnownColumn {
            full: column.full,
            may: column.may & !cell,
        }
    }
}

/// Some pair of columns of which the first one has the value in an undecided cell draws the style.
pub fn can_draw_with(
    style: Style,
    column: KnownColumn,
    beside: KnownColumn,
    depth: usize,
    value: bool,
) -> bool
    requires depth { depth < 64 }
    requires within { LiesWithin column.full column.may }
    requires beside { LiesWithin beside.full beside.may }
    requires undecided { known_bits column.full column.may (pos depth) ≡ None }
    ensures { IsTrue result ↔ CanDrawWith (known_bits column.full column.may)
        (known_bits beside.full beside.may) style depth value }
{
    can_draw(style, with_value(column, depth, value), beside)
}

/// The column after the line, or the one before it.
pub fn column_of(seen: SeenLine, of_after: bool) -> KnownColumn
    requires after { LiesWithin seen.after.full seen.after.may }
    requires before { LiesWithin seen.before.full seen.before.may }
    ensures column { result ≡ column_of seen of_after }
    ensures within { LiesWithin result.full result.may }
{
    if of_after { seen.after } else { seen.before }
}

/// Nothing is known of the cell.
fn is_free(column: KnownColumn, depth: usize) -> bool
    requires depth { depth < 64 }
    ensures { IsTrue result ↔ (known_bits column.full column.may (pos depth) ≡ None) }
{
    (column.may >> depth) & 1 == 1 && (column.full >> depth) & 1 != 1
}

/// A cell of the column after a line, or of the one before it, excludes a value of a block.
fn cell_excludes(
    problem: &Problem,
    seen: SeenLine,
    of_after: bool,
    depth: usize,
    block: u16,
    value: bool,
) -> bool
    requires line { IsTrue (has_line problem.now.grid seen.line) }
    requires after { LiesWithin seen.after.full seen.after.may }
    requires before { LiesWithin seen.before.full seen.before.may }
    requires depth { depth < grid_sizes problem.now.grid (frame_of seen.line.view).away.axis }
    requires within { depth < 64 }
    ensures { IsTrue result ↔ ExcludesAt problem.now seen of_after depth block value }
{
    let column = column_of(seen, of_after);
    let beyond = column_of(seen, !of_after);
    if !is_free(column, depth) {
        return false;
    }
    match block_beside(problem, seen.line, of_after, depth) {
        None => false,
        Some(other) => {
            if other != block {
                return false;
            }
            !can_draw_with(seen.style, column, beyond, depth, value)
        }
    }
}

/// Some cell of that column does.
fn column_excludes(
    problem: &Problem,
    seen: SeenLine,
    of_after: bool,
    block: u16,
    value: bool,
) -> bool
    requires line { IsTrue (has_line problem.now.grid seen.line) }
    requires after { LiesWithin seen.after.full seen.after.may }
    requires before { LiesWithin seen.before.full seen.before.may }
    ensures { IsTrue result ↔ ExcludesBeside problem.now seen of_after block value }
{
    for depth in 0..problem
        .grid()
        .sizes()
        .along(seen.line.view.frame().away.axis)
    {
        if cell_excludes(problem, seen, of_after, depth, block, value) {
            return true;
        }
    }
    false
}

/// Whether a line excludes a value of an undecided block: with it no pair of columns beside the
/// line that agrees with every decided cell draws the line's style.
pub fn excludes(partial: &Partial<'_>, line: LineId, block: u16, value: bool) -> bool
    requires has { IsTrue (has_line partial.now.problem.grid line) }
    requires undecided { decided_by partial.now.decisions block ≡ None }
    ensures { IsTrue result ↔ LineExcludes partial.now.problem (decided_by partial.now.decisions)
        line block value }
{
    let problem = partial.problem();
    problem.known();
    let seen = partial.seen_at(line);
    column_excludes(problem, seen, true, block, value)
        || column_excludes(problem, seen, false, block, value)
}
