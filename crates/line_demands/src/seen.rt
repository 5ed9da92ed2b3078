//! What is seen of a line, and the blocks beside it.

ghost use Rattle.std.specs.Prelude.{◌≡◌, ◌<◌, ◌≤◌, pos, None, false, IsTrue, IfSome, length, if◌then◌else◌};
ghost use Rattle.line_demands.specs.Spans.{column_there};
ghost use Rattle.solid_model.specs.declared.cell.Axis.{Axis};
ghost use Rattle.solid_model.specs.Blocks.{block_at};
ghost use Rattle.solid_model.specs.Demands.{has_line};
ghost use Rattle.solid_model.specs.Forcing.{place_beside, cell_beside};
ghost use Rattle.solid_model.specs.Frames.{frame_of};
ghost use Rattle.solid_model.specs.GridBox.{grid_sizes, axis_across};
ghost use Rattle.solid_model.specs.PerAxis.{numbers_of};
ghost use Rattle.solid_model.specs.WalledBoxes.{is_below};

use crate::gather::{ColumnPlace, block_at_depth};
use crate::known::KnownColumn;
use crate::lines::Beside;
use crate::sight::cells_of_column;
use solid_model::{LineId, PerAxis, Problem, Style};

/// A line, its style, and what is known of the columns after it and before it.
#[derive(Clone, Copy, Debug)]
pub struct SeenLine {
    pub after: KnownColumn,
    pub before: KnownColumn,
    pub line: LineId,
    pub style: Style,
}

/// The line with what is known of the columns beside it.
pub fn seen_line(columns: &[KnownColumn], beside: Beside) -> SeenLine
    requires after { beside.after < length columns.now }
    requires before { beside.before < length columns.now }
    ensures { result ≡ record {
      line = beside.line;
      style = beside.style;
      after = column_there columns.now beside.after;
      before = column_there columns.now beside.before;
    } }
{
    SeenLine {
        line: beside.line,
        style: beside.style,
        after: columns[beside.after as usize],
        before: columns[beside.before as usize],
    }
}

/// The place across a line of the column after it, or of the one before it, if there is one.
fn place_beside(sizes: PerAxis, line: LineId, of_after: bool) -> Option<usize>
    ensures some { IfSome result (λ at. (pos at ≡ place_beside line of_after)
        × (at < numbers_of sizes (axis_across line.view line.upright))) }
    ensures none { result ≡ None → line.at ≤ numbers_of sizes (axis_across line.view line.upright)
        → is_below (numbers_of sizes (axis_across line.view line.upright))
        (place_beside line of_after) ≡ false }
{
    let at = usize::from(line.at);
    let place = if of_after { at } else { at.checked_sub(1)? };
    if place < sizes.along(line.view.frame().across(line.upright).axis) {
        Some(place)
    } else {
        None
    }
}

/// Where the column stands that a line has beside it, at a place across it.
fn column_place(line: LineId, across: usize) -> ColumnPlace
    ensures { result ≡ record {
      view = line.view;
      right = if line.upright then across else line.cell;
      up = if line.upright then line.cell else across;
    } }
{
    let along = usize::from(line.cell);
    if line.upright {
        ColumnPlace {
            view: line.view,
            right: across,
            up: along,
        }
    } else {
        ColumnPlace {
            view: line.view,
            right: along,
            up: across,
        }
    }
}

/// The block of the cell at a depth of the column after a line, or of the one before it: none where
/// there is no such column, and none of a cell that is outside.
pub fn block_beside(problem: &Problem, line: LineId, of_after: bool, depth: usize) -> Option<u16>
    requires line { IsTrue (has_line problem.now.grid line) }
    requires depth { depth < grid_sizes problem.now.grid (frame_of line.view).away.axis }
    ensures block { result
        ≡ block_at problem.now.blocks (cell_beside problem.now.grid line of_after (pos depth)) }
    ensures below { IfSome result (λ b. b < problem.now.blocks.count) }
{
    let sizes = problem.grid().sizes();
    let across = place_beside(sizes, line, of_after)?;
    let place = column_place(line, across);
    let cells = cells_of_column(sizes, line.view.frame(), place.right, place.up);
    block_at_depth(problem, sizes, place, cells, depth)
}
