//! The columns beside a line, by number.

ghost use Rattle.std.specs.Prelude.{◌≡◌, ◌<◌, ◌≤◌, ◌+◌, ◌*◌, pos, ◌-ℤ◌, IsTrue, if◌then◌else◌};
ghost use Rattle.line_demands.specs.KeptColumns.{columns_before, column_count, column_number, IsColumnOf, IsBeside};
ghost use Rattle.line_demands.specs.Touching.{view_width, view_height};
ghost use Rattle.solid_model.specs.declared.cell.Axis.{Axis};
ghost use Rattle.solid_model.specs.Blocks.{ProblemParts};
ghost use Rattle.solid_model.specs.Demands.{has_line, line_style};
ghost use Rattle.solid_model.specs.PerAxis.{numbers_of};
ghost use Rattle.solid_model.specs.GridBox.{grid_sizes, axis_along, axis_across};

use crate::lines::Beside;
use solid_model::{Grid, LineId, PerAxis, View};

/// How many columns a view has.
fn columns_in(sizes: PerAxis, view: View) -> usize
    requires few { (a : Axis) → numbers_of sizes a ≤ 63 }
    ensures same { result ≡ view_height (numbers_of sizes) view * view_width (numbers_of sizes)
        view }
    ensures few { result ≤ 3969 }
{
    let frame = view.frame();
    sizes.along(frame.across(false).axis) * sizes.along(frame.along(false).axis)
}

/// How many columns stand before those of a view.
pub fn first_column(sizes: PerAxis, view: View) -> usize
    requires few { (a : Axis) → numbers_of sizes a ≤ 63 }
    ensures same { result ≡ columns_before (numbers_of sizes) view }
    ensures few { result ≤ 7938 }
{
    match view {
        View::Front => 0,
        View::Top => columns_in(sizes, View::Front),
        View::Side => columns_in(sizes, View::Front) + columns_in(sizes, View::Top),
    }
}

/// How many columns there are in all, which is the number of the one beyond.
pub fn all_columns(sizes: PerAxis) -> usize
    requires few { (a : Axis) → numbers_of sizes a ≤ 63 }
    ensures same { result ≡ column_count (numbers_of sizes) }
    ensures few { result ≤ 11907 }
{
    first_column(sizes, View::Side) + columns_in(sizes, View::Side)
}

/// The number of a column.
pub fn number_of_column(sizes: PerAxis, view: View, right: usize, up: usize) -> usize
    requires few { (a : Axis) → numbers_of sizes a ≤ 63 }
    requires right { right < view_width (numbers_of sizes) view }
    requires up { up < view_height (numbers_of sizes) view }
    ensures same { result ≡ column_number (numbers_of sizes) view right up }
    ensures inside { result < column_count (numbers_of sizes) }
    ensures few { result ≤ 11907 }
{
    first_column(sizes, view) + (up * sizes.along(view.frame().along(false).axis) + right)
}

/// The number of the column beside a line at a place across it.
fn column_beside(sizes: PerAxis, line: LineId, at: usize) -> u32
    requires few { (a : Axis) → numbers_of sizes a ≤ 63 }
    requires at { at < numbers_of sizes (axis_across line.view line.upright) }
    requires cell { line.cell < numbers_of sizes (axis_along line.view line.upright) }
    ensures same { result ≡ column_number (numbers_of sizes) line.view
        (if line.upright then at else line.cell) (if line.upright then line.cell else at) }
    ensures inside { result < column_count (numbers_of sizes) }
{
    let cell = usize::from(line.cell);
    let number = if line.upright {
        number_of_column(sizes, line.view, at, cell)
    } else {
        number_of_column(sizes, line.view, cell, at)
    };
    number as u32
}

/// The number of the column after a line, or of the one beyond where there is none.
fn column_after(sizes: PerAxis, line: LineId) -> u32
    requires few { (a : Axis) → numbers_of sizes a ≤ 63 }
    requires cell { line.cell < numbers_of sizes (axis_along line.view line.upright) }
    ensures is { IsColumnOf (numbers_of sizes) line (pos line.at) result }
    ensures inside { result < column_count (numbers_of sizes) + 1 }
{
    let at = usize::from(line.at);
    if at < sizes.along(line.view.frame().across(line.upright).axis) {
        return column_beside(sizes, line, at);
    }
    all_columns(sizes) as u32
}

/// The number of the column before a line, or of the one beyond where there is none.
fn column_before(sizes: PerAxis, line: LineId) -> u32
    requires few { (a : Axis) → numbers_of sizes a ≤ 63 }
    requires cell { line.cell < numbers_of sizes (axis_along line.view line.upright) }
    requires at { line.at ≤ numbers_of sizes (axis_across line.view line.upright) }
    ensures is { IsColumnOf (numbers_of sizes) line (pos line.at -ℤ pos 1) result }
    ensures inside { result < column_count (numbers_of sizes) + 1 }
{
    let at = usize::from(line.at);
    if at > 0 {
        return column_beside(sizes, line, at - 1);
    }
    all_columns(sizes) as u32
}

/// A line with its style and the columns beside it.
pub fn beside_of(grid: &Grid, line: LineId) -> Beside
    requires { IsTrue (has_line grid.now line) }
    ensures line { result.line ≡ line }
    ensures cell { line.cell < grid_sizes grid.now (axis_along line.view line.upright) }
    ensures style { result.style ≡ line_style grid.now line }
    ensures after { IsColumnOf (grid_sizes grid.now) line (pos line.at) result.after }
    ensures before { IsColumnOf (grid_sizes grid.now) line (pos line.at -ℤ pos 1) result.before }
    ensures inside_after { result.after < column_count (grid_sizes grid.now) + 1 }
    ensures inside_before { result.before < column_count (grid_sizes grid.now) + 1 }
{
    let sizes = grid.sizes();
    Beside {
        line,
        after: column_after(sizes, line),
        before: column_before(sizes, line),
        style: grid.style(line),
    }
}
