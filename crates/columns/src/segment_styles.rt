//! The styles that columns of grid cells draw on the segments of a grid.

ghost use Rattle.std.specs.Prelude.{◌≡◌, ◌≤◌, ◌<◌, ◌*◌, ◌+◌, Bool, List, length, IfOk};
ghost use Rattle.solid_model.specs.declared.cell.Axis.{Axis};
ghost use Rattle.solid_model.specs.Frames.{frame_of, along, across};
ghost use Rattle.solid_model.specs.Limits.{most_grid_coordinates};
ghost use Rattle.solid_model.specs.PerAxis.{numbers_of, gaps_of};
ghost use Rattle.solid_model.specs.Segments.{across_of, along_of};
ghost use Rattle.columns.specs.ColumnLists.{AreColumns};
ghost use Rattle.column_laws.specs.GridPanels.{IsColumnBeside, IsStyleBetween, AreStylesAlong};

use column_lanes::{Column, style_of};
use solid_model::{Frame, Memory, PerAxis, Style, View};
use std::alloc::Global;

/// The places to the right and upwards of what stands at two places along and across the level, or
/// the upright, segments.
fn places(upright: bool, start: usize, line: usize) -> (usize, usize)
    ensures right { result.0 ≡ across_of upright line start }
    ensures up { result.1 ≡ along_of upright line start }
{
    if upright {
        (line, start)
    } else {
        (start, line)
    }
}

/// The column beside a line, after it: there is none beyond the last line.
fn column_beside(
    frame: Frame,
    sizes: PerAxis,
    columns: &[Column],
    upright: bool,
    start: usize,
    line: usize,
) -> Column
    requires sizes { (a : Axis) → numbers_of sizes a ≤ most_grid_coordinates }
    requires count { length columns.now
        ≡ numbers_of sizes frame.up.axis * numbers_of sizes frame.right.axis }
    requires start { start < numbers_of sizes (along frame upright).axis }
    ensures { (chosen : List Bool) → AreColumns frame (numbers_of sizes) chosen columns.now
        → IsColumnBeside frame (numbers_of sizes) chosen upright start line result.0 }
{
    if line < sizes.along(frame.across(upright).axis) {
        let (right, up) = places(upright, start, line);
        columns[up * sizes.along(frame.right.axis) + right]
    } else {
        Column(0)
    }
}

/// The style of a segment that begins at a place along a line.
fn segment_style(
    frame: Frame,
    sizes: PerAxis,
    columns: &[Column],
    upright: bool,
    start: usize,
    line: usize,
) -> Style
    requires sizes { (a : Axis) → numbers_of sizes a ≤ most_grid_coordinates }
    requires count { length columns.now
        ≡ numbers_of sizes frame.up.axis * numbers_of sizes frame.right.axis }
    requires start { start < numbers_of sizes (along frame upright).axis }
    ensures { (chosen : List Bool) → AreColumns frame (numbers_of sizes) chosen columns.now
        → IsStyleBetween frame (numbers_of sizes) chosen upright start line result }
{
    let after = column_beside(frame, sizes, columns, upright, start, line);
    if line == 0 {
        style_of(after, Column(0))
    } else {
        let before = column_beside(frame, sizes, columns, upright, start, line - 1);
        style_of(after, before)
    }
}

/// The styles of the level, or of the upright, segments of a view, by line and then by place along
/// it.
pub fn styles_along(
    alloc: Global,
    view: View,
    counts: PerAxis,
    columns: &[Column],
    upright: bool,
) -> Result<Vec<Style>, Memory>
    requires counts { (a : Axis) → numbers_of counts a ≤ most_grid_coordinates }
    requires count { length columns.now
        ≡ gaps_of (numbers_of counts) (frame_of view).up.axis
        * gaps_of (numbers_of counts) (frame_of view).right.axis }
    ensures { IfOk result (λ styles. (chosen : List Bool)
        → AreColumns (frame_of view) (gaps_of (numbers_of counts)) chosen columns.now
        → AreStylesAlong (numbers_of counts) chosen view upright styles.items) }
{
    let frame = view.frame();
    let sizes = counts.gaps();
    let lines = counts.along(frame.across(upright).axis);
    let width = sizes.along(frame.along(upright).axis);
    let mut styles = Vec::new(alloc);
    for place in 0..lines * width {
        let style = segment_style(frame, sizes, columns, upright, place % width, place / width);
        styles.push(style)?;
    }
    Ok(styles)
}
