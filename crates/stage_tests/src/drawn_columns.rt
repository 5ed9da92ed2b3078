//! Drawings of grid cells, and what is known of columns, that were worked out by hand.

ghost use Rattle.std.specs.Prelude.{◌≤◌};
ghost use Rattle.solid_model.specs.declared.cell.Axis.{Axis};
ghost use Rattle.solid_model.specs.Limits.{most_grid_coordinates};
ghost use Rattle.solid_model.specs.PerAxis.{numbers_of};
ghost use Rattle.solid_model.specs.Known.{LiesWithin};

use crate::grids::grid_in;
use column_lanes::{Column, style_of};
use columns::{ColumnSet, columns_in, columns_of, draw_cells, draw_in};
use line_demands::{KnownColumn, can_draw};
use solid_model::{Grid, Panel, Panels, PerAxis, Style, View};
use std::alloc::Global;
use std::fmt::Write;
use std::test::Fail;
use test_files::{Row, cells, lines_hold, numbers, row_of, rows_tell};

/// A row a drawing: the numbers of coordinates along x, y and z, a digit each; the cells, layer by
/// layer from the bottom, in each row by row from the front, a `#` for each that is chosen; and for
/// the front, the top and the side the columns, and the styles of the level and of the upright
/// segments, line by line, with `#` for Solid, `-` for Dashed and `.` for Blank.
const DRAWINGS: &str = "\
345; ###.#. ##.#.. ....#. ....## -> \
7 1 1 3 4 0 4 4; ## -- ## .# ##; #### --#. ##.#; \
12 12 8 4 11 1; ## #- ## ##; ### .#- ###; \
3 2 2 3 1 0 0 0 2 0 0 3; ### .## ### ..# ..#; ##.. #-.. .### #.##;
132 -> ;; .;;; ..; 0 0; .. ..; . . .;
111 -> ;;;;;;;;;";

/// A row a pair of columns: what is known of the two, from the nearest cell on, with `#` for a cell
/// that is full, `.` for an empty one and `?` for one that is free; and the styles that they can
/// draw, of Blank, Dashed and Solid.
const KNOWN: &str = "\
#.; #. -> B--
#.; .. -> --S
##; #. -> -D-
??; ?? -> BDS
#?; #. -> BD-
?; ? -> B-S
.#?; ??. -> BDS
#.??; ..?? -> --S
#?; #? -> BD-
?#; ?# -> B-S
?#.; #.. -> -DS
..; .. -> B--";

/// Adds the columns, as a row has them.
fn push_columns(told: &mut String, columns: &[Column]) -> Result<(), Fail> {
    for column in columns {
        write!(told, " {}", column.0)?;
    }
    Ok(told.push_str(";")?)
}

/// The mark of a style.
fn mark(style: Style) -> &'static str {
    match style {
        Style::Blank => ".",
        Style::Dashed => "-",
        Style::Solid => "#",
    }
}

/// Adds the styles, as a row has them, in lines of so many.
fn push_styles(told: &mut String, styles: &[Style], width: usize) -> Result<(), Fail> {
    for (place, style) in styles.iter().enumerate() {
        let gap = if width > 0 && place % width == 0 {
            " "
        } else {
            ""
        };
        write!(told, "{gap}{}", mark(*style))?;
    }
    Ok(told.push_str(";")?)
}

/// Adds the styles of the level and of the upright segments of a view, as a row has them.
fn push_panel(told: &mut String, counts: PerAxis, view: View, panel: &Panel) -> Result<(), Fail>
    requires { (a : Axis) → numbers_of counts a ≤ most_grid_coordinates }
{
    let (frame, gaps) = (view.frame(), counts.gaps());
    push_styles(
        told,
        panel.along(false),
        gaps.along(frame.along(false).axis),
    )?;
    push_styles(told, panel.along(true), gaps.along(frame.along(true).axis))
}

/// What the three views show, as a row has it, behind a blank.
fn told_views(
    alloc: Global,
    counts: PerAxis,
    columns: &ColumnSet,
    panels: &Panels,
) -> Result<String, Fail>
    requires { (a : Axis) → numbers_of counts a ≤ most_grid_coordinates }
{
    let mut told = String::new(alloc);
    for view in [View::Front, View::Top, View::Side] {
        push_columns(&mut told, columns.view(view))?;
        push_panel(&mut told, counts, view, panels.view(view))?;
    }
    Ok(told)
}

/// What the three views show of cells, as a row has it, behind a blank.
fn shown(alloc: Global, counts: PerAxis, cells: &[bool]) -> Result<String, Fail>
    requires { (a : Axis) → numbers_of counts a ≤ most_grid_coordinates }
{
    let columns = columns_in(alloc, counts, cells)?;
    let panels = draw_in(alloc, counts, cells)?;
    told_views(alloc, counts, &columns, &panels)
}

/// What the three views show of a row's cells, as the row has it, behind a blank.
fn shown_in(alloc: Global, row: Row<'_>) -> Result<String, Fail> {
    let [counts, chosen, ..] = row.parts;
    let cells = cells(alloc, chosen)?;
    shown(alloc, numbers(counts), cells.as_slice())
}

#[test]
fn chosen_cells_draw_what_was_found_by_hand(rt: HostRuntime) -> Result<(), Fail> {
    rows_tell(DRAWINGS, |row| shown_in(rt.alloc(), row))
}

/// A row a solid: its drawing, by its strokes in front, from the top and from the side; its cells,
/// as above; and its columns in the three views, nearest bit first. The hollow cube, and a slab of
/// 5 by 5 by 3 with a block of 2 by 1 by 1 on its corner.
const SOLIDS: &str = "\
rect S 0 0 3 3, rect D 1 1 2 2; rect S 0 0 3 3, rect D 1 1 2 2; rect S 0 0 3 3, rect D 1 1 2 2; \
    ######### ####.#### ######### -> \
    7 7 7 7 5 7 7 7 7; 7 7 7 7 5 7 7 7 7; 7 7 7 7 5 7 7 7 7;
line S 0 0 5 0, line D 0 3 2 3, line S 2 3 5 3, line S 0 4 2 4, line S 0 0 0 4, line S 2 3 2 4, \
    line S 5 0 5 3; rect S 0 0 5 5, line S 0 1 2 1, line S 2 0 2 1; \
    rect S 0 0 5 3, line S 0 4 1 4, line S 0 3 0 4, line S 1 3 1 4; #### #... -> \
    3 3 1 0; 3 2 2 2; 3 3 2 0;";

/// Columns, view by view, behind a blank.
fn told_columns(alloc: Global, columns: &ColumnSet) -> Result<String, Fail> {
    let mut told = String::new(alloc);
    for view in [View::Front, View::Top, View::Side] {
        push_columns(&mut told, columns.view(view))?;
    }
    Ok(told)
}

/// The columns of a solid's cells, as a row has them, behind a blank.
fn columns_told(alloc: Global, grid: &Grid, cells: &[bool]) -> Result<String, Fail> {
    let columns = columns_of(alloc, grid, cells)?;
    told_columns(alloc, &columns)
}

/// Whether a solid's cells draw the drawing of the grid.
fn draw_it(alloc: Global, grid: &Grid, cells: &[bool]) -> Result<bool, Fail> {
    let panels = draw_cells(alloc, grid, cells)?;
    Ok(panels.same(grid.panels()))
}

/// Whether a solid's cells have these columns, and draw the drawing of the grid.
fn stand_so(alloc: Global, grid: &Grid, cells: &[bool], wanted: &str) -> Result<bool, Fail> {
    let columns = columns_told(alloc, grid, cells)?;
    Ok(columns.as_str().trim_start() == wanted && draw_it(alloc, grid, cells)?)
}

/// Whether a row's solid has its columns on this grid, and draws its drawing.
fn is_drawn_on(alloc: Global, grid: &Grid, row: Row<'_>) -> Result<bool, Fail> {
    let cells = cells(alloc, row.parts[3])?;
    stand_so(alloc, grid, cells.as_slice(), row.wanted)
}

/// The same on the grid of its drawing.
fn is_drawn(alloc: Global, row: Row<'_>) -> Result<bool, Fail> {
    let grid = grid_in(alloc, row)?;
    is_drawn_on(alloc, &grid, row)
}

#[test]
fn solids_have_their_columns_and_drawings(rt: HostRuntime) -> Result<(), Fail> {
    lines_hold(SOLIDS, |line| is_drawn(rt.alloc(), row_of(line)))
}

/// The depths at which a text has one of two marks.
fn depths(text: &str, mark: u8, other: u8) -> u64 {
    let mut depths: u64 = 0;
    let mut depth: u64 = 1;
    for byte in text.bytes() {
        if byte == mark || byte == other {
            depths |= depth;
        }
        depth <<= 1;
    }
    depths
}

/// What a text says of a column.
fn known(text: &str) -> KnownColumn
    ensures { LiesWithin result.full result.may }
{
    let may = depths(text, b'#', b'?');
    KnownColumn {
        full: depths(text, b'#', b'#') & may,
        may,
    }
}

/// The letter of a style, if two columns can draw it, else a `-`.
fn letter(style: Style, after: KnownColumn, before: KnownColumn) -> &'static str
    requires after { LiesWithin after.full after.may }
    requires before { LiesWithin before.full before.may }
{
    if !can_draw(style, after, before) {
        return "-";
    }
    match style {
        Style::Blank => "B",
        Style::Dashed => "D",
        Style::Solid => "S",
    }
}

/// The styles that a row's two columns can draw, as the row has them.
fn drawable(alloc: Global, row: Row<'_>) -> Result<String, Fail> {
    let [after, before, ..] = row.parts;
    let (after, before) = (known(after), known(before));
    let blank = letter(Style::Blank, after, before);
    let dashed = letter(Style::Dashed, after, before);
    let solid = letter(Style::Solid, after, before);
    Ok(format!(in alloc; "{blank}{dashed}{solid}")?)
}

#[test]
fn known_columns_can_draw_what_was_found_by_hand(rt: HostRuntime) -> Result<(), Fail> {
    rows_tell(KNOWN, |row| drawable(rt.alloc(), row))
}

/// The styles between a cell at a depth and itself, between it and itself with the farthest cell,
/// between these and the farthest cell alone, and between that and none.
fn styles_at(depth: u32) -> [Style; 4]
    requires { depth ≤ 62 }
{
    let (near, far) = (Column(1 << depth), Column(1 << 63));
    let both = Column(near.0 | far.0);
    [
        style_of(near, near),
        style_of(near, both),
        style_of(both, far),
        style_of(far, Column(0)),
    ]
}

#[test]
fn columns_have_all_64_depths(rt: HostRuntime) {
    let wanted = [Style::Blank, Style::Dashed, Style::Solid, Style::Solid];
    for depth in 0..63_u32 {
        assert_eq!(rt; styles_at(depth), wanted, "depth {depth}");
    }
}
