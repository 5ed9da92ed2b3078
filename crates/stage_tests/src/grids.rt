//! Grids of drawings, and how many pseudo edges and virtual faces they have.

use dxf_entities::entities;
use dxf_groups::Groups;
use grid::grid_of;
use pseudo_wire::wire_of;
use solid_model::{
    Axis, Drawing, FaceMap, Grid, Panel, Panels, PerAxis, SheetLine, Style, View, Wire,
};
use std::alloc::{AllocError, Global};
use std::test::Fail;
use test_files::{Row, drawing_file, file_bytes, rows_tell};
use views::drawing_of_views;
use virtual_faces::faces_of;

/// A row a drawing, by its strokes in front, from the top and from the side, and then its grid: the
/// coordinates along each axis, and view by view the styles of the level and the upright segments
/// (`=` solid, `-` dashed, `.` blank). First the unit cube; then a step, with unequal cells along
/// each axis: on a slab of 5 by 5 by 3, at its corner in front on the left, a block of 2 by 1 by 1,
/// behind which an edge is hidden; then strokes that are flat along z, where x is read from two
/// views and a style changes at 1; then the step without its side.
const GRIDS: &str = "\
rect S 0 0 1 1; rect S 0 0 1 1; rect S 0 0 1 1 -> [0, 1] [0, 1] [0, 1] front ==/== top ==/== side ==/==
line S 0 0 5 0, line D 0 3 2 3, line S 2 3 5 3, line S 0 4 2 4, line S 0 0 0 4, line S 2 3 2 4, \
    line S 5 0 5 3; \
    line S 0 0 5 0, line S 0 1 2 1, line S 0 5 5 5, line S 0 0 0 5, line S 2 0 2 1, line S 5 0 5 5; \
    line S 0 0 5 0, line S 0 3 5 3, line S 0 4 1 4, line S 0 0 0 4, line S 1 3 1 4, line S 5 0 5 3 \
    -> [0, 2, 5] [0, 1, 5] [0, 3, 4] front ==-==./==.==. top ===.==/===.== side =====./==.==.
line D 0 0 1 0, line S 1 0 3 0; line S 0 0 2 0; line S 0 0 1 0 \
    -> [0, 1, 2, 3] [0, 1] [0] front -==/ top ==..../.... side =/
line S 0 0 5 0, line D 0 3 2 3, line S 2 3 5 3, line S 0 4 2 4, line S 0 0 0 4, line S 2 3 2 4, \
    line S 5 0 5 3; \
    line S 0 0 5 0, line S 0 1 2 1, line S 0 5 5 5, line S 0 0 0 5, line S 2 0 2 1, line S 5 0 5 5; \
    line S 3 3 3 3 \
    -> [0, 2, 5] [0, 1, 5] [0, 3, 4] front ==-==./==.==. top ===.==/===.== side ....../......";

/// The lines of a drawing by its strokes in front, from the top and from the side.
pub fn lines_in(alloc: Global, views: [&str; 3]) -> Result<Vec<SheetLine>, Fail> {
    let file = file_bytes(drawing_file(alloc, views)?)?;
    Ok(entities(alloc, &mut Groups::new(file), 0)?)
}

/// The drawing, of which one view may be missing.
fn drawing_in(alloc: Global, views: [&str; 3]) -> Result<Drawing, Fail> {
    let lines = lines_in(alloc, views)?;
    Ok(drawing_of_views(alloc, lines.as_slice(), true)?)
}

/// The grid of a row's drawing.
pub fn grid_in(alloc: Global, row: Row<'_>) -> Result<Grid, Fail> {
    let drawing = drawing_in(alloc, row.views())?;
    Ok(grid_of(alloc, &drawing)?)
}

/// The mark of a style.
fn mark(style: Style) -> &'static str {
    match style {
        Style::Blank => ".",
        Style::Dashed => "-",
        Style::Solid => "=",
    }
}

/// Adds the marks of styles, behind a text.
fn push_marks(text: &mut String, before: &str, styles: &[Style]) -> Result<(), Fail> {
    text.push_str(before)?;
    for style in styles {
        text.push_str(mark(*style))?;
    }
    Ok(())
}

/// Adds a view of a grid, as in the table.
fn push_view(text: &mut String, name: &str, panel: &Panel) -> Result<(), Fail> {
    push_marks(text, name, panel.along(false))?;
    push_marks(text, "/", panel.along(true))
}

/// Adds the three views of a grid, as in the table.
fn push_views(text: &mut String, panels: &Panels) -> Result<(), Fail> {
    push_view(text, " front ", panels.view(View::Front))?;
    push_view(text, " top ", panels.view(View::Top))?;
    push_view(text, " side ", panels.view(View::Side))
}

/// The coordinates of a grid, as in the table.
fn told_coordinates(alloc: Global, grid: &Grid) -> Result<String, AllocError> {
    format!(in alloc; "{:?} {:?} {:?}", grid.xs(), grid.ys(), grid.zs())
}

/// A grid, as in the table.
fn told_of(alloc: Global, grid: &Grid) -> Result<String, Fail> {
    let mut text = told_coordinates(alloc, grid)?;
    push_views(&mut text, grid.panels())?;
    Ok(text)
}

/// The grid of a row's drawing, as the row has it.
fn told_grid(alloc: Global, row: Row<'_>) -> Result<String, Fail> {
    let grid = grid_in(alloc, row)?;
    told_of(alloc, &grid)
}

#[test]
fn drawings_have_their_grids(rt: HostRuntime) -> Result<(), Fail> {
    rows_tell(GRIDS, |row| told_grid(rt.alloc(), row))
}

/// A row a drawing, by its strokes in front, from the top and from the side; and how many pseudo
/// edges and then how many virtual faces its grid has along, or across, x, y and z. In the last two
/// a view is missing, which hides no edge.
const COUNTS: &str = "\
rect S 0 0 1 1; rect S 0 0 1 1; rect S 0 0 1 1 -> 4 4 4 2 2 2
rect S 0 0 3 3, rect D 1 1 2 2; rect S 0 0 3 3, rect D 1 1 2 2; rect S 0 0 3 3, rect D 1 1 2 2 -> \
    24 24 24 20 20 20
rect S 0 0 3 1, line D 1 0 1 1, line D 2 0 2 1; rect S 0 0 3 3, rect S 1 1 2 2; \
    rect S 0 0 3 1, line D 1 0 1 1, line D 2 0 2 1 -> 16 16 16 8 8 18
rect S 0 0 2 1, line S 1 0 1 1; rect S 0 0 1 1, rect S 1 1 2 2; rect S 0 0 2 1, line S 1 0 1 1 -> \
    8 8 7 4 4 4
rect S 0 0 1 2, line S 0 1 1 1; rect S 0 0 1 2, line S 0 1 1 1; rect S 0 0 1 1, rect S 1 1 2 2 -> \
    7 8 8 4 4 4
rect S 0 0 1 1, rect S 1 1 2 2; rect S 0 0 2 1, line S 1 0 1 1; rect S 0 0 1 2, line S 0 1 1 1 -> \
    8 7 8 4 4 4
rect S 0 0 2 1; rect S 0 0 1 1; rect S 0 0 1 1 -> 4 4 2 1 0 2
line S 0 0 1 0; line S 0 0 1 0; line S 0 0 1 0 -> 1 0 0 0 0 0
lattice 2 2; rect S 0 0 5 4, rect D 1 1 2 2, rect D 3 1 4 2, rect D 1 3 2 4, rect D 3 3 4 4; \
    rect S 0 0 4 5, rect D 1 1 2 2, rect D 3 1 4 2, rect D 1 3 2 4, rect D 3 3 4 4 -> \
    72 80 72 56 62 56
lattice 2 2, rect S 6 6 9 9, rect D 7 7 8 8, rect S 10 10 11 11; \
    lattice 2 2, rect S 6 6 9 9, rect D 7 7 8 8, rect S 10 10 11 11; \
    lattice 2 2, rect S 6 6 9 9, rect D 7 7 8 8, rect S 10 10 11 11 -> 112 112 112 88 88 88
rect S 0 0 2 1; rect S 0 0 2 3, line S 1 0 1 3; line S 3 3 3 3 -> 8 6 4 2 4 4
line S 3 3 3 3; rect S 0 0 2 3; rect S 0 0 3 1, line S 1 0 1 1 -> 4 8 6 4 2 4";

/// How many edges along an axis are pseudo edges, and how many faces across it are virtual: of
/// those whose numbers are below 64, as all of a grid's are.
fn counted(wire: &Wire, faces: &FaceMap, axis: Axis) -> (u32, u32) {
    let (mut edges, mut virtual_faces) = (0u32, 0u32);
    for place in 0..262_144 {
        let cell = PerAxis {
            x: place % 64,
            y: place / 64 % 64,
            z: place / 4096,
        };
        edges = edges.saturating_add(u32::from(wire.has(axis, cell)));
        virtual_faces = virtual_faces.saturating_add(u32::from(faces.has(axis, cell)));
    }
    (edges, virtual_faces)
}

/// The counts along x, y and z, as a row has them.
fn told_counts(alloc: Global, wire: &Wire, faces: &FaceMap) -> Result<String, Fail> {
    let (x_edges, x_faces) = counted(wire, faces, Axis::X);
    let (y_edges, y_faces) = counted(wire, faces, Axis::Y);
    let (z_edges, z_faces) = counted(wire, faces, Axis::Z);
    Ok(format!(in alloc; "{x_edges} {y_edges} {z_edges} {x_faces} {y_faces} {z_faces}")?)
}

/// The counts of a grid, as a row has them.
fn counts_of(alloc: Global, grid: &Grid) -> Result<String, Fail> {
    let wire = wire_of(alloc, grid)?;
    let faces = faces_of(alloc, grid, &wire)?;
    told_counts(alloc, &wire, &faces)
}

/// The counts of a row's drawing, as the row has them.
fn counts_in(alloc: Global, row: Row<'_>) -> Result<String, Fail> {
    let grid = grid_in(alloc, row)?;
    counts_of(alloc, &grid)
}

#[test]
fn edges_and_faces_are_as_many_as_by_hand(rt: HostRuntime) -> Result<(), Fail> {
    rows_tell(COUNTS, |row| counts_in(rt.alloc(), row))
}
