//! The styles of a grid's segments.

ghost use Rattle.std.specs.Prelude.{◌≡◌, ◌≤◌, ◌++◌, Bool, true, false, length, map, IfOk};
ghost use Rattle.std.specs.List.{flat_map};
ghost use Rattle.std.specs.List.Sorted.{IsPartitionPoint};
ghost use Rattle.solid_model.specs.Panels.{styles_along, grid_styles, AreGridStyles};
ghost use Rattle.solid_model.specs.Runs.{AreRuns, run_covers, run_style, style_in};
ghost use Rattle.grid.specs.AxisCoordinates.{coordinates_in};
ghost use Rattle.grid.specs.Positions.{begins_by};

use crate::coordinates::Coordinates;
use solid_model::{Drawing, Panel, Panels, PerView, Run, Runs, Style, View};
use std::alloc::{AllocError, Global};

/// The run lies on an earlier line, or begins no later than the place on this one.
fn begins_by(run: &Run, line: i64, place: i64) -> bool
    ensures { result ≡ begins_by line place run.now }
{
    (run.at, run.from) <= (line, place)
}

/// The run covers the unit length that begins at the place on a line.
fn covers(run: &Run, line: i64, place: i64) -> bool
    ensures { result ≡ run_covers line place run.now }
{
    run.at == line && run.from <= place && place < run.to
}

/// How many runs begin by the place on a line: these are the first ones.
fn begun_by(runs: &[Run], line: i64, place: i64) -> usize
    requires { AreRuns runs.now }
    ensures bound { result ≤ length runs.now }
    ensures parted { IsPartitionPoint
        (λ r. begins_by line place r ≡ true) (λ r. begins_by line place r ≡ false) runs.now result }
{
    runs.partition_point(|run| begins_by(run, line, place))
}

/// The style of the unit length that begins at the place on a line. Of the runs that begin by then
/// only the last one may cover it.
fn style_at(runs: &[Run], line: i64, place: i64) -> Style
    requires { AreRuns runs.now }
    ensures { result ≡ run_style runs.now line place }
{
    match runs[..begun_by(runs, line, place)].last() {
        Some(run) if covers(run, line, place) => run.style,
        _ => Style::Blank,
    }
}

/// The styles, and those of the unit lengths that begin at these places on a line.
fn with_line(
    mut styles: Vec<Style>,
    runs: &[Run],
    line: i64,
    starts: &[i64],
) -> Result<Vec<Style>, AllocError>
    requires { AreRuns runs.now }
    ensures { IfOk result (λ more.
        more.items ≡ styles.items ++ map (run_style runs.now line) starts.now) }
{
    for start in starts {
        styles.push(style_at(runs, line, *start))?;
    }
    Ok(styles)
}

/// The styles of the unit lengths that begin at these places, line by line.
fn styles_on(
    alloc: Global,
    runs: &Runs,
    lines: &[i64],
    starts: &[i64],
) -> Result<Vec<Style>, AllocError>
    ensures { IfOk result (λ styles.
        styles.items ≡ flat_map (λ line. map (run_style runs.now line) starts.now) lines.now) }
{
    let mut styles = Vec::new(alloc);
    for line in lines {
        styles = with_line(styles, runs.as_slice(), *line, starts)?;
    }
    Ok(styles)
}

/// The styles of a view's level, or its upright, grid segments.
fn segment_styles(
    alloc: Global,
    drawing: &Drawing,
    coordinates: &Coordinates,
    view: View,
    upright: bool,
) -> Result<Vec<Style>, AllocError>
    ensures { IfOk result (λ styles.
        styles.items
        ≡ grid_styles (style_in drawing.now) (coordinates_in coordinates.now) view upright) }
{
    let frame = view.frame();
    let lines = coordinates.along(frame.across(upright).axis);
    let ends = coordinates.along(frame.along(upright).axis);
    let starts = &ends[..ends.len().saturating_sub(1)];
    styles_on(alloc, drawing.view(view).along(upright), lines, starts)
}

/// The styles of a view's grid segments.
fn panel_of(
    alloc: Global,
    drawing: &Drawing,
    coordinates: &Coordinates,
    view: View,
) -> Result<Panel, AllocError>
    ensures { IfOk result (λ panel. (upright : Bool) → styles_along upright panel
        ≡ grid_styles (style_in drawing.now) (coordinates_in coordinates.now) view upright) }
{
    Ok(Panel {
        level: segment_styles(alloc, drawing, coordinates, view, false)?,
        upright: segment_styles(alloc, drawing, coordinates, view, true)?,
    })
}

/// The styles of the grid segments of the three views.
pub fn panels_of(
    alloc: Global,
    drawing: &Drawing,
    coordinates: &Coordinates,
) -> Result<Panels, AllocError>
    ensures { IfOk result (AreGridStyles (style_in drawing.now) (coordinates_in coordinates.now)) }
{
    Ok(PerView {
        front: panel_of(alloc, drawing, coordinates, View::Front)?,
        top: panel_of(alloc, drawing, coordinates, View::Top)?,
        side: panel_of(alloc, drawing, coordinates, View::Side)?,
    })
}
