//! What a layer has to show on the grid.

ghost use Rattle.std.specs.Prelude.{◌≡◌, ◌↔◌, ◌≤◌, length, map, slice_index_or, pos, ◌+ℤ◌, ◌<ℤ◌, IsTrue, IfOk, MatchOption};
ghost use Rattle.fit_lanes.specs.Wanted.{AreShownStyles, AreWantedStyles, AreNeverShown, AreWantedBytes, AreNeverDrawn};
ghost use Rattle.lemmas.specs.Lists.{Ascends};
ghost use Rattle.solid_model.specs.Panels.{coordinates_of};
ghost use Rattle.solid_model.specs.Runs.{run_covers, run_style};
ghost use Rattle.six_views.specs.MovedRuns.{moved_run};

use crate::points::{across_of, point_bytes};
use further_views::Layer;
use redraw::runs_on;
use six_views::{are_moved, is_farther, sight_frame, turned_places};
use solid_model::{Grid, Memory, Run, Style, ViewLines};
use std::alloc::Global;

/// The one coordinate is less than the other, so much farther.
fn is_before(own: i64, shown: i64, by: i64) -> bool
    ensures { IsTrue result ↔ (own <ℤ (shown +ℤ by)) }
{
    match own.checked_sub(by) {
        Some(nearer) => nearer < shown,
        None => by > 0,
    }
}

/// A run, moved so far across and along, covers the unit length that begins at a place on a line.
fn moved_covers(run: Run, across: i64, along: i64, line: i64, place: i64) -> bool
    ensures { result ≡ run_covers line place (moved_run across along run) }
{
    if !is_farther(line, run.at, across) {
        return false;
    }
    if is_before(place, run.from, along) {
        return false;
    }
    is_before(place, run.to, along)
}

/// The style of that length by runs that are moved so.
fn moved_style(runs: &[Run], across: i64, along: i64, line: i64, place: i64) -> Style
    ensures { result ≡ run_style (map (moved_run across along) runs.now) line place }
{
    for run in runs {
        if moved_covers(*run, across, along, line, place) {
            return run.style;
        }
    }
    Style::Blank
}

/// The place of this number, 0 where there is none.
fn place_at(places: &[i64], number: usize) -> i64
    ensures { result ≡ slice_index_or places.now number (pos 0) }
{
    match places.get(number) {
        Some(place) => *place,
        None => 0,
    }
}

/// The styles that runs which are moved so give the cells between these ends on these lines, line
/// by line.
fn shown_styles(
    alloc: Global,
    lines: &[i64],
    ends: &[i64],
    shown: &[Run],
    across: i64,
    along: i64,
) -> Result<Vec<Style>, Memory>
    requires lines { length lines.now ≤ 64 }
    requires ends { length ends.now ≤ 64 }
    ensures { IfOk result (λ styles. AreShownStyles lines.now ends.now
        (map (moved_run across along) shown.now) styles.items) }
{
    let width = ends.len().saturating_sub(1);
    let mut styles = Vec::new(alloc);
    for place in 0..lines.len() * width {
        let (line, end) = (lines[place / width], ends[place % width]);
        styles.push(moved_style(shown, across, along, line, end))?;
    }
    Ok(styles)
}

/// The styles of the cells between these ends on these lines of which the runs are the shown ones,
/// moved to the line and the end of these numbers; none where no styles have such runs.
fn wanted_styles(
    alloc: Global,
    lines: &[i64],
    ends: &[i64],
    line: usize,
    end: usize,
    shown: &[Run],
) -> Result<Option<Vec<Style>>, Memory>
    requires lines { Ascends ◌<ℤ◌ lines.now }
    requires ends { Ascends ◌<ℤ◌ ends.now }
    requires few_lines { length lines.now ≤ 64 }
    requires few_ends { length ends.now ≤ 64 }
    ensures { IfOk result (λ wanted. MatchOption wanted
        (AreNeverShown lines.now ends.now line end shown.now)
        (λ styles. AreWantedStyles lines.now ends.now line end shown.now styles.items)) }
{
    let (across, along) = (place_at(lines, line), place_at(ends, end));
    let styles = shown_styles(alloc, lines, ends, shown, across, along)?;
    let runs = runs_on(alloc, lines, ends, &styles)?;
    if are_moved(&runs, shown, across, along) {
        Ok(Some(styles))
    } else {
        Ok(None)
    }
}

/// The bytes of the level, or the upright, segments that a layer has to show, by the points at
/// which they begin, where what is shown begins at the upright and the level line of these numbers;
/// none where no solid on the grid shows it there.
pub fn wanted_bytes(
    alloc: Global,
    grid: &Grid,
    layer: Layer,
    shown: &ViewLines,
    right: usize,
    up: usize,
    upright: bool,
) -> Result<Option<Vec<u8>>, Memory>
    ensures { IfOk result (λ wanted. MatchOption wanted
        (AreNeverDrawn (coordinates_of grid.now) layer shown.now right up upright)
        (λ bytes. AreWantedBytes (coordinates_of grid.now) layer shown.now right up upright
        bytes.items)) }
{
    grid.known();
    let frame = sight_frame(layer);
    let sizes = grid.sizes();
    let (width, height) = (sizes.along(frame.right.axis), sizes.along(frame.up.axis));
    let lines = turned_places(alloc, grid, layer, frame.across(upright).axis)?;
    let ends = turned_places(alloc, grid, layer, frame.along(upright).axis)?;
    let (line, end) = (across_of(upright, right, up), across_of(upright, up, right));
    let shown = shown.along(upright).as_slice();
    match wanted_styles(alloc, &lines, &ends, line, end, shown)? {
        Some(styles) => Ok(Some(point_bytes(alloc, &styles, width, height, upright)?)),
        None => Ok(None),
    }
}
