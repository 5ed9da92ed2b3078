//! Runs that were found by hand.

use crate::grids::lines_in;
use solid_model::{Run, Style, View, ViewLines};
use std::alloc::Global;
use std::test::Fail;
use test_files::{Row, rows_tell};
use views::drawing;

/// What it is, the strokes of each view, and the runs that it has then. Each is told by its style,
/// its kind, where it lies across, and where it begins and ends along.
const SHEETS: &str = "\
one side in pieces that overlap, dashed in between; \
    line S 0 0 6 0, line S 4 0 10 0, line D 2 0 9 0 -> solid level 0 0 10
dashed on both sides of a solid piece; \
    line D 5 2 14 2, line S 8 2 10 2 -> \
    dashed level 0 0 3, solid level 0 3 5, dashed level 0 5 9
a line that runs back; \
    line S 3 8 3 2 -> solid upright 0 0 6
a line three times, once turned round; \
    line D -4 1 -1 1, line D -1 1 -4 1, line D -4 1 -1 1 -> dashed level 0 0 3
lines of no length, farther out than the others; \
    line S -9 -9 -9 -9, line S 2 1 5 1, line D 3 1 3 1 -> solid level 0 0 3
the greatest square; \
    line S -1000000000 -1000000000 1000000000 -1000000000, \
    line D 1000000000 1000000000 -1000000000 1000000000, \
    line D -1000000000 -1000000000 -1000000000 1000000000, \
    line S 1000000000 -1000000000 1000000000 1000000000 -> \
    solid level 0 0 2000000000, dashed level 2000000000 0 2000000000, \
    dashed upright 0 0 2000000000, solid upright 2000000000 0 2000000000
lines that touch end to end, the later one first; \
    line S 0 4 0 9, line S 0 0 0 4 -> solid upright 0 0 9
a solid and a dashed line that touch; \
    line S 0 0 4 0, line D 4 0 9 0 -> solid level 0 0 4, dashed level 0 4 9
neighbouring lines, and a gap; \
    line S 6 1 3 1, line S 0 0 2 0, line S 3 0 4 0 -> \
    solid level 0 0 2, solid level 0 3 4, solid level 1 3 6
a solid line that ends inside a longer dashed one, and a cross; \
    line D 1 0 1 7, line S 1 0 1 3, line S 0 2 5 2 -> \
    solid level 2 0 5, solid upright 1 0 3, dashed upright 1 3 7";

/// The name of a style.
fn style_name(style: Style) -> &'static str {
    match style {
        Style::Solid => "solid",
        Style::Dashed => "dashed",
        Style::Blank => "blank",
    }
}

/// Adds a run, behind those before it.
fn push_run(text: &mut String, kind: &str, run: &Run) -> Result<(), Fail> {
    let comma = if text.is_empty() { "" } else { ", " };
    let Run {
        at,
        style,
        from,
        to,
    } = *run;
    Ok(write!(text, "{comma}{} {kind} {at} {from} {to}", style_name(style))?)
}

/// Adds runs, one after another.
fn push_runs(text: &mut String, kind: &str, runs: &[Run]) -> Result<(), Fail> {
    for run in runs {
        push_run(text, kind, run)?;
    }
    Ok(())
}

/// The text of a view's runs.
fn told_view(alloc: Global, view: &ViewLines) -> Result<String, Fail> {
    let mut text = String::new(alloc);
    push_runs(&mut text, "level", view.along(false).as_slice())?;
    push_runs(&mut text, "upright", view.along(true).as_slice())?;
    Ok(text)
}

/// The runs of the top view, where all views have a row's strokes, as the row has them.
fn told_runs(alloc: Global, row: Row<'_>) -> Result<String, Fail> {
    let [_, strokes, ..] = row.parts;
    let lines = lines_in(alloc, [strokes; 3])?;
    let drawn = drawing(alloc, lines.as_slice())?;
    told_view(alloc, drawn.view(View::Top))
}

#[test]
fn views_have_the_runs_found_by_hand(rt: HostRuntime) -> Result<(), Fail> {
    rows_tell(SHEETS, |row| told_runs(rt.alloc(), row))
}
