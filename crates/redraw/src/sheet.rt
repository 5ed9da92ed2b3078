//! The runs of three views, and how far they reach.
//!
//! How far the solid reaches along x and z is where the last upright and the last level run of the
//! front view stand (`proofs/FarEnds.antt`: an outermost full cell draws an outermost edge).

ghost use Rattle.std.specs.Prelude.{◌≡◌, Bool, IfOk};
ghost use Rattle.solid_model.specs.declared.frame.View.{View};
ghost use Rattle.solid_model.specs.Runs.{runs_along};
ghost use Rattle.solid_model.specs.PerView.{of_view};
ghost use Rattle.redraw.specs.GridRuns.{HasDrawing, AreRunsAlong, last_line};

use crate::runs::runs_on;
use solid_model::{Grid, Panels, PerView, Runs, View, ViewLines};
use std::alloc::{AllocError, Global};

/// The line of the last run, which is the farthest one; 0 where there is no run.
pub fn last_line(runs: &Runs) -> i64
    ensures { result ≡ last_line runs.now }
{
    match runs.as_slice().last() {
        Some(run) => run.at,
        None => 0,
    }
}

/// The runs of a view's level, or upright, segments, which have the styles of the panels.
fn runs_along(
    alloc: Global,
    grid: &Grid,
    panels: &Panels,
    view: View,
    upright: bool,
) -> Result<Runs, AllocError>
    requires { HasDrawing grid.now panels.now }
    ensures { IfOk result (AreRunsAlong grid.now panels.now view upright) }
{
    let frame = view.frame();
    let lines = grid.coordinates(frame.across(upright).axis);
    let ends = grid.coordinates(frame.along(upright).axis);
    let styles = panels.view(view).along(upright);
    Ok(Runs::new(runs_on(alloc, lines, ends, styles)?))
}

/// The runs of a view, which has the styles of the panels.
fn view_lines(
    alloc: Global,
    grid: &Grid,
    panels: &Panels,
    view: View,
) -> Result<ViewLines, AllocError>
    requires { HasDrawing grid.now panels.now }
    ensures { IfOk result (λ lines. (upright : Bool)
        → AreRunsAlong grid.now panels.now view upright (runs_along upright lines)) }
{
    Ok(ViewLines {
        level: runs_along(alloc, grid, panels, view, false)?,
        upright: runs_along(alloc, grid, panels, view, true)?,
    })
}

/// The runs of three views, whose segments have the styles of the panels, wherever the solid
/// begins.
pub fn sheet_of(
    alloc: Global,
    grid: &Grid,
    panels: &Panels,
) -> Result<PerView<ViewLines>, AllocError>
    requires { HasDrawing grid.now panels.now }
    ensures { IfOk result (λ sheet. (v : View) (upright : Bool)
        → AreRunsAlong grid.now panels.now v upright (runs_along upright (of_view v sheet))) }
{
    Ok(PerView {
        front: view_lines(alloc, grid, panels, View::Front)?,
        top: view_lines(alloc, grid, panels, View::Top)?,
        side: view_lines(alloc, grid, panels, View::Side)?,
    })
}
