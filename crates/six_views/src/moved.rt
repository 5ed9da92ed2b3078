//! Runs that are others, moved.

ghost use Rattle.std.specs.Prelude.{◌≡◌, ◌↔◌, Bool, IsTrue, map, ◌+ℤ◌};
ghost use Rattle.solid_model.specs.Runs.{AreRuns, runs_along};
ghost use Rattle.six_views.specs.MovedRuns.{first_line, moved_run, AreMovedRuns};

use solid_model::{Run, Style, ViewLines};

/// The line of the first run, which is the least one.
pub fn first_line(runs: &[Run]) -> Option<i64>
    ensures { result ≡ first_line runs.now }
{
    match runs.first() {
        Some(run) => Some(run.at),
        None => None,
    }
}

/// The one coordinate stands so much farther than the other.
pub fn is_farther(own: i64, shown: i64, by: i64) -> bool
    ensures { IsTrue result ↔ (own ≡ shown +ℤ by) }
{
    match own.checked_sub(by) {
        Some(nearer) => nearer == shown,
        None => false,
    }
}

/// Both are the same style.
fn same_style(style: Style, other: Style) -> bool
    ensures { IsTrue result ↔ (style ≡ other) }
{
    style == other
}

/// The one run is the other, so much farther across and along.
fn is_moved(own: Run, shown: Run, across: i64, along: i64) -> bool
    ensures { IsTrue result ↔ (own ≡ moved_run across along shown) }
{
    if !is_farther(own.at, shown.at, across) {
        return false;
    }
    if !is_farther(own.from, shown.from, along) {
        return false;
    }
    if !is_farther(own.to, shown.to, along) {
        return false;
    }
    same_style(own.style, shown.style)
}

/// The ones are the others, so much farther across and along.
pub fn are_moved(own: &[Run], shown: &[Run], across: i64, along: i64) -> bool
    ensures { IsTrue result ↔ (own.now ≡ map (moved_run across along) shown.now) }
{
    if own.len() != shown.len() {
        return false;
    }
    for (place, run) in own.iter().enumerate() {
        if !is_moved(*run, shown[place], across, along) {
            return false;
        }
    }
    true
}

/// The runs of a view are the others, so much farther to the right and upwards.
pub fn views_are_moved(own: &ViewLines, shown: &ViewLines, right: i64, up: i64) -> bool
    ensures moved { IsTrue result ↔ AreMovedRuns right up shown.now own.now }
    ensures kept { (upright : Bool) → AreRuns (runs_along upright shown.now) }
{
    let level = shown.level.as_slice();
    let upright = shown.upright.as_slice();
    if !are_moved(own.level.as_slice(), level, up, right) {
        return false;
    }
    are_moved(own.upright.as_slice(), upright, right, up)
}
