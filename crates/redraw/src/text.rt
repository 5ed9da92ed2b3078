//! Lines as the text of a DXF file (the ASCII form of the Autodesk DXF Reference).

ghost use Rattle.std.specs.Prelude.{◌≡◌, ◌≤◌, ◌++◌, ◌+ℤ◌, codes, OnOk};
ghost use Rattle.std.specs.List.{flat_map};
ghost use Rattle.decimal_texts.specs.Decimals.{decimal_text};
ghost use Rattle.solid_model.specs.Limits.{farthest_in_view, most_decimals};
ghost use Rattle.lemmas.specs.Lists.{Each};
ghost use Rattle.solid_model.specs.Segments.{along_of, across_of};
ghost use Rattle.redraw.specs.Files.{run_line, view_lines};
ghost use Rattle.redraw.specs.GridRuns.{IsNearRun, IsUpTo, IsNearPlace, runs_text};
ghost use Rattle.redraw.specs.Plain.{pair_text, linetype_name, line_text};

use decimal_texts::push_decimal;
use solid_model::{Memory, Run, Style, View, ViewLines};

/// Where a view stands on the sheet: how far to the right, and how far upwards.
#[derive(Clone, Copy)]
pub struct Place {
    pub view: View,
    pub right: i64,
    pub up: i64,
}

/// Adds a group code and its value, each on a line of its own.
pub fn push_pair(text: &mut Vec<u8>, code: &str, value: &str) -> Result<(), Memory>
    ensures { OnOk result (text.new.items ≡ text.old.items ++ pair_text code.now value.now) }
{
    text.extend_from_slice(code.as_bytes())?;
    text.extend_from_slice(b"\n")?;
    text.extend_from_slice(value.as_bytes())?;
    text.extend_from_slice(b"\n")?;
    Ok(())
}

/// Adds a group code and a number with so many decimals.
fn push_coordinate(text: &mut Vec<u8>, code: &str, number: i64, decimals: u8) -> Result<(), Memory>
    requires { decimals ≤ most_decimals }
    ensures { OnOk result (text.new.items
        ≡ text.old.items ++ pair_text code.now (decimal_text decimals number)) }
{
    text.extend_from_slice(code.as_bytes())?;
    text.extend_from_slice(b"\n")?;
    push_decimal(text, number, decimals)?;
    text.extend_from_slice(b"\n")?;
    Ok(())
}

/// The linetype of a style; nothing blank is written.
fn linetype(style: Style) -> &'static str
    ensures { result.now ≡ linetype_name style }
{
    match style {
        Style::Blank => "",
        Style::Dashed => "HIDDEN",
        Style::Solid => "CONTINUOUS",
    }
}

/// The point of the sheet that stands on a line of a view's level, or upright, segments at a place
/// along it.
fn point(place: Place, upright: bool, at: i64, along: i64) -> (i64, i64)
    requires at { IsUpTo farthest_in_view at }
    requires along { IsUpTo farthest_in_view along }
    requires place { IsNearPlace place }
    ensures x { result.0 ≡ across_of upright at along +ℤ place.right }
    ensures y { result.1 ≡ along_of upright at along +ℤ place.up }
{
    if upright {
        (at + place.right, along + place.up)
    } else {
        (along + place.right, at + place.up)
    }
}

/// Adds a point of the sheet, at height 0: a group code and the value of each coordinate.
fn push_point(
    text: &mut Vec<u8>,
    x_code: &str,
    y_code: &str,
    z_code: &str,
    point: (i64, i64),
    decimals: u8,
) -> Result<(), Memory>
    requires { decimals ≤ most_decimals }
    ensures { OnOk result (text.new.items ≡ text.old.items
        ++ (pair_text x_code.now (decimal_text decimals point.0)
        ++ pair_text y_code.now (decimal_text decimals point.1)
        ++ pair_text z_code.now (codes "0"))) }
{
    push_coordinate(text, x_code, point.0, decimals)?;
    push_coordinate(text, y_code, point.1, decimals)?;
    push_pair(text, z_code, "0")?;
    Ok(())
}

/// Adds a run of a view's level, or upright, segments as a line, from its lesser end to its greater
/// one.
fn push_run(
    text: &mut Vec<u8>,
    place: Place,
    upright: bool,
    run: &Run,
    decimals: u8,
) -> Result<(), Memory>
    requires run { IsNearRun run.now }
    requires place { IsNearPlace place }
    requires decimals { decimals ≤ most_decimals }
    ensures { OnOk result (text.new.items ≡ text.old.items
        ++ line_text decimals (run_line place.view upright place.right place.up run.now)) }
{
    let from = point(place, upright, run.at, run.from);
    let to = point(place, upright, run.at, run.to);
    push_pair(text, "0", "LINE")?;
    push_pair(text, "8", place.view.layer())?;
    push_pair(text, "6", linetype(run.style))?;
    push_point(text, "10", "20", "30", from, decimals)?;
    push_point(text, "11", "21", "31", to, decimals)?;
    Ok(())
}

/// Adds a line for each run.
fn push_runs(
    text: &mut Vec<u8>,
    place: Place,
    upright: bool,
    runs: &[Run],
    decimals: u8,
) -> Result<(), Memory>
    requires runs { Each IsNearRun runs.now }
    requires place { IsNearPlace place }
    requires decimals { decimals ≤ most_decimals }
    ensures { OnOk result (text.new.items ≡ text.old.items
        ++ runs_text decimals place.view upright place.right place.up runs.now) }
{
    for run in runs {
        push_run(text, place, upright, run, decimals)?;
    }
    Ok(())
}

/// Adds the lines of a view, the level ones first. Their coordinates have so many decimals.
pub fn push_view(
    text: &mut Vec<u8>,
    place: Place,
    lines: &ViewLines,
    decimals: u8,
) -> Result<(), Memory>
    requires level { Each IsNearRun lines.now.level }
    requires upright { Each IsNearRun lines.now.upright }
    requires place { IsNearPlace place }
    requires decimals { decimals ≤ most_decimals }
    ensures { OnOk result (text.new.items ≡ text.old.items
        ++ flat_map (line_text decimals) (view_lines place.view place.right place.up lines.now)) }
{
    push_runs(text, place, false, lines.level.as_slice(), decimals)?;
    push_runs(text, place, true, lines.upright.as_slice(), decimals)
}
