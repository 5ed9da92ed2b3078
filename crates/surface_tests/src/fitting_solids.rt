//! Solids, and the further views and sections that they fit.

use crate::surfaces::{choice_of, problem_at};
use dxf_entities::entities;
use dxf_groups::Groups;
use fit_lanes::FurtherSieve;
use further_views::{AskedView, Cut, Further, Layer};
use page_calls::Sieve;
use six_views::fits;
use solid_model::{Problem, View, ViewLines};
use std::alloc::Global;
use std::test::Fail;
use test_files::{Row, drawing_file, file_bytes, lines_hold, row_of, rows_tell};
use views::view_of;

/// A row the name of a drawing, the strokes of its left, its rear and its bottom view, nothing where
/// one isn't asked for, and choices; and then which of these fit. The cube has to be solid, and may
/// stand anywhere on the sheet. Of the voids at the rear those that are open are seen. The bar lies
/// along x, with one cell behind its first one and one above that: each of its further views, and
/// all three; each seen from the wrong side; and one of them one cell narrower, and with an edge
/// dashed for solid.
const FURTHER: &str = "\
cube; ; ; rect D 0 0 1 1; 1 -> ;
cube; ; ; rect S 7 7 8 8; 1 -> 1;
cube; ; ; ; 1 0 -> 1 0;
cube; rect S 0 0 1 1; ; ; 1 0 -> 1;
voids; ; rect S 0 0 5 5, rect S 3 1 4 2, rect S 1 3 2 4, rect D 1 1 2 2, rect D 3 3 4 4; ; \
    111111111 110010110 110010010 100010110 100010010 100000000 -> \
    110010110 110010010 100010110 100010010;
bar; line S 0 0 2 0, line S 2 0 2 2, line S 1 2 2 2, line S 1 1 1 2, line S 0 1 1 1, \
    line S 0 0 0 1, line D 1 0 1 1, line D 1 1 2 1; ; ; 1111 -> 1111;
bar; ; line S 0 0 3 0, line S 3 0 3 2, line S 2 2 3 2, line S 2 1 2 2, line S 0 1 2 1, \
    line S 0 0 0 1, line S 2 0 2 1, line S 2 1 3 1; ; 1111 -> 1111;
bar; ; ; line S 0 0 1 0, line S 1 0 1 1, line S 1 1 3 1, line S 3 1 3 2, line S 0 2 3 2, \
    line S 0 0 0 2, line D 1 1 1 2, line D 0 1 1 1; 1111 -> 1111;
bar; line S 0 0 2 0, line S 2 0 2 2, line S 1 2 2 2, line S 1 1 1 2, line S 0 1 1 1, \
    line S 0 0 0 1, line D 1 0 1 1, line D 1 1 2 1; \
    line S 5 0 8 0, line S 8 0 8 2, line S 7 2 8 2, line S 7 1 7 2, line S 5 1 7 1, \
    line S 5 0 5 1, line S 7 0 7 1, line S 7 1 8 1; \
    line S 0 0 1 0, line S 1 0 1 1, line S 1 1 3 1, line S 3 1 3 2, line S 0 2 3 2, \
    line S 0 0 0 2, line D 1 1 1 2, line D 0 1 1 1; 1111 -> 1111;
bar; line S 0 0 2 0, line S 2 0 2 1, line S 1 1 2 1, line S 1 1 1 2, line S 0 2 1 2, \
    line S 0 0 0 2, line D 1 0 1 1, line D 0 1 1 1; ; ; 1111 -> ;
bar; ; line S 0 0 3 0, line S 3 0 3 1, line S 1 1 3 1, line S 1 1 1 2, line S 0 2 1 2, \
    line S 0 0 0 2, line S 1 0 1 1, line S 0 1 1 1; ; 1111 -> ;
bar; ; ; line S 0 0 3 0, line S 3 0 3 1, line S 1 1 3 1, line S 1 1 1 2, line S 0 2 1 2, \
    line S 0 0 0 2, line D 1 0 1 1, line D 0 1 1 1; 1111 -> ;
bar; ; line S 0 0 2 0, line S 2 0 2 2, line S 1 2 2 2, line S 1 1 1 2, line S 0 1 1 1, \
    line S 0 0 0 1, line S 1 0 1 1, line S 1 1 2 1; ; 1111 -> ;
bar; ; line S 0 0 3 0, line S 3 0 3 2, line S 2 2 3 2, line S 2 1 2 2, line S 0 1 2 1, \
    line S 0 0 0 1, line S 2 0 2 1, line D 2 1 3 1; ; 1111 -> ;";

/// A row the name of a drawing, a layer that is cut, its strokes, and choices; and then which of
/// these fit. Through the middle of the quartered cube each way of looking leaves four places; of
/// the bar the part behind a plane shows more than the area that it cuts, which may stand beside
/// what the whole solid shows.
const CUTS: &str = "\
quartered; FRONT 1; rect S 1 0 2 1, rect S 0 1 1 2; 10010110 01101001 10110110 -> 10010110;
quartered; FRONT 1; rect S 0 0 1 1, rect S 1 1 2 2; 10010110 01101001 10110110 -> 01101001;
quartered; FRONT 1; line S 0 0 2 0, line S 2 0 2 1, line S 1 1 2 1, line S 1 1 1 2, \
    line S 0 2 1 2, line S 0 0 0 2; 10010110 01101001 10110110 -> 10110110;
quartered; FRONT 2; rect S 0 0 1 1; 10010110 01101001 10110110 -> ;
quartered; REAR 1; rect S 1 0 2 1, rect S 0 1 1 2; 10010110 01101001 10110110 -> \
    10010110 10110110;
quartered; REAR 1; rect S 0 0 1 1, rect S 1 1 2 2; 10010110 01101001 10110110 -> 01101001;
quartered; TOP 1; rect S 0 0 1 1, rect S 1 1 2 2; 10010110 01101001 10110110 -> 10010110;
quartered; TOP 1; rect S 1 0 2 1, rect S 0 1 1 2; 10010110 01101001 10110110 -> 01101001;
quartered; BOTTOM 1; rect S 5 5 6 6, rect S 6 6 7 7; 10010110 01101001 10110110 -> \
    10010110 10110110;
quartered; BOTTOM 1; rect S 1 0 2 1, rect S 0 1 1 2; 10010110 01101001 10110110 -> 01101001;
quartered; SIDE 1; rect S 0 0 1 1, rect S 1 1 2 2; 10010110 01101001 10110110 -> 10010110;
quartered; SIDE 1; rect S 1 0 2 1, rect S 0 1 1 2; 10010110 01101001 10110110 -> 01101001;
quartered; LEFT 1; rect S 0 0 1 1, rect S 1 1 2 2; 10010110 01101001 10110110 -> \
    10010110 10110110;
quartered; LEFT 1; rect S 1 0 2 1, rect S 0 1 1 2; 10010110 01101001 10110110 -> 01101001;
bar; SIDE 2; line S 0 0 2 0, line S 2 0 2 1, line S 1 1 2 1, line S 1 1 1 2, line S 0 2 1 2, \
    line S 0 0 0 2, line S 1 0 1 1, line S 0 1 1 1; 1111 -> 1111;
bar; SIDE 2; line S 0 0 2 0, line S 2 0 2 1, line S 1 1 2 1, line S 1 1 1 2, line S 0 2 1 2, \
    line S 0 0 0 2; 1111 -> ;
bar; area SIDE 2; rect S 0 0 1 1; 1111 -> 1111;
bar; area SIDE 1; rect S 0 0 1 1; 1111 -> ;
bar; area SIDE 1; line S 0 0 2 0, line S 2 0 2 1, line S 1 1 2 1, line S 1 1 1 2, line S 0 2 1 2, \
    line S 0 0 0 2; 1111 -> 1111;
bar; LEFT 1; rect S 3 3 4 4; 1111 -> 1111;
bar; area LEFT 1; rect S 3 3 4 4; 1111 -> 1111;
bar; area LEFT 1; rect S 3 3 5 4; 1111 -> ;
bar; LEFT 1; rect D 3 3 4 4; 1111 -> ;";

/// What a cube shows in any view.
const CUBE: &str = "rect S 0 0 1 1";

/// The strokes of a drawing in front, from the top and from the side.
fn drawing_named(name: &str) -> [&'static str; 3] {
    match name {
        "cube" => [CUBE, CUBE, CUBE],
        "quartered" => ["rect S 0 0 2 2, line S 0 1 2 1, line S 1 0 1 2"; 3],
        "voids" => [
            "lattice 2 2",
            "rect S 0 0 5 4, rect D 1 1 2 2, rect D 3 1 4 2, rect D 1 3 2 4, rect D 3 3 4 4",
            "rect S 0 0 4 5, rect D 1 1 2 2, rect D 3 1 4 2, rect D 1 3 2 4, rect D 3 3 4 4",
        ],
        _ => [
            "line S 0 0 3 0, line S 3 0 3 1, line S 1 1 3 1, line S 1 1 1 2, line S 0 2 1 2, \
                line S 0 0 0 2, line D 1 0 1 1, line D 0 1 1 1",
            "line S 0 0 3 0, line S 3 0 3 1, line S 1 1 3 1, line S 1 1 1 2, line S 0 2 1 2, \
                line S 0 0 0 2, line S 1 0 1 1, line S 0 1 1 1",
            "line S 0 0 2 0, line S 2 0 2 1, line S 1 1 2 1, line S 1 1 1 2, line S 0 2 1 2, \
                line S 0 0 0 2, line S 1 0 1 1, line S 0 1 1 1",
        ],
    }
}

/// The runs of strokes in front, where there are some.
fn asked(alloc: Global, strokes: &str) -> Result<Option<ViewLines>, Fail> {
    if strokes.is_empty() {
        return Ok(None);
    }
    let file = file_bytes(drawing_file(alloc, [strokes, CUBE, CUBE])?)?;
    let lines = entities(alloc, &mut Groups::new(file), 0)?;
    Ok(view_of(alloc, lines.as_slice(), View::Front)?)
}

/// The view that a layer shows, and whether from the opposite side.
fn side_named(name: &str) -> (View, bool) {
    match name {
        "TOP" => (View::Top, false),
        "SIDE" => (View::Side, false),
        "REAR" => (View::Front, true),
        "BOTTOM" => (View::Top, true),
        "LEFT" => (View::Side, true),
        _ => (View::Front, false),
    }
}

/// The layer of a view that is cut somewhere, or whole.
fn layer_of(name: &str, cut: Option<Cut>) -> Layer {
    let (view, opposite) = side_named(name);
    Layer {
        view,
        opposite,
        cut,
    }
}

/// The layer that is told so: a view, the plane's coordinate, and before them whether it is the area
/// that the plane cuts.
fn cut_named(told: &str) -> Layer {
    let (area, told) = match told.strip_prefix("area ") {
        Some(rest) => (true, rest),
        None => (false, told),
    };
    let (name, at) = told.split_once(' ').unwrap_or((told, ""));
    let at = at.parse::<i64>().unwrap_or(0);
    layer_of(name, Some(Cut { at, area }))
}

/// Adds a layer, where it has strokes.
fn push_asked(
    alloc: Global,
    views: &mut Vec<AskedView>,
    layer: Layer,
    strokes: &str,
) -> Result<(), Fail> {
    if let Some(lines) = asked(alloc, strokes)? {
        views.push(AskedView { layer, lines })?;
    }
    Ok(())
}

/// The further views of a row.
fn further_in(alloc: Global, row: Row<'_>) -> Result<Further, Fail> {
    let [_, left, rear, bottom, _] = row.parts;
    let mut views = Vec::new(alloc);
    push_asked(alloc, &mut views, layer_of("LEFT", None), left)?;
    push_asked(alloc, &mut views, layer_of("REAR", None), rear)?;
    push_asked(alloc, &mut views, layer_of("BOTTOM", None), bottom)?;
    Ok(Further::new(views))
}

/// The section of a row.
fn section_in(alloc: Global, row: Row<'_>) -> Result<Further, Fail> {
    let [_, layer, strokes, ..] = row.parts;
    let mut views = Vec::new(alloc);
    push_asked(alloc, &mut views, cut_named(layer), strokes)?;
    Ok(Further::new(views))
}

/// Whether a choice that is told so fits.
fn choice_fits(
    alloc: Global,
    problem: &Problem,
    further: &Further,
    told: &str,
) -> Result<bool, Fail> {
    let choice = choice_of(alloc, told)?;
    Ok(fits(alloc, problem, further, &choice)?)
}

/// Those of the choices that fit, as a row has them.
fn fitting(
    alloc: Global,
    problem: &Problem,
    further: &Further,
    choices: &str,
) -> Result<String, Fail> {
    let mut told = String::new(alloc);
    for choice in choices.split(' ') {
        if choice_fits(alloc, problem, further, choice)? {
            told.push_str(" ")?;
            told.push_str(choice)?;
        }
    }
    told.push_str(";")?;
    Ok(told)
}

/// Those of a row's choices that fit its further views, as the row has them.
fn fitting_in(alloc: Global, row: Row<'_>) -> Result<String, Fail> {
    let problem = problem_at(alloc, drawing_named(row.parts[0]))?;
    let further = further_in(alloc, row)?;
    fitting(alloc, &problem, &further, row.parts[4])
}

/// The same of its section.
fn left_in(alloc: Global, row: Row<'_>) -> Result<String, Fail> {
    let problem = problem_at(alloc, drawing_named(row.parts[0]))?;
    let section = section_in(alloc, row)?;
    fitting(alloc, &problem, &section, row.parts[3])
}

/// Whether a choice that is told so passes a sieve.
fn passes(alloc: Global, sieve: &mut FurtherSieve<'_>, told: &str) -> Result<bool, Fail> {
    let choice = choice_of(alloc, told)?;
    Ok(sieve.fits(alloc, &choice)?)
}

/// Whether a sieve says of each of the choices what is said by runs.
fn agrees_on(
    alloc: Global,
    problem: &Problem,
    further: &Further,
    sieve: &mut FurtherSieve<'_>,
    choices: &str,
) -> Result<bool, Fail> {
    for told in choices.split(' ') {
        if passes(alloc, sieve, told)? != choice_fits(alloc, problem, further, told)? {
            return Ok(false);
        }
    }
    Ok(true)
}

/// The same of the sieve of further views.
fn all_agree(
    alloc: Global,
    problem: &Problem,
    further: &Further,
    choices: &str,
) -> Result<bool, Fail> {
    let mut sieve = FurtherSieve::of(alloc, problem, further)?;
    agrees_on(alloc, problem, further, &mut sieve, choices)
}

/// The same of the further views and the choices of a row.
fn all_agree_in(alloc: Global, row: Row<'_>) -> Result<bool, Fail> {
    let problem = problem_at(alloc, drawing_named(row.parts[0]))?;
    let further = further_in(alloc, row)?;
    all_agree(alloc, &problem, &further, row.parts[4])
}

/// The same of its section.
fn cuts_agree_in(alloc: Global, row: Row<'_>) -> Result<bool, Fail> {
    let problem = problem_at(alloc, drawing_named(row.parts[0]))?;
    let section = section_in(alloc, row)?;
    all_agree(alloc, &problem, &section, row.parts[3])
}

#[test]
fn solids_fit_their_further_views_alone(rt: HostRuntime) -> Result<(), Fail> {
    rows_tell(FURTHER, |row| fitting_in(rt.alloc(), row))
}

#[test]
fn lanes_tell_what_runs_do(rt: HostRuntime) -> Result<(), Fail> {
    lines_hold(FURTHER, |line| all_agree_in(rt.alloc(), row_of(line)))
}

#[test]
fn solids_fit_their_sections_alone(rt: HostRuntime) -> Result<(), Fail> {
    rows_tell(CUTS, |row| left_in(rt.alloc(), row))
}

#[test]
fn lanes_tell_sections_as_runs_do(rt: HostRuntime) -> Result<(), Fail> {
    lines_hold(CUTS, |line| cuts_agree_in(rt.alloc(), row_of(line)))
}
