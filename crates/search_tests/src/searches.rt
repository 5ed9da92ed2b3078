//! Searches of problems, within limits and piece by piece.

use crate::trees::{push_choices, push_prefix, push_prefixes};
use dxf_entities::{LayerSet, ReadingForm};
use file_problem::problem_with_rest;
use search_core::{Desk, Reported};
use search_end::{Handed, begin, finish};
use search_run::NoPages;
use search_tree::{expand, solve_alone};
use solid_model::{EndKind, Ended, Expansion, Limits, Prefix, Problem};
use std::alloc::Global;
use std::sync::Arc;
use std::test::Fail;
use test_files::{Row, drawing_file, file_bytes, lines_hold, row_of, rows_tell};

/// The hollow cube.
const HOLLOW_CUBE: [&str; 3] = ["rect S 0 0 3 3, rect D 1 1 2 2"; 3];

/// The problem of a drawing by its strokes in front, from the top and from the side, of which one may
/// show nothing.
pub fn problem(alloc: Global, views: [&str; 3]) -> Result<Arc<Problem>, Fail> {
    let file = file_bytes(drawing_file(alloc, views)?)?;
    let form = ReadingForm::new(LayerSet::Main, 0);
    let (problem, _, _) = problem_with_rest(alloc, file, form, true)?;
    Ok(Arc::new(alloc, problem)?)
}

/// Limits that may be asked for.
pub fn limits(nodes: &str, solids: &str) -> Result<Limits, Fail> {
    let nodes: u64 = nodes.parse().unwrap_or(0);
    let solids: u32 = solids.parse().unwrap_or(0);
    if nodes < 1 || nodes > 4_000_000 || solids < 1 || solids > 65_536 {
        return Err(Fail::new("limits"));
    }
    Ok(Limits { nodes, solids })
}

/// A row a drawing, by its strokes in front, from the top and from the side; limits of nodes and of
/// solids; and how the search ends: its kind, how many live prefixes it opened, and how many solids
/// it found. The last rows are the quartered cube without each of its views, all of whose 256 sets
/// of cells were tried, and a step without the view that alone shows which half of it is high.
const ENDS: &str = "\
rect S 0 0 3 3, rect D 1 1 2 2; rect S 0 0 3 3, rect D 1 1 2 2; rect S 0 0 3 3, rect D 1 1 2 2; \
    3; 1 -> whole 3 1
rect S 0 0 3 3, rect D 1 1 2 2; rect S 0 0 3 3, rect D 1 1 2 2; rect S 0 0 3 3, rect D 1 1 2 2; \
    2; 1 -> nodes 3 0
lattice 2 2; lattice 2 2; lattice 2 2; 109; 35 -> whole 109 35
lattice 2 2; lattice 2 2; lattice 2 2; 108; 35 -> nodes 109 34
lattice 2 2; lattice 2 2; lattice 2 2; 109; 34 -> solids 109 34
lattice 15 21; lattice 15 13; lattice 13 21; 1; 4096 -> nodes 2 0
line S 3 3 3 3; rect S 0 0 2 2, line S 0 1 2 1, line S 1 0 1 2; \
    rect S 0 0 2 2, line S 0 1 2 1, line S 1 0 1 2; 30; 4 -> whole 30 4
rect S 0 0 2 2, line S 0 1 2 1, line S 1 0 1 2; line S 3 3 3 3; \
    rect S 0 0 2 2, line S 0 1 2 1, line S 1 0 1 2; 25; 4 -> whole 25 4
rect S 0 0 2 2, line S 0 1 2 1, line S 1 0 1 2; rect S 0 0 2 2, line S 0 1 2 1, line S 1 0 1 2; \
    line S 3 3 3 3; 28; 4 -> whole 28 4
rect S 0 0 3 2, line S 0 1 3 1; rect S 0 0 3 2, line S 0 1 3 1; line S 3 3 3 3; \
    12; 3 -> whole 12 3";

/// How a search ended, as a row has it.
fn told_end(alloc: Global, ended: &Ended) -> Result<String, Fail> {
    let kind = match ended.kind {
        EndKind::Whole => "whole",
        EndKind::CutNodes => "nodes",
        EndKind::CutSolids => "solids",
    };
    Ok(format!(in alloc; "{kind} {} {}", ended.opened, ended.solids.len())?)
}

/// The kind of an end, and of a whole search all that is told: how many prefixes a cut search
/// opens, and which solids it finds, depends on how it goes.
fn wanted_kind(wanted: &str) -> &str {
    match wanted.split_once(' ') {
        Some((kind, _)) if kind != "whole" => kind,
        _ => wanted,
    }
}

/// How a search alone ends.
fn told_alone(alloc: Global, problem: &Arc<Problem>, limits: Limits) -> Result<String, Fail> {
    let ended = solve_alone(alloc, problem, limits)?;
    told_end(alloc, &ended)
}

/// The search of a problem by a desk, at which the caller works alone.
pub fn search_by_desk(
    alloc: Global,
    problem: &Arc<Problem>,
    limits: Limits,
) -> Result<Ended, Fail> {
    let desk = begin(alloc, problem, limits)?;
    let handed = Handed::new(alloc);
    match finish(alloc, problem, limits, desk, &[], handed, &mut NoPages) {
        Ok((ended, _desk)) => Ok(ended),
        Err(_) => Err(Fail::new("no answer")),
    }
}

/// How a search by a desk ends.
fn told_by_desk(alloc: Global, problem: &Arc<Problem>, limits: Limits) -> Result<String, Fail> {
    let ended = search_by_desk(alloc, problem, limits)?;
    told_end(alloc, &ended)
}

/// Whether the searches of a problem, alone and by a desk, end as a row has it.
fn both_end_so(
    alloc: Global,
    problem: &Arc<Problem>,
    limits: Limits,
    wanted: &str,
) -> Result<bool, Fail> {
    let alone = told_alone(alloc, problem, limits)?;
    let by_desk = told_by_desk(alloc, problem, limits)?;
    Ok(alone.as_str() == wanted && by_desk.starts_with(wanted_kind(wanted)))
}

/// Whether the searches of a row's drawing end as the row has it.
fn end_so(alloc: Global, row: Row<'_>) -> Result<bool, Fail> {
    let [_, _, _, nodes, solids] = row.parts;
    let limits = limits(nodes, solids)?;
    let problem = problem(alloc, row.views())?;
    both_end_so(alloc, &problem, limits, row.wanted)
}

#[test]
fn searches_end_so(rt: HostRuntime) -> Result<(), Fail> {
    lines_hold(ENDS, |line| end_so(rt.alloc(), row_of(line)))
}

/// A prefix, by its values as 1 and 0.
fn prefix_of(alloc: Global, values: &str) -> Result<Prefix, Fail> {
    let mut full = Vec::new(alloc);
    for value in values.bytes() {
        full.push(value == b'1')?;
    }
    Ok(Prefix::from_bools(alloc, full.as_slice())?)
}

/// The expansion of a piece with a quantum; nothing of a piece that isn't live.
fn expansion(
    alloc: Global,
    problem: &Arc<Problem>,
    piece: &str,
    quantum: &str,
) -> Result<Option<Expansion>, Fail> {
    let quantum = quantum.parse().unwrap_or(0);
    if quantum < 1 {
        return Err(Fail::from("a quantum"));
    }
    Ok(expand(alloc, problem, &prefix_of(alloc, piece)?, quantum)?)
}

/// A row an expansion of a piece of the hollow cube: the piece and the quantum; and how many live
/// prefixes it opens, what it finds and leaves, or that the piece isn't live.
const EXPANSIONS: &str = "\
; 64 -> 3 found 10 rest
; 1 -> 1 found rest 1
1; 1 -> 1 found rest 10
0; 64 -> none
100; 64 -> none";

/// What an expansion opens, finds and leaves.
fn told_parts(alloc: Global, expansion: &Expansion) -> Result<String, Fail> {
    let mut text = format!(in alloc; "{} found", expansion.opened())?;
    push_choices(&mut text, expansion.found())?;
    text.push_str(" rest")?;
    push_prefixes(&mut text, expansion.rest())?;
    Ok(text)
}

/// The expansion of a piece of the hollow cube.
fn hollow_expansion(alloc: Global, piece: &str, quantum: &str) -> Result<Option<Expansion>, Fail> {
    let problem = problem(alloc, HOLLOW_CUBE)?;
    expansion(alloc, &problem, piece, quantum)
}

/// The expansion of a row's piece, as the row has it.
fn told_expansion(alloc: Global, row: Row<'_>) -> Result<String, Fail> {
    let [piece, quantum, ..] = row.parts;
    match hollow_expansion(alloc, piece, quantum)? {
        Some(expansion) => told_parts(alloc, &expansion),
        None => Ok(String::from_str(alloc, "none")?),
    }
}

#[test]
fn pieces_expand_so(rt: HostRuntime) -> Result<(), Fail> {
    rows_tell(EXPANSIONS, |row| told_expansion(rt.alloc(), row))
}

/// A row a desk of the hollow cube, or of the cube with eight voids: for each report to it the
/// problem, the piece (`-` for the empty one) and the quantum with which it was expanded; and what
/// the desk says to it, and how it stands then: how many prefixes are opened, how many choices are
/// found, the piece that is next, and the end. In the last row the pieces that were told first come
/// first.
const REPORTS: &str = "\
hollow - 64; hollow - 64 -> taken, 3 opened, 1 found, nothing, Some(Whole); \
    stop, 3 opened, 1 found, nothing, Some(Whole)
hollow - 1; hollow - 1; unit - 64 -> taken 1, 1 opened, 0 found, 1, None; \
    gone, 1 opened, 0 found, 1, None; stranger, 1 opened, 0 found, 1, None
voids - 1; voids 1 1; voids 10 1; voids 11 1; voids 11 1 -> taken 1, 1 opened, 0 found, 1, None; \
    taken 11 10, 2 opened, 0 found, 11, None; taken 101 100, 3 opened, 0 found, 11, None; \
    taken 110, 4 opened, 0 found, 101, None; gone, 4 opened, 0 found, 101, None";

/// Adds that a report is taken, and its rest.
fn push_taken(text: &mut String, rest: &[Prefix]) -> Result<(), Fail> {
    text.push_str("taken")?;
    push_prefixes(text, rest)
}

/// Adds what a desk says to a report.
fn push_said(text: &mut String, desk: &mut Desk, report: Expansion) -> Result<(), Fail> {
    match desk.report(report) {
        Ok(Reported::Taken { rest }) => push_taken(text, rest.as_slice()),
        Ok(Reported::Stranger) => Ok(text.push_str("stranger")?),
        Ok(Reported::Stop) => Ok(text.push_str("stop")?),
        Ok(Reported::Gone) => Ok(text.push_str("gone")?),
        Err(_) => Err(Fail::from("out of memory")),
    }
}

/// Adds the piece that is next.
fn push_next(text: &mut String, desk: &Desk) -> Result<(), Fail> {
    match desk.first_piece() {
        Some(piece) => push_prefix(text, piece),
        None => Ok(text.push_str(" nothing")?),
    }
}

/// Adds how a desk stands.
fn push_standing(text: &mut String, desk: &Desk) -> Result<(), Fail> {
    let (opened, found) = (desk.opened(), desk.found().len());
    write!(text, ", {opened} opened, {found} found,")?;
    push_next(text, desk)?;
    Ok(write!(text, ", {:?}", desk.end())?)
}

/// The drawing of that name.
fn views_named(name: &str) -> [&'static str; 3] {
    match name {
        "hollow" => HOLLOW_CUBE,
        "voids" => ["lattice 2 2"; 3],
        _ => ["rect S 0 0 1 1"; 3],
    }
}

/// A report as it is told: by the name of its problem, its piece and its quantum.
#[derive(Clone, Copy)]
struct ToldReport<'a> {
    name: &'a str,
    piece: &'a str,
    quantum: &'a str,
}

/// The report that is told so.
fn report_of(told: &str) -> ToldReport<'_> {
    let mut words = told.split(' ');
    ToldReport {
        name: words.next().unwrap_or(""),
        piece: words.next().unwrap_or(""),
        quantum: words.next().unwrap_or(""),
    }
}

/// The expansion of a piece of another problem, by its name.
fn strange_expansion(
    alloc: Global,
    name: &str,
    piece: &str,
    quantum: &str,
) -> Result<Option<Expansion>, Fail> {
    let problem = problem(alloc, views_named(name))?;
    expansion(alloc, &problem, piece, quantum)
}

/// What is reported: of the desk's own problem where it has the name of that.
fn reported(
    alloc: Global,
    own: &Arc<Problem>,
    name: &str,
    told: ToldReport<'_>,
) -> Result<Expansion, Fail> {
    let piece = if told.piece == "-" { "" } else { told.piece };
    let found = if told.name == name {
        expansion(alloc, own, piece, told.quantum)
    } else {
        strange_expansion(alloc, told.name, piece, told.quantum)
    };
    Ok(found?.ok_or("a report")?)
}

/// What may be handed to another thread.
fn sent<T: Send>(value: T) -> T {
    value
}

/// A desk of a search of a problem, which begins.
fn desk_of(alloc: Global, own: &Arc<Problem>) -> Result<Desk, Fail> {
    Ok(sent(begin(alloc, own, limits("10", "10")?)?))
}

/// Adds what a desk says to the report that is told so, and how it stands then.
fn push_report(
    text: &mut String,
    desk: &mut Desk,
    own: &Arc<Problem>,
    name: &str,
    told: &str,
) -> Result<(), Fail> {
    let report = reported(*text.allocator(), own, name, report_of(told))?;
    text.push_str(if text.is_empty() { "" } else { "; " })?;
    push_said(text, desk, report)?;
    push_standing(text, desk)
}

/// Adds what a desk says to the reports that are told so.
pub fn push_reports(
    text: &mut String,
    desk: &mut Desk,
    own: &Arc<Problem>,
    name: &str,
    told: &str,
) -> Result<(), Fail> {
    for told in told.split("; ") {
        push_report(text, desk, own, name, told)?;
    }
    Ok(())
}

/// What a desk of this problem says to the reports that are told so.
fn told_reports(alloc: Global, own: &Arc<Problem>, name: &str, told: &str) -> Result<String, Fail> {
    let mut desk = desk_of(alloc, own)?;
    let mut text = String::new(alloc);
    push_reports(&mut text, &mut desk, own, name, told)?;
    Ok(text)
}

/// What a desk says to a row's reports, as the row has it.
fn told_desk(alloc: Global, row: Row<'_>) -> Result<String, Fail> {
    let name = report_of(row.told).name;
    let own = problem(alloc, views_named(name))?;
    told_reports(alloc, &own, name, row.told)
}

#[test]
fn a_desk_takes_reports_so(rt: HostRuntime) -> Result<(), Fail> {
    rows_tell(REPORTS, |row| told_desk(rt.alloc(), row))
}
