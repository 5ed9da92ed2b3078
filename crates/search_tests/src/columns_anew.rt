//! Whether lines can be met, beside the same looked for cell by cell.

ghost use Rattle.std.specs.Prelude.{IsTrue};
ghost use Rattle.solid_model.specs.Known.{LiesWithin};
ghost use Rattle.solid_model.specs.Demands.{has_line};

use crate::demands::problem_in;
use line_demands::{KnownColumn, Partial, can_draw};
use solid_model::{LineId, PerAxis, Problem, View};
use std::alloc::Global;
use std::test::Fail;
use test_files::row_of;

/// A cube of five cells a side, with eight voids of a cell: nine blocks.
const EIGHT_VOIDS: &str = "lattice 2 2; lattice 2 2; lattice 2 2";

/// Whether a cell is full for certain, and whether it may be.
fn known_cell(partial: &Partial<'_>, cell: PerAxis) -> (bool, bool) {
    match partial.problem().blocks().of(cell) {
        None => (false, false),
        Some(block) => match partial.value(block) {
            None => (false, true),
            Some(full) => (full, full),
        },
    }
}

/// The cell of a view at places to the right, upwards and in depth.
fn cell_at(view: View, right: usize, up: usize, depth: usize) -> PerAxis {
    let far = 4usize.saturating_sub(depth);
    match view {
        View::Front => PerAxis {
            x: right,
            y: depth,
            z: up,
        },
        View::Top => PerAxis {
            x: right,
            y: up,
            z: far,
        },
        View::Side => PerAxis {
            x: far,
            y: right,
            z: up,
        },
    }
}

/// A column of which so much is known.
fn known(full: u64, may: u64) -> KnownColumn
    ensures { LiesWithin result.full result.may }
{
    KnownColumn {
        full: full & may,
        may,
    }
}

/// What is known of a column, looked for cell by cell. Past the cube nothing is full.
fn known_column(partial: &Partial<'_>, view: View, right: usize, up: usize) -> KnownColumn
    ensures { LiesWithin result.full result.may }
{
    let (mut full, mut may) = (0u64, 0u64);
    for depth in 0..5usize {
        let (is_full, may_be) = known_cell(partial, cell_at(view, right, up, depth));
        full |= u64::from(is_full) << depth;
        may |= u64::from(may_be) << depth;
    }
    known(full, may)
}

/// What is known of the column beside a line at a place across it.
fn known_beside(partial: &Partial<'_>, line: LineId, at: usize) -> KnownColumn
    ensures { LiesWithin result.full result.may }
{
    let cell = usize::from(line.cell);
    if line.upright {
        return known_column(partial, line.view, at, cell);
    }
    known_column(partial, line.view, cell, at)
}

/// Whether a line can be met, by its columns looked for cell by cell.
fn is_met(partial: &Partial<'_>, line: LineId) -> bool
    requires { IsTrue (has_line partial.now.problem.grid line) }
{
    let at = usize::from(line.at);
    let after = known_beside(partial, line, at);
    let before = known_beside(partial, line, at.checked_sub(1).unwrap_or(5));
    can_draw(partial.problem().grid().style(line), after, before)
}

/// The lines of the cube by numbers, 60 a view.
fn line_of(number: u8) -> LineId {
    LineId {
        view: match number / 60 {
            0 => View::Front,
            1 => View::Top,
            _ => View::Side,
        },
        upright: number / 30 % 2 == 1,
        at: number / 5 % 6,
        cell: number % 5,
    }
}

/// Whether a line is one of the grid's and can be met exactly where its columns tell that.
fn stands_so(partial: &Partial<'_>, line: LineId) -> bool {
    partial.problem().grid().has(line) && partial.can_meet(line) == is_met(partial, line)
}

/// Whether each line stands so.
fn all_stand_so(partial: &Partial<'_>) -> bool {
    for number in 0..180u8 {
        if !stands_so(partial, line_of(number)) {
            return false;
        }
    }
    true
}

/// Decides a block that isn't decided. False: it is, or isn't there.
fn decides(partial: &mut Partial<'_>, block: u16, full: bool) -> bool {
    if block >= partial.problem().blocks().count() || partial.value(block).is_some() {
        return false;
    }
    partial.decide(block, full);
    true
}

/// Decides the blocks from this one on as the digits of a choice say, the first block by the
/// highest of nine. With how many of the prefixes on the way every line can be met; `None` where
/// some line stands otherwise.
fn decide_from(partial: &mut Partial<'_>, from: u16, choice: u16) -> Option<u32> {
    let mut met = 0u32;
    for block in from..9u16 {
        let full = choice >> (8 - block) & 1 == 1;
        if !decides(partial, block, full) || !all_stand_so(partial) {
            return None;
        }
        met = met.saturating_add(u32::from(partial.broken_line().is_none()));
    }
    Some(met)
}

/// Takes back so many decisions. False: some line stands otherwise.
fn undo_some(partial: &mut Partial<'_>, count: u32) -> bool {
    for _ in 0..count {
        if !partial.undo() || !all_stand_so(partial) {
            return false;
        }
    }
    true
}

/// Goes through all choices, from each to the next by what they share. With how many prefixes every
/// line can be met; `None` where after some step a line stands otherwise.
fn met_on_the_way(partial: &mut Partial<'_>) -> Option<u32> {
    let (mut met, mut from) = (1u32, 0u16);
    for choice in 0..512u16 {
        met = met.saturating_add(decide_from(partial, from, choice)?);
        let count = choice.trailing_ones().min(8) + 1;
        if !undo_some(partial, count) {
            return None;
        }
        from = 9 - count as u16;
    }
    Some(met)
}

/// With how many prefixes of a problem's blocks every line can be met, where each line stands as its
/// columns tell after each decision and after each that is taken back.
fn met_prefixes_of(alloc: Global, problem: &Problem) -> Result<Option<u32>, Fail> {
    let mut partial = Partial::new(alloc, problem)?;
    Ok(met_on_the_way(&mut partial))
}

/// The same of the cube.
fn met_prefixes(alloc: Global) -> Result<Option<u32>, Fail> {
    let problem = problem_in(alloc, row_of(EIGHT_VOIDS))?;
    met_prefixes_of(alloc, &problem)
}

#[test]
fn lines_stand_as_their_columns_tell(rt: HostRuntime) -> Result<(), Fail> {
    assert_eq!(rt; met_prefixes(rt.alloc())?, Some(109));
    Ok(())
}
