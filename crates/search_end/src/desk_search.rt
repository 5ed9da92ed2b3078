//! A desk, and the calling thread that works at it alone.
//!
//! 64 live prefixes are opened before a report: fewer cost more reports, more make a search of few
//! nodes one report, which could not be shared.

ghost use Rattle.std.specs.Prelude.{◌≡◌, ◌<◌, None, Some, IfOk, OnOk};
ghost use Rattle.search_core.specs.Desk.{IsDesk};
ghost use Rattle.search_tree.specs.BlockPaths.{IsWayOf};
ghost use Rattle.search_end.specs.GoingOn.{DeskGoesOn};

use search_core::{Desk, Reported};
use search_tree::{BlockPath, expand_from};
use solid_model::{EndKind, Memory, Prefix, Problem};
use std::alloc::Global;
use std::collections::VecDeque;

/// How many live prefixes a piece is expanded into at most, before it is reported.
pub const QUANTUM: u32 = 64;

/// Keeps a rest behind the other pieces, so that its first one is taken from the end next: it is
/// the deepest, and the first in the stated order. All stand in the frontier of the desk too, so a
/// piece for which there is no memory is left to who takes the frontier's first piece.
pub fn keep_all(kept: &mut VecDeque<Prefix>, rest: Vec<Prefix>) {
    let mut rest = rest;
    while let Some(piece) = rest.pop() {
        let _kept = kept.push_back(piece);
    }
}

/// Expands a piece by a way down the tree of the desk's problem and reports it. Its rest is kept
/// where the report is taken. An `Err` is out of memory.
fn try_piece(
    alloc: Global,
    path: &mut BlockPath,
    desk: &mut Desk,
    kept: &mut VecDeque<Prefix>,
    piece: &Prefix,
) -> Result<(), Memory>
    requires way { IsWayOf desk.old.problem path.old }
    ensures way { OnOk result (IsWayOf desk.new.problem path.new) }
    ensures goes_on { OnOk result (DeskGoesOn desk.old desk.new) }
{
    desk.known();
    let Some(expansion) = expand_from(alloc, path, desk.problem(), piece, QUANTUM)? else {
        return Ok(());
    };
    match desk.report(expansion) {
        Ok(Reported::Taken { rest }) => {
            keep_all(kept, rest);
            Ok(())
        }
        Ok(_) => Ok(()),
        Err(_) => Err(Memory),
    }
}

/// Goes on deep first below what is kept, until none is or the desk has ended. An `Err` is out of
/// memory.
fn go_deep(
    alloc: Global,
    path: &mut BlockPath,
    desk: &mut Desk,
    kept: VecDeque<Prefix>,
) -> Result<(), Memory>
    requires way { IsWayOf desk.old.problem path.old }
    requires kept { IsDesk desk.old }
    ensures way { OnOk result (IsWayOf desk.new.problem path.new) }
    ensures goes_on { OnOk result (DeskGoesOn desk.old desk.new) }
{
    let mut kept = kept;
    for _ in 0..u64::MAX {
        if desk.end().is_some() {
            return Ok(());
        }
        let Some(piece) = kept.pop_back() else {
            return Ok(());
        };
        try_piece(alloc, path, desk, &mut kept, &piece)?;
    }
    Ok(())
}

/// Expands the first piece of the frontier by a way down the tree of the desk's problem, reports
/// it, and goes on deep first below it. An `Err` is out of memory.
fn step(alloc: Global, path: &mut BlockPath, desk: &mut Desk) -> Result<(), Memory>
    requires way { IsWayOf desk.old.problem path.old }
    requires going { desk.old.end ≡ None }
    ensures way { OnOk result (IsWayOf desk.new.problem path.new) }
    ensures problem { OnOk result (desk.new.problem ≡ desk.old.problem) }
    ensures limits { OnOk result (desk.new.limits ≡ desk.old.limits) }
    ensures opened { OnOk result (desk.old.opened < desk.new.opened) }
    ensures kept { OnOk result (IsDesk desk.new) }
{
    desk.known();
    let Some(piece) = desk.first_piece() else {
        unreachable!()
    };
    let Some(expansion) = expand_from(alloc, path, desk.problem(), piece, QUANTUM)? else {
        unreachable!()
    };
    match desk.report(expansion) {
        Ok(Reported::Taken { rest }) => {
            let mut kept = VecDeque::new(alloc);
            keep_all(&mut kept, rest);
            go_deep(alloc, path, desk, kept)
        }
        Ok(_) => unreachable!(),
        Err(_) => Err(Memory),
    }
}

/// Expands and reports until the desk has ended, and says how. An `Err` is out of memory.
pub fn go_on(
    alloc: Global,
    path: &mut BlockPath,
    problem: &Problem,
    desk: Desk,
) -> Result<(Desk, EndKind), Memory>
    requires way { IsWayOf problem.now path.old }
    requires problem { desk.problem ≡ problem.now }
    ensures problem { IfOk result (λ r. r.0.problem ≡ problem.now) }
    ensures limits { IfOk result (λ r. r.0.limits ≡ desk.limits) }
    ensures end { IfOk result (λ r. r.0.end ≡ Some r.1) }
    ensures kept { IfOk result (λ r. IsDesk r.0) }
{
    problem.known();
    let mut desk = desk;
    loop {
        if let Some(kind) = desk.end() {
            return Ok((desk, kind));
        }
        step(alloc, path, &mut desk)?;
    }
}
