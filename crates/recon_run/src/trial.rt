//! Files that are made from a number, and trials of the program on them.
//!
//! Where the file is read, the case of a fault is one that isn't reached
//! (`made_files_have_no_fault`).

ghost use Rattle.std.specs.Prelude.{◌≡◌, List, length, IfOk};
ghost use Rattle.drawing_maker.specs.Made.{made_solid};
ghost use Rattle.recon_run.specs.Answers.{IsTried, first_volume};
ghost use Rattle.recon_run.specs.Searched.{FillSolids};
ghost use Rattle.redraw.specs.Files.{IsFileOf};
ghost use Rattle.report.specs.Texts.{trial_text};
ghost use Rattle.solid_model.specs.declared.cell.Cell.{Cell};

use crate::crew::Crew;
use crate::searched::{Searched, search};
use drawing_maker::make;
use file_problem::problem_of;
use redraw::dxf_of;
use report::trial_text;
use solid_model::{Limits, Memory, Refused};
use std::alloc::Global;
use std::sync::Wait;
use std::thread::Threads;
use tv_base::Gate;

/// The written file of the solid that is made from a number.
pub fn made_file(alloc: Global, n: u64) -> Result<Vec<u8>, Memory>
    ensures { IfOk result (λ text. IsFileOf 0 (made_solid n) text.items) }
{
    let (grid, cells) = make(alloc, n)?;
    let text = dxf_of(alloc, &grid, cells.as_slice(), 0)?;
    Ok(text)
}

/// The volume of the first solid that was found.
fn first_volume(searched: &Searched) -> u128
    ensures { (solids : List (List Cell))
        → FillSolids searched.now.problem searched.now.ended.solids solids
        → result ≡ first_volume solids }
{
    match searched.ended().solids.as_slice() {
        [choice, ..] => searched.problem().volume(choice),
        [] => 0,
    }
}

/// The line of figures of a search.
fn figures(alloc: Global, n: u64, searched: &Searched) -> Result<Vec<u8>, Memory>
    ensures { IfOk result (λ text. (solids : List (List Cell))
        → FillSolids searched.now.problem searched.now.ended.solids solids
        → text.items ≡ trial_text n searched.now.problem.blocks.count
        (length searched.now.ended.solids) searched.now.ended.opened (first_volume solids)) }
{
    let blocks = searched.problem().blocks().count();
    trial_text(alloc, n, blocks, searched.ended(), first_volume(searched))
}

/// What `trial` writes: that file is read, and its solids are searched for. It has no fault, and
/// passes no limit.
pub fn trial<R: Threads + Wait + Sync, G: Gate>(
    alloc: Global,
    n: u64,
    crew: &Crew<'_, R, G>,
) -> Result<Vec<u8>, Memory>
    ensures { IfOk result (λ text. IsTried n text.items) }
{
    let file = made_file(alloc, n)?;
    let problem = match problem_of(alloc, file, 0) {
        Ok(problem) => problem,
        Err(Refused::Fault(_)) => unreachable!(),
        Err(Refused::Memory) => return Err(Memory),
    };
    let searched = search(alloc, problem, Limits::DEFAULT, crew)?;
    let text = figures(alloc, n, &searched)?;
    Ok(text)
}
