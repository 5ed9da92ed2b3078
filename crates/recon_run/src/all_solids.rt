//! The answer that lists all solids, the one that is written text by text.
//!
//! Each solid's text is a call of the output of its own: so one is held at a time, and memory goes
//! with the list of choices.

ghost use Rattle.std.specs.Prelude.{◌≡◌, ◌≤◌, ℕ, List, [], ◌∷◌, length, take};
ghost use Rattle.recon_run.specs.Answers.{BeginsAll, TellsAll, TellsSolid, TellsSolids};
ghost use Rattle.recon_run.specs.Searched.{AnswersQuestion, FillSolids, search_head};
ghost use Rattle.recon_run.specs.declared.question.Question.TheVariants as question;
ghost use Rattle.replies.specs.Writings.{EndsText};
ghost use Rattle.solid_model.specs.declared.cell.Cell.{Cell};
ghost use Rattle.solid_model.specs.Limits.{most_decimals, most_solid_limit};
ghost use Rattle.tv_base.specs.Faults.{Rose};

use crate::crew::Crew;
use crate::profile::Profile;
use crate::question::AllSolids;
use crate::searched::Searched;
use crate::sought::Sought;
use crate::telling::search_telling;
use replies::{Answer, Failure, Status, write_text};
use report::{SolidBuffers, SolidTexts};
use solid_model::{Choice, Limits, Problem};
use std::alloc::Global;
use std::sync::Wait;
use std::thread::Threads;
use tv_base::{Gate, Sink};

/// Writes the text of the solid of this number that a choice of a problem's blocks fills.
fn write_solid<K: Sink>(
    alloc: Global,
    texts: &SolidTexts<'_>,
    number: u32,
    choice: &Choice,
    buffers: &mut SolidBuffers,
    sink: &mut K,
) -> Result<(), Failure>
    requires { buffers.old.rows.sizes ≡ texts.now.problem.blocks.sizes }
    ensures sizes { buffers.new.rows.sizes ≡ texts.now.problem.blocks.sizes }
    ensures later { K.faults sink.old ≤ K.faults sink.new }
    ensures ends { (s : List Cell) → FillSolids texts.now.problem (choice.now ∷ []) (s ∷ [])
        → EndsText (TellsSolid texts.now.decimals number choice.now s)
        (TellsSolid texts.now.decimals number choice.now s) (K.held sink.old) (K.held sink.new)
        (Rose (K.faults sink.old) (K.faults sink.new)) result }
{
    texts.tell(alloc, number, choice, buffers)?;
    write_text(sink, buffers.text.as_slice())
}

/// Writes the text of each solid that choices of a problem's blocks fill, numbered from 1, one
/// after another in the same buffers.
fn write_solids<K: Sink>(
    alloc: Global,
    texts: &SolidTexts<'_>,
    choices: &[Choice],
    buffers: &mut SolidBuffers,
    sink: &mut K,
) -> Result<(), Failure>
    requires few { length choices.now ≤ most_solid_limit }
    requires sizes { buffers.old.rows.sizes ≡ texts.now.problem.blocks.sizes }
    ensures later { K.faults sink.old ≤ K.faults sink.new }
    ensures ends { (solids : List (List Cell)) → FillSolids texts.now.problem choices.now solids
        → EndsText (TellsSolids texts.now.decimals 1 choices.now solids)
        (λ text. (first : ℕ) × TellsSolids texts.now.decimals 1 (take first choices.now)
        (take first solids) text) (K.held sink.old) (K.held sink.new)
        (Rose (K.faults sink.old) (K.faults sink.new)) result }
{
    for (place, choice) in choices.iter().enumerate() {
        write_solid(alloc, texts, place as u32 + 1, choice, buffers, sink)?;
    }
    Ok(())
}

/// Writes a first line, and the solids that choices of a problem's blocks fill, whose coordinates have
/// so many decimals. Where there are none, nothing is made ready for them.
pub fn write_listed<K: Sink>(
    alloc: Global,
    problem: &Problem,
    head: &[u8],
    choices: &[Choice],
    decimals: u8,
    sink: &mut K,
) -> Result<(), Failure>
    requires few { length choices.now ≤ most_solid_limit }
    requires decimals { decimals ≤ most_decimals }
    ensures later { K.faults sink.old ≤ K.faults sink.new }
    ensures ends { (solids : List (List Cell)) → FillSolids problem.now choices.now solids
        → EndsText (TellsAll head.now decimals choices.now solids)
        (BeginsAll head.now decimals choices.now solids) (K.held sink.old) (K.held sink.new)
        (Rose (K.faults sink.old) (K.faults sink.new)) result }
{
    if choices.is_empty() {
        return write_text(sink, head);
    }
    let texts = SolidTexts::of(alloc, problem, decimals)?;
    let mut buffers = texts.buffers(alloc)?;
    write_text(sink, head)?;
    write_solids(alloc, &texts, choices, &mut buffers, sink)
}

/// Writes how a search within limits ended, and its solids.
pub fn write_searched<K: Sink>(
    alloc: Global,
    searched: &Searched,
    limits: Limits,
    decimals: u8,
    sink: &mut K,
) -> Result<(), Failure>
    requires { decimals ≤ most_decimals }
    ensures later { K.faults sink.old ≤ K.faults sink.new }
    ensures ends { (solids : List (List Cell))
        → FillSolids searched.now.problem searched.now.ended.solids solids → EndsText
        (TellsAll (search_head limits searched.now) decimals searched.now.ended.solids solids)
        (BeginsAll (search_head limits searched.now) decimals searched.now.ended.solids solids)
        (K.held sink.old) (K.held sink.new) (Rose (K.faults sink.old) (K.faults sink.new)) result }
{
    let head = searched.head(alloc, limits)?;
    let choices = searched.ended().solids.as_slice();
    let problem = searched.problem();
    write_listed(alloc, problem, head.as_slice(), choices, decimals, sink)
}

/// Searches a problem for its solids, and writes all of them, after pages of them or without.
pub fn answer_all<R: Threads + Wait + Sync, G: Gate, K: Sink>(
    alloc: Global,
    crew: &Crew<'_, R, G>,
    all: &AllSolids,
    profile: &Profile,
    sought: Sought,
    sink: &mut K,
) -> Status
    ensures { AnswersQuestion (question.AllSolids all.now) profile.now sought (K.held sink.old)
        (K.held sink.new) (Rose (K.faults sink.old) (K.faults sink.new)) result }
{
    let limits = all.limits;
    let searched = search_telling(alloc, sought, limits, all.pages, sink, crew)?;
    write_searched(alloc, &searched, limits, profile.decimals(), sink)?;
    Ok(Answer::at_end(searched.ended().kind))
}
