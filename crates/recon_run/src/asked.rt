//! The answer that lets readers look at the growing list of solids while they are searched for.

ghost use Rattle.std.specs.Prelude.{◌≡◌, ◌≤◌, ℕ, List, Ok, length, map, take};
ghost use Rattle.std.specs.Arc.{arc_value};
ghost use Rattle.std.specs.List.{flat_map};
ghost use Rattle.recon_run.specs.Answers.{BeginsAll, TellsAll};
ghost use Rattle.file_problem.specs.Inputs.{HasProblem, Input};
ghost use Rattle.recon_run.specs.Readers.{AnswersScripts, BeginsScripts, ask_kind_name, page_text_of, tales_text};
ghost use Rattle.recon_run.specs.Searched.{AnswersBehind, FillSolids, TellsEndOf};
ghost use Rattle.recon_run.specs.declared.question.Question.TheVariants as question;
ghost use Rattle.replies.specs.Writings.{EndsText, EndsWriting};
ghost use Rattle.search_end.specs.Stopped.{IsEndOf, end_solids};
ghost use Rattle.solid_model.specs.declared.cell.Cell.{Cell};
ghost use Rattle.solid_model.specs.Limits.{most_decimals};
ghost use Rattle.tv_base.specs.Faults.{Rose};

use crate::all_solids::{write_listed, write_searched};
use crate::crew::Crew;
use crate::profile::Profile;
use crate::searched::Searched;
use crate::sought::Sought;
use query_session::{Ask, AskKind, AskRefused, ReaderTale, asks_of};
use replies::{Answer, Failure, Status, write_reply, write_text};
use report::{reader_text, refusal_text, stopped_text};
use search_run::SearchEnd;
use session_run::run_session;
use solid_model::{Limits, Problem};
use solution_book::Page;
use std::alloc::Global;
use std::sync::{Arc, Wait};
use std::thread::Threads;
use tv_base::{Gate, Sink};

/// The number and the name of what is wrong with a line of askings.
fn ask_kind_name(kind: AskKind) -> &'static str
    ensures { result.now ≡ ask_kind_name kind }
{
    match kind {
        AskKind::BadLine => "A1 BadLine",
        AskKind::TooMany => "A2 TooMany",
        AskKind::NoGo => "A3 NoGo",
    }
}

/// Writes a page that a reader has taken.
fn write_page<K: Sink>(
    alloc: Global,
    reader: usize,
    page: &Page,
    sink: &mut K,
) -> Result<(), Failure>
    ensures later { K.faults sink.old ≤ K.faults sink.new }
    ensures ends { EndsText (λ text. text ≡ page_text_of reader page.now)
        (λ text. text ≡ page_text_of reader page.now) (K.held sink.old) (K.held sink.new)
        (Rose (K.faults sink.old) (K.faults sink.new)) result }
{
    let choices = page.solids.as_slice();
    let text = reader_text(alloc, reader, page.from, choices, page.ends_here)?;
    write_text(sink, text.as_slice())
}

/// Writes the pages that a reader has taken, each in a call of its own.
fn write_pages<K: Sink>(
    alloc: Global,
    reader: usize,
    pages: &[Page],
    sink: &mut K,
) -> Result<(), Failure>
    ensures later { K.faults sink.old ≤ K.faults sink.new }
    ensures ends { EndsText (λ text. text ≡ flat_map (page_text_of reader) pages.now)
        (λ text. (n : ℕ) × (text ≡ take n (flat_map (page_text_of reader) pages.now)))
        (K.held sink.old) (K.held sink.new) (Rose (K.faults sink.old) (K.faults sink.new)) result }
{
    for page in pages {
        write_page(alloc, reader, page, sink)?;
    }
    Ok(())
}

/// Writes the pages of each reader, one reader after another.
fn write_tales<K: Sink>(alloc: Global, tales: &[ReaderTale], sink: &mut K) -> Result<(), Failure>
    ensures later { K.faults sink.old ≤ K.faults sink.new }
    ensures ends { EndsText (λ text. text ≡ tales_text 0 tales.now)
        (λ text. (n : ℕ) × (text ≡ take n (tales_text 0 tales.now))) (K.held sink.old)
        (K.held sink.new) (Rose (K.faults sink.old) (K.faults sink.new)) result }
{
    for (reader, tale) in tales.iter().enumerate() {
        write_pages(alloc, reader, tale.pages.as_slice(), sink)?;
    }
    Ok(())
}

/// Writes how the search of a problem ended beside which readers were asked, and the solids that are
/// listed.
fn write_end<K: Sink>(
    alloc: Global,
    problem: Arc<Problem>,
    limits: Limits,
    end: SearchEnd,
    decimals: u8,
    sink: &mut K,
) -> Status
    requires end { IsEndOf (arc_value problem) limits end }
    requires decimals { decimals ≤ most_decimals }
    ensures later { K.faults sink.old ≤ K.faults sink.new }
    ensures ends { (solids : List (List Cell))
        → FillSolids (arc_value problem) (end_solids end) solids
        → EndsWriting (TellsEndOf TellsAll decimals (arc_value problem) limits end solids)
        (TellsEndOf BeginsAll decimals (arc_value problem) limits end solids) (K.held sink.old)
        (K.held sink.new) (Rose (K.faults sink.old) (K.faults sink.new)) result }
{
    match end {
        SearchEnd::Ended { ended, .. } => {
            let kind = ended.kind;
            let searched = Searched::of(problem, ended);
            write_searched(alloc, &searched, limits, decimals, sink)?;
            Ok(Answer::at_end(kind))
        }
        SearchEnd::Stopped { solids, .. } => {
            let choices = solids.as_slice();
            let head = stopped_text(alloc, choices.len())?;
            write_listed(alloc, &problem, head.as_slice(), choices, decimals, sink)?;
            Ok(Answer::Stopped)
        }
    }
}

/// Searches a problem while readers do what they are asked, and writes what they tell and then how
/// the search ended.
fn answer_scripts<R: Threads + Wait + Sync, G: Gate, K: Sink>(
    alloc: Global,
    crew: &Crew<'_, R, G>,
    limits: Limits,
    problem: Problem,
    scripts: &[Vec<Ask>],
    decimals: u8,
    sink: &mut K,
) -> Status
    requires readers { (1 ≤ length scripts.now) × (length scripts.now ≤ 16) }
    requires decimals { decimals ≤ most_decimals }
    ensures { (t : Input) → HasProblem t problem → t.decimals ≡ decimals
        → EndsWriting (AnswersScripts limits t (Ok (map (λ v. v.items) scripts.now)))
        (BeginsScripts limits t (Ok (map (λ v. v.items) scripts.now))) (K.held sink.old)
        (K.held sink.new) (Rose (K.faults sink.old) (K.faults sink.new)) result }
{
    let Ok(problem) = Arc::new(alloc, problem) else {
        return Err(Failure::Memory);
    };
    let Ok(own) = Arc::try_clone(&problem) else {
        return Err(Failure::Memory);
    };
    let session = run_session(
        crew.rt,
        alloc,
        own,
        limits,
        crew.workers,
        crew.gate,
        scripts,
    )?;
    write_tales(alloc, session.tales.as_slice(), sink)?;
    write_end(alloc, problem, limits, session.end, decimals, sink)
}

/// Lets readers do what the bytes behind a drawing ask, while its solids are searched for, and writes
/// what they tell and how the search ended; or which line of what they are asked is refused, and
/// why.
pub fn answer_asked<R: Threads + Wait + Sync, G: Gate, K: Sink>(
    alloc: Global,
    crew: &Crew<'_, R, G>,
    limits: &Limits,
    profile: &Profile,
    sought: Sought,
    rest: &[u8],
    sink: &mut K,
) -> Status
    ensures { AnswersBehind (question.Session limits.now) profile.now sought rest.now
        (K.held sink.old) (K.held sink.new) (Rose (K.faults sink.old) (K.faults sink.new)) result }
{
    match asks_of(alloc, rest) {
        Ok(scripts) => {
            let Sought { problem, .. } = sought;
            let scripts = scripts.as_slice();
            let decimals = profile.decimals();
            answer_scripts(alloc, crew, *limits, problem, scripts, decimals, sink)
        }
        Err(AskRefused::Fault(fault)) => {
            let text = refusal_text(alloc, "ask", ask_kind_name(fault.kind), fault.line)?;
            write_reply(Answer::NotAsked, text.as_slice(), sink)
        }
        Err(AskRefused::Memory) => Err(Failure::Memory),
    }
}
