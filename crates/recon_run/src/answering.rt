//! The one road from a source to what is written of its input.

ghost use Rattle.std.specs.Prelude.{◌≡◌, ◌+◌, Err};
ghost use Rattle.recon_run.specs.Endings.{Ends};
ghost use Rattle.recon_run.specs.Owed.{read};
ghost use Rattle.recon_run.specs.Searched.{AnswersBehind, asked_of};
ghost use Rattle.replies.specs.declared.status.Answer.TheVariants as answers;
ghost use Rattle.replies.specs.declared.status.Failure.TheVariants.{ReadFault};
ghost use Rattle.replies.specs.Writings.{EndsWriting, IsReply};
ghost use Rattle.report.specs.FaultText.{fault_text};
ghost use Rattle.tv_base.specs.Faults.{Rose};
ghost use Rattle.tv_base.specs.Pieces.{ReadsWithin};

use crate::all_solids::answer_all;
use crate::asked::answer_asked;
use crate::blocks_told::answer_blocks;
use crate::check::answer_check;
use crate::crew::Crew;
use crate::found::{Found, find};
use crate::log::answer_log;
use crate::one_solid::answer_one;
use crate::profile::Profile;
use crate::question::Question;
use crate::sought::FoundProblem;
use replies::{Answer, Status, write_reply};
use report::fault_text;
use solid_model::Fault;
use std::alloc::Global;
use std::sync::Wait;
use std::thread::Threads;
use tv_base::{Gate, Sink, Source};

/// Writes what answers a question about an input that is read so and in which this is found; the
/// crew works at what is searched.
fn answer_problem<R: Threads + Wait + Sync, G: Gate, K: Sink>(
    alloc: Global,
    crew: &Crew<'_, R, G>,
    question: &Question,
    profile: &Profile,
    found: FoundProblem,
    sink: &mut K,
) -> Status
    ensures { AnswersBehind question.now profile.now found.sought found.rest.items
        (K.held sink.old) (K.held sink.new) (Rose (K.faults sink.old) (K.faults sink.new)) result }
{
    let FoundProblem { sought, rest } = found;
    match question {
        Question::AllSolids(all) => answer_all(alloc, crew, all, profile, sought, sink),
        Question::OneSolid(one) => answer_one(alloc, crew, *one, profile, sought, sink),
        Question::Log(limits) => answer_log(alloc, crew, limits, profile, sought, sink),
        Question::Check => answer_check(alloc, profile, &sought, rest.as_slice(), sink),
        Question::Blocks => answer_blocks(alloc, profile, &sought, sink),
        Question::Session(limits) => {
            answer_asked(alloc, crew, limits, profile, sought, rest.as_slice(), sink)
        }
    }
}

/// Writes what answers every question about an input that has a fault.
fn write_fault<K: Sink>(alloc: Global, fault: &Fault, sink: &mut K) -> Status
    ensures { EndsWriting (IsReply answers.Faulty (fault_text fault.now))
        (IsReply answers.Faulty (fault_text fault.now)) (K.held sink.old) (K.held sink.new)
        (Rose (K.faults sink.old) (K.faults sink.new)) result }
{
    write_reply(Answer::Faulty, fault_text(alloc, fault)?.as_slice(), sink)
}

/// Reads what the source has left, and writes its first fault, or what answers the question.
pub fn answer_source<R: Threads + Wait + Sync, G: Gate, S: Source, K: Sink>(
    alloc: Global,
    crew: &Crew<'_, R, G>,
    profile: &Profile,
    question: &Question,
    source: &mut S,
    sink: &mut K,
) -> Status
    ensures ends { Ends (read profile.now (asked_of question.now)) (S.left source.old)
        (S.left source.new) (K.held sink.old) (K.held sink.new)
        (Rose (S.faults source.old) (S.faults source.new))
        (Rose (K.faults sink.old) (K.faults sink.new)) result }
    ensures within { ReadsWithin (S.left source.old) (S.left source.new) (profile.now.most + 1) }
    ensures unwritten { result ≡ Err ReadFault → sink.new ≡ sink.old }
{
    let found = find(alloc, profile, source)?;
    match found {
        Found::Problem(found) => answer_problem(alloc, crew, question, profile, found, sink),
        Found::Fault(fault) => write_fault(alloc, &fault, sink),
    }
}
