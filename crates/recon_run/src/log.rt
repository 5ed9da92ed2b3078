//! The answer that shows that a search was complete.

ghost use Rattle.proof_log.specs.Few.{HasFewMatching};
ghost use Rattle.recon_run.specs.Answers.{IsSomeLog};
ghost use Rattle.recon_run.specs.Searched.{AnswersQuestion};
ghost use Rattle.recon_run.specs.declared.question.Question.TheVariants as question;
ghost use Rattle.replies.specs.Writings.{EndsText};
ghost use Rattle.tv_base.specs.Faults.{Rose};

use crate::crew::Crew;
use crate::profile::Profile;
use crate::searched::search;
use crate::sought::Sought;
use proof_log::prove_log;
use replies::{Answer, Failure, Status, write_reply};
use solid_model::{EndKind, Limits, Problem};
use std::alloc::Global;
use std::sync::Wait;
use std::thread::Threads;
use tv_base::{Gate, Sink, SinkError};

/// Writes a log of a problem.
fn write_log<K: Sink>(alloc: Global, problem: &Problem, sink: &mut K) -> Result<(), Failure>
    requires { HasFewMatching problem.now }
    ensures { EndsText (IsSomeLog problem.now) (IsSomeLog problem.now) (K.held sink.old)
        (K.held sink.new) (Rose (K.faults sink.old) (K.faults sink.new)) result }
{
    match prove_log(alloc, problem, sink) {
        Ok(()) => Ok(()),
        Err(SinkError::Failed) => Err(Failure::WriteFault),
        Err(SinkError::Memory) => Err(Failure::Memory),
    }
}

/// Searches a problem for its solids, and writes a log that shows that there are no others; of a
/// search that was cut, how it ended.
pub fn answer_log<R: Threads + Wait + Sync, G: Gate, K: Sink>(
    alloc: Global,
    crew: &Crew<'_, R, G>,
    limits: &Limits,
    profile: &Profile,
    sought: Sought,
    sink: &mut K,
) -> Status
    ensures { AnswersQuestion (question.Log limits.now) profile.now sought (K.held sink.old)
        (K.held sink.new) (Rose (K.faults sink.old) (K.faults sink.new)) result }
{
    let Sought { problem, further } = sought;
    let found = search(alloc, problem, *limits, crew)?;
    found.known();
    let searched = found.fitting(alloc, &further)?;
    match searched.ended().kind {
        EndKind::Whole => {
            searched.problem().known();
            write_log(alloc, searched.problem(), sink)?;
            Ok(Answer::Done)
        }
        kind => {
            let text = searched.head(alloc, *limits)?;
            write_reply(Answer::at_end(kind), text.as_slice(), sink)
        }
    }
}
