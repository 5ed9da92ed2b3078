//! The answer that judges what stands behind a drawing, without a search.

ghost use Rattle.std.specs.Prelude.{◌≡◌, ◌≤◌, length, IfOk};
ghost use Rattle.recon_run.specs.Answers.{log_kind_name};
ghost use Rattle.recon_run.specs.Searched.{AnswersBehind, TellsRight, TellsWhichFit};
ghost use Rattle.recon_run.specs.declared.question.Question.TheVariants as question;
ghost use Rattle.solid_model.specs.Limits.{most_text_bytes};
ghost use Rattle.tv_base.specs.Faults.{Rose};

use crate::profile::Profile;
use crate::sought::Sought;
use dxf_entities::LayerSet;
use fit_lanes::FurtherSieve;
use page_calls::sift;
use proof_check::{LogKind, LogRefused, check_log};
use replies::{Answer, Failure, Status, write_reply};
use report::{fitting_text, refusal_text, yes_text};
use solid_model::{Choice, Memory};
use std::alloc::Global;
use tv_base::Sink;

/// The number and the name of what is wrong with a line of a log.
fn log_kind_name(kind: LogKind) -> &'static str
    ensures { result.now ≡ log_kind_name kind }
{
    match kind {
        LogKind::BadLine => "G1 BadLine",
        LogKind::BadBlock => "G2 BadBlock",
        LogKind::Unproved => "G3 Unproved",
        LogKind::Unsolid => "G4 Unsolid",
        LogKind::TooMany => "G5 TooMany",
        LogKind::BadCount => "G6 BadCount",
        LogKind::Short => "G7 Short",
        LogKind::Long => "G8 Long",
    }
}

/// What is said of a log that is right, which lists these choices, where further views and sections
/// are read: how many of them fit, and which.
fn fitting_part(alloc: Global, sought: &Sought, choices: &[Choice]) -> Result<Vec<u8>, Memory>
    ensures { IfOk result (λ text. TellsWhichFit sought.now choices.now text.items) }
{
    let mut sieve = FurtherSieve::of(alloc, &sought.problem, &sought.further)?;
    let fitting = sift(alloc, &mut sieve, choices)?;
    fitting_text(alloc, choices.len(), fitting.as_slice())
}

/// What is said of a log that is right, which lists these choices, by which layers are read.
fn right_text(
    alloc: Global,
    layers: LayerSet,
    sought: &Sought,
    choices: &[Choice],
) -> Result<Vec<u8>, Memory>
    ensures { IfOk result (λ text. TellsRight layers sought.now choices.now text.items) }
{
    match layers {
        LayerSet::Main => yes_text(alloc, choices),
        LayerSet::Six => fitting_part(alloc, sought, choices),
        LayerSet::Sections => fitting_part(alloc, sought, choices),
    }
}

/// Checks the bytes that stand behind a drawing as a log of its problem: writes that these are all
/// its solids, or which of these fit further views and sections, where such are read; or why the log
/// is refused.
pub fn answer_check<K: Sink>(
    alloc: Global,
    profile: &Profile,
    sought: &Sought,
    rest: &[u8],
    sink: &mut K,
) -> Status
    requires { length rest.now ≤ most_text_bytes }
    ensures { AnswersBehind question.Check profile.now sought.now rest.now (K.held sink.old)
        (K.held sink.new) (Rose (K.faults sink.old) (K.faults sink.new)) result }
{
    match check_log(alloc, &sought.problem, rest) {
        Ok(choices) => {
            let layers = profile.form().layers();
            let text = right_text(alloc, layers, sought, choices.as_slice())?;
            write_reply(Answer::Done, text.as_slice(), sink)
        }
        Err(LogRefused::Fault(fault)) => {
            let text = refusal_text(alloc, "log", log_kind_name(fault.kind), fault.line)?;
            write_reply(Answer::Refused, text.as_slice(), sink)
        }
        Err(LogRefused::Memory) => Err(Failure::Memory),
    }
}
