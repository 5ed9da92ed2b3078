//! How a run ends.

ghost use Rattle.std.specs.Prelude.{◌≡◌};
ghost use Rattle.replies.specs.declared.status.Failure.TheVariants as failure;
ghost use Rattle.replies.specs.Status.{answer_code, end_answer, failure_code, status_code};

use solid_model::{EndKind, Memory};

/// What a run answers.
#[derive(Clone, Copy, Debug, PartialEq, Eq)]
pub enum Answer {
    /// What was asked for: of a search, one that was whole.
    Done,
    /// The first fault of the file.
    Faulty,
    /// The usage line, since the arguments aren't taken.
    Usage,
    /// That a search was cut: there are more live prefixes than their limit.
    CutNodes,
    /// That a search was cut: there are more solids than their limit.
    CutSolids,
    /// That there is no solid of the number that was asked for.
    NoSolid,
    /// Why what was to be checked doesn't show what it should.
    Refused,
    /// That a search was stopped before its end, as was asked for.
    Stopped,
    /// Why what readers are asked isn't taken.
    NotAsked,
}

/// Why a run fails before its answer is written.
#[derive(Clone, Copy, Debug, PartialEq, Eq)]
pub enum Failure {
    /// The source failed.
    ReadFault,
    /// The sink failed.
    WriteFault,
    /// Out of memory.
    Memory,
}

/// How a run ends: its answer is written, or it fails before.
pub type Status = Result<Answer, Failure>;

impl Answer {
    /// Its number.
    pub fn code(self) -> u8
        ensures { result ≡ answer_code self }
    {
        match self {
            Answer::Done => 0,
            Answer::Faulty => 1,
            Answer::Usage => 2,
            Answer::CutNodes => 3,
            Answer::CutSolids => 4,
            Answer::NoSolid => 8,
            Answer::Refused => 9,
            Answer::Stopped => 10,
            Answer::NotAsked => 11,
        }
    }

    /// The answer to a search that ended so.
    pub fn at_end(kind: EndKind) -> Answer
        ensures { result ≡ end_answer kind }
    {
        match kind {
            EndKind::Whole => Answer::Done,
            EndKind::CutNodes => Answer::CutNodes,
            EndKind::CutSolids => Answer::CutSolids,
        }
    }
}

impl Failure {
    /// Its number.
    pub fn code(self) -> u8
        ensures { result ≡ failure_code self }
    {
        match self {
            Failure::ReadFault => 5,
            Failure::WriteFault => 6,
            Failure::Memory => 7,
        }
    }
}

impl From<Memory> for Failure {
    ghost from_gives = { λ _ e. e ≡ failure.Memory };

    fn from(_error: Memory) -> Failure {
        Failure::Memory
    }
}

/// The number of a status, the process' exit status.
pub fn code(status: Status) -> u8
    ensures { result ≡ status_code status }
{
    match status {
        Ok(answer) => answer.code(),
        Err(failure) => failure.code(),
    }
}
