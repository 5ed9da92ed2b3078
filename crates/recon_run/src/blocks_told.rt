//! The answer that tells where blocks are, without a search.

ghost use Rattle.recon_run.specs.Searched.{AnswersQuestion};
ghost use Rattle.recon_run.specs.declared.question.Question.TheVariants as question;
ghost use Rattle.tv_base.specs.Faults.{Rose};

use crate::profile::Profile;
use crate::sought::Sought;
use block_texts::blocks_text;
use replies::{Answer, Status, write_reply};
use std::alloc::Global;
use tv_base::Sink;

/// Writes where the blocks of a problem are.
pub fn answer_blocks<K: Sink>(
    alloc: Global,
    profile: &Profile,
    sought: &Sought,
    sink: &mut K,
) -> Status
    ensures { AnswersQuestion question.Blocks profile.now sought.now (K.held sink.old) (K.held sink.new)
        (Rose (K.faults sink.old) (K.faults sink.new)) result }
{
    let text = blocks_text(alloc, &sought.problem, profile.decimals())?;
    write_reply(Answer::Done, text.as_slice(), sink)
}
