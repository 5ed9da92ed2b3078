//! The answer that writes one of the solids.

ghost use Rattle.std.specs.Prelude.{List, ◌≤◌};
ghost use Rattle.recon_run.specs.Searched.{AnswersQuestion, AnswersNumbered, FillSolids, writes_of};
ghost use Rattle.recon_run.specs.declared.question.Question.TheVariants as question;
ghost use Rattle.replies.specs.Writings.{EndsWriting};
ghost use Rattle.solid_model.specs.declared.cell.Cell.{Cell};
ghost use Rattle.solid_model.specs.Limits.{most_decimals};
ghost use Rattle.tv_base.specs.Faults.{Rose};

use crate::crew::Crew;
use crate::profile::Profile;
use crate::question::OneSolid;
use crate::searched::{Searched, search_fitting};
use crate::sought::Sought;
use replies::{Answer, Status, write_reply};
use report::no_solid_text;
use solid_model::EndKind;
use std::alloc::Global;
use std::sync::Wait;
use std::thread::Threads;
use tv_base::{Gate, Sink};

/// Writes the solid of the number among those that a whole search found, or that there are fewer.
fn write_numbered<K: Sink>(
    alloc: Global,
    one: OneSolid,
    decimals: u8,
    searched: &Searched,
    sink: &mut K,
) -> Status
    requires { decimals ≤ most_decimals }
    ensures { (solids : List (List Cell))
        → FillSolids searched.now.problem searched.now.ended.solids solids
        → EndsWriting (AnswersNumbered (writes_of one.export decimals) one.which solids)
        (AnswersNumbered (writes_of one.export decimals) one.which solids)
        (K.held sink.old) (K.held sink.new) (Rose (K.faults sink.old) (K.faults sink.new)) result }
{
    let solids = searched.ended().solids.as_slice();
    let place = one.which as usize - 1;
    if place < solids.len() {
        one.export
            .write(alloc, decimals, searched.problem(), &solids[place], sink)?;
        Ok(Answer::Done)
    } else {
        let text = no_solid_text(alloc, one.which, solids.len())?;
        write_reply(Answer::NoSolid, text.as_slice(), sink)
    }
}

/// Searches a problem for its solids, and writes the one that is asked for; of a search that was
/// cut, how it ended.
pub fn answer_one<R: Threads + Wait + Sync, G: Gate, K: Sink>(
    alloc: Global,
    crew: &Crew<'_, R, G>,
    one: OneSolid,
    profile: &Profile,
    sought: Sought,
    sink: &mut K,
) -> Status
    ensures { AnswersQuestion (question.OneSolid one) profile.now sought (K.held sink.old)
        (K.held sink.new) (Rose (K.faults sink.old) (K.faults sink.new)) result }
{
    let searched = search_fitting(alloc, sought, one.limits, crew)?;
    match searched.ended().kind {
        EndKind::Whole => write_numbered(alloc, one, profile.decimals(), &searched, sink),
        kind => {
            let text = searched.head(alloc, one.limits)?;
            write_reply(Answer::at_end(kind), text.as_slice(), sink)
        }
    }
}
