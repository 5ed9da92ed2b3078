//! What an entry leaves to come.

ghost use Rattle.std.specs.Prelude.{◌≡◌, ◌++◌, reverse, IfOk, OnOk};
ghost use Rattle.solid_model.specs.Decisions.{decided_by};
ghost use Rattle.completeness_logs.specs.Logs.{IsRightEntry, after_entry, listed_at};
ghost use Rattle.completeness_logs.specs.SplitMarks.{AreSplitMarks, sides_to_come, all_to_come};

use crate::asking::choice_known;
use completeness_logs::{LogEntry, close_tree, go_force, go_split};
use line_demands::Partial;
use solid_model::{Choice, Memory};
use std::alloc::Global;

/// Goes on with an entry that is right. False: the log's tree has ended.
pub fn take_entry(
    alloc: Global,
    partial: &mut Partial<'_>,
    entry: LogEntry,
    marks: &mut Vec<u16>,
    listed: &mut Vec<Choice>,
) -> Result<bool, Memory>
    requires marks { AreSplitMarks partial.old.decisions (reverse marks.old.items) }
    requires right { IsRightEntry partial.old.problem (decided_by partial.old.decisions) entry }
    ensures problem { partial.new.problem ≡ partial.old.problem }
    ensures marks { OnOk result (AreSplitMarks partial.new.decisions (reverse marks.new.items)) }
    ensures coming { IfOk result
        (λ open_. all_to_come open_ partial.new.decisions (reverse marks.new.items)
        ≡ after_entry entry (decided_by partial.old.decisions)
        (sides_to_come partial.old.decisions (reverse marks.old.items))) }
    ensures listed { OnOk result (listed.new.items ≡ listed.old.items
        ++ listed_at partial.old.problem (decided_by partial.old.decisions) entry) }
{
    partial.known();
    match entry {
        LogEntry::Fail(_) => Ok(close_tree(partial, marks)),
        LogEntry::Whole => {
            let choice = choice_known(alloc, partial)?;
            listed.push(choice)?;
            Ok(close_tree(partial, marks))
        }
        LogEntry::Force(block, full, _) => {
            go_force(partial, block as u16, full, marks);
            Ok(true)
        }
        LogEntry::Split(block) => {
            go_split(partial, block as u16, marks)?;
            Ok(true)
        }
    }
}
