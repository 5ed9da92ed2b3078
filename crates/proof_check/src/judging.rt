//! What is wrong with an entry.

ghost use Rattle.std.specs.Prelude.{◌≡◌, ◌↔◌, ◌+◌, ◌≤◌, None, IsTrue, MatchOption};
ghost use Rattle.solid_model.specs.Decisions.{decided_by};
ghost use Rattle.completeness_logs.specs.declared.entry.LogEntry.TheVariants.{Whole, Force};
ghost use Rattle.completeness_logs.specs.Logs.{IsUndecided, ShowsFail, ShowsForce, ShowsSolid, IsRightEntry, listed_by};
ghost use Rattle.completeness_logs.specs.LogTexts.{most_listed};
ghost use Rattle.proof_check.specs.Refusals.{IsWrongEntry};

use crate::asking::{all_decided, all_met, line_at};
use crate::fault::LogKind;
use completeness_logs::{LinePlace, LogEntry};
use line_demands::{Partial, excludes};

/// The block is there, and undecided.
fn is_undecided(partial: &Partial<'_>, block: u64) -> bool
    ensures { IsTrue result
        ↔ IsUndecided partial.now.problem (decided_by partial.now.decisions) block }
{
    if block >= u64::from(partial.problem().blocks().count()) {
        return false;
    }
    partial.value(block as u16).is_none()
}

/// The line is there, and can't be met.
fn shows_fail(partial: &Partial<'_>, place: LinePlace) -> bool
    ensures { IsTrue result
        ↔ ShowsFail partial.now.problem (decided_by partial.now.decisions) place }
{
    match line_at(partial.problem(), place) {
        None => false,
        Some(line) => !partial.can_meet(line),
    }
}

/// The line is there, and excludes that the block has the other value.
fn shows_force(partial: &Partial<'_>, block: u64, full: bool, place: LinePlace) -> bool
    requires { IsUndecided partial.now.problem (decided_by partial.now.decisions) block }
    ensures { IsTrue result
        ↔ ShowsForce partial.now.problem (decided_by partial.now.decisions) block full place }
{
    partial.known();
    match line_at(partial.problem(), place) {
        None => false,
        Some(line) => excludes(partial, line, block as u16, !full),
    }
}

/// Every block is decided, and every line can be met.
fn shows_solid(partial: &Partial<'_>) -> bool
    ensures { IsTrue result ↔ ShowsSolid partial.now.problem (decided_by partial.now.decisions) }
{
    all_decided(partial) && all_met(partial)
}

/// What is wrong with a solid, where so many are listed.
fn judge_whole(partial: &Partial<'_>, listed: usize) -> Option<LogKind>
    requires { listed ≤ most_listed }
    ensures { MatchOption result
        (ShowsSolid partial.now.problem (decided_by partial.now.decisions)
        × (listed + 1 ≤ most_listed))
        (IsWrongEntry partial.now.problem (decided_by partial.now.decisions) listed Whole) }
{
    if !shows_solid(partial) {
        return Some(LogKind::Unsolid);
    }
    if listed == 65536 {
        return Some(LogKind::TooMany);
    }
    None
}

/// What is wrong with a block that is said to be forced.
fn judge_force(
    partial: &Partial<'_>,
    block: u64,
    full: bool,
    place: LinePlace,
    listed: usize,
) -> Option<LogKind>
    ensures { MatchOption result
        (IsRightEntry partial.now.problem (decided_by partial.now.decisions)
        (Force block full place))
        (IsWrongEntry partial.now.problem (decided_by partial.now.decisions) listed
        (Force block full place)) }
{
    if !is_undecided(partial, block) {
        return Some(LogKind::BadBlock);
    }
    if !shows_force(partial, block, full, place) {
        return Some(LogKind::Unproved);
    }
    None
}

/// What is wrong with an entry, where so many solids are listed.
pub fn judge(partial: &Partial<'_>, entry: LogEntry, listed: usize) -> Option<LogKind>
    requires { listed ≤ most_listed }
    ensures { MatchOption result
        (IsRightEntry partial.now.problem (decided_by partial.now.decisions) entry
        × (listed + listed_by entry ≤ most_listed))
        (IsWrongEntry partial.now.problem (decided_by partial.now.decisions) listed entry) }
{
    match entry {
        LogEntry::Fail(place) => {
            if shows_fail(partial, place) {
                None
            } else {
                Some(LogKind::Unproved)
            }
        }
        LogEntry::Whole => judge_whole(partial, listed),
        LogEntry::Force(block, full, place) => judge_force(partial, block, full, place, listed),
        LogEntry::Split(block) => {
            if is_undecided(partial, block) {
                None
            } else {
                Some(LogKind::BadBlock)
            }
        }
    }
}
