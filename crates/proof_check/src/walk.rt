//! The walk over the lines of a log.

ghost use Rattle.std.specs.Prelude.{◌≡◌, ◌<◌, ◌≤◌, ◌∷◌, [], ◌↔◌, length, IfOk, IfErr, MatchOption, IsTrue};
ghost use Rattle.solid_model.specs.Blocks.{ProblemParts};
ghost use Rattle.dxf_groups.specs.TextLines.{text_lines};
ghost use Rattle.completeness_logs.specs.Logs.{nothing_known};
ghost use Rattle.completeness_logs.specs.LogTexts.{opening_line, IsLog};
ghost use Rattle.proof_check.specs.Checks.{IsRestOfLog, IsRefusedFrom, found_along};
ghost use Rattle.proof_check.specs.Refusals.{IsLogRefused, TellsRefusal};
ghost use Rattle.proof_check.specs.LogLines.{log_reading};

use crate::asking::block_count;
use crate::fault::{LogFault, LogKind, LogRefused};
use crate::going::take_entry;
use crate::judging::judge;
use crate::reading::{closing_count, entry_of_line, opening_count};
use line_demands::Partial;
use solid_model::Choice;
use std::alloc::Global;
use text_lines::first_line;

/// What is wrong where only the last line is left, which has this number.
fn check_end(rest: &[u8], number: u32, listed: usize) -> Option<LogFault>
    requires number { number < 4294967295 }
    ensures { MatchOption result
        ((p : ProblemParts) → IsRestOfLog p log_reading [] listed (text_lines rest.now))
        (λ fault. (p : ProblemParts) → IsRefusedFrom p log_reading [] listed number
        (text_lines rest.now) fault.kind fault.line) }
{
    let left = rest.len();
    if left == 0 {
        return Some(LogFault {
            kind: LogKind::Short,
            line: number,
        });
    }
    let (line, after) = first_line(rest);
    match closing_count(line) {
        None => Some(LogFault {
            kind: LogKind::BadLine,
            line: number,
        }),
        Some(count) => {
            if count != listed as u64 {
                return Some(LogFault {
                    kind: LogKind::BadCount,
                    line: number,
                });
            }
            let more = after.len();
            if more == 0 {
                return None;
            }
            Some(LogFault {
                kind: LogKind::Long,
                line: number + 1,
            })
        }
    }
}

/// Checks the lines of a log behind its first one, while no block is decided.
fn check_lines(
    alloc: Global,
    partial: &mut Partial<'_>,
    log: &[u8],
) -> Result<Vec<Choice>, LogRefused>
    requires fresh { partial.old.decisions ≡ [] }
    requires few { length log.now ≤ 4000000000 }
    ensures ok { IfOk result (λ cs.
        IsRestOfLog partial.old.problem log_reading (nothing_known ∷ []) 0 (text_lines log.now)
        × (cs.items ≡ found_along partial.old.problem log_reading (nothing_known ∷ [])
        (text_lines log.now))) }
    ensures refused { IfErr result (TellsRefusal (IsRefusedFrom partial.old.problem log_reading
        (nothing_known ∷ []) 0 2 (text_lines log.now))) }
{
    let mut rest = log;
    let mut number: u32 = 2;
    let mut open = true;
    let mut marks = Vec::new(alloc);
    let mut listed = Vec::new(alloc);
    while open {
        let left = rest.len();
        if left == 0 {
            return Err(LogRefused::Fault(LogFault {
                kind: LogKind::Short,
                line: number,
            }));
        }
        let (line, after) = first_line(rest);
        let entry = match entry_of_line(line) {
            Some(entry) => entry,
            None => {
                return Err(LogRefused::Fault(LogFault {
                    kind: LogKind::BadLine,
                    line: number,
                }));
            }
        };
        match judge(partial, entry, listed.len()) {
            None => {}
            Some(kind) => return Err(LogRefused::Fault(LogFault { kind, line: number })),
        }
        open = match take_entry(alloc, partial, entry, &mut marks, &mut listed) {
            Ok(open) => open,
            Err(_) => return Err(LogRefused::Memory),
        };
        rest = after;
        number += 1;
    }
    match check_end(rest, number, listed.len()) {
        None => Ok(listed),
        Some(fault) => Err(LogRefused::Fault(fault)),
    }
}

/// A line is the first one of a log for so many blocks.
fn is_opening(line: &[u8], blocks: u16) -> bool
    ensures { IsTrue result ↔ (line.now ≡ opening_line blocks) }
{
    match opening_count(line) {
        None => false,
        Some(count) => {
            let wanted = u64::from(blocks);
            if count == wanted {
                return true;
            }
            false
        }
    }
}

/// Checks a log, while no block is decided: the choices that it lists, in its order, or what is
/// wrong.
pub fn check_text(
    alloc: Global,
    partial: &mut Partial<'_>,
    log: &[u8],
) -> Result<Vec<Choice>, LogRefused>
    requires fresh { partial.old.decisions ≡ [] }
    requires few { length log.now ≤ 4000000000 }
    ensures ok { IfOk result (λ cs. IsLog partial.old.problem log.now cs.items) }
    ensures refused { IfErr result (TellsRefusal (IsLogRefused partial.old.problem log.now)) }
{
    let left = log.len();
    if left == 0 {
        return Err(LogRefused::Fault(LogFault {
            kind: LogKind::Short,
            line: 1,
        }));
    }
    let (line, after) = first_line(log);
    if is_opening(line, block_count(partial)) {
        return match check_lines(alloc, partial, after) {
            Ok(found) => Ok(found),
            Err(refused) => Err(refused),
        };
    }
    Err(LogRefused::Fault(LogFault {
        kind: LogKind::BadLine,
        line: 1,
    }))
}
