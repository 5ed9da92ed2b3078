//! The way through the tree of a log that is written.
//!
//! Which lines may exclude something is known along the whole way. Where a tree ends, the way goes
//! back to a split, before which no line excluded anything: so no line is doubted there, and
//! nothing has to be kept of what was doubted on the way.

ghost use Rattle.std.specs.Prelude.{◌≡◌, ◌≢◌, ◌<◌, ℕ, None, IsTrue, IfOk, IfSome, OnOk};
ghost use Rattle.completeness_logs.specs.Logs.{IsRightEntry, after_entry, line_placed, with_block};
ghost use Rattle.completeness_logs.specs.LogTexts.{is_short_entry};
ghost use Rattle.completeness_logs.specs.SplitMarks.{all_to_come, sides_to_come};
ghost use Rattle.solid_model.specs.Decisions.{decided_by};

use completeness_logs::{LinePlace, LogEntry, close_tree, go_split};
use line_demands::Partial;
use propagate::{DoubtedLines, Forcing, doubt_last, step_doubted};
use solid_model::{LineId, Memory, Problem};
use std::alloc::Global;
use std::marker::Model;

/// What is written next, and whether a tree is open behind it.
#[derive(Clone, Copy, Debug)]
pub struct NextEntry {
    pub entry: LogEntry,
    pub goes_on: bool,
}

/// Where a line stands.
fn place_of(line: LineId) -> LinePlace
    ensures { line_placed result ≡ line }
{
    LinePlace {
        view: line.view,
        upright: line.upright,
        at: u64::from(line.at),
        cell: u64::from(line.cell),
    }
}

/// The least undecided block.
fn least_undecided(partial: &Partial<'_>) -> Option<u16>
    ensures some { IfSome result (λ block. (block < partial.now.problem.blocks.count)
        × (decided_by partial.now.decisions block ≡ None)) }
    ensures none { result ≡ None → (block : ℕ) → block < partial.now.problem.blocks.count
        → decided_by partial.now.decisions block ≢ None }
{
    for block in 0..partial.problem().blocks().count() {
        if partial.value(block).is_none() {
            return Some(block);
        }
    }
    None
}

/// Where the writing of a log stands.
#[derive(Debug, Drop)]
pub struct Walk<'p> {
    partial: Partial<'p>,
    /// The places of the decisions whose empty side is to come.
    marks: Vec<u16>,
    /// Where every line can be met, each other line excludes nothing.
    doubted: DoubtedLines,
}

impl<'p> Model for Walk<'p> {
    ghost use Rattle.std.specs.Prelude.{reverse};
    ghost use Rattle.completeness_logs.specs.SplitMarks.{AreSplitMarks};
    ghost use Rattle.propagate.specs.Doubting.{AreDoubted};
    ghost use Rattle.proof_log.specs.Walks.{WalkParts, AreStableAt};

    ghost Value = { WalkParts };

    ghost view = { λ s. record {
      problem = s.partial.problem;
      decisions = s.partial.decisions;
      marks = reverse s.marks.items;
    } };

    ghost invariant = { λ s. AreSplitMarks s.partial.decisions (reverse s.marks.items)
        × AreStableAt s.partial.problem s.partial.decisions (reverse s.marks.items)
        × AreDoubted s.partial.problem s.partial.decisions s.doubted };
}

impl<'p> Walk<'p> {
    ghost use Rattle.std.specs.Prelude.{◌≡◌, ◌<◌, ◌∷◌, [], None, true, false, IsTrue, IfOk, OnOk};
    ghost use Rattle.completeness_logs.specs.Logs.{IsRightEntry, after_entry, with_block};
    ghost use Rattle.completeness_logs.specs.LogTexts.{is_short_entry};
    ghost use Rattle.completeness_logs.specs.SplitMarks.{all_to_come, sides_to_come};
    ghost use Rattle.solid_model.specs.Decisions.{decided_by};
    ghost use Rattle.solid_model.specs.Forcing.{IsStable};

    /// The beginning, where no block is decided. An `Err` is out of memory.
    pub fn new(alloc: Global, problem: &'p Problem) -> Result<Walk<'p>, Memory>
        ensures { IfOk result (λ walk. walk ≡ record {
          problem = problem.now;
          decisions = [];
          marks = [];
        }) }
    {
        let partial = Partial::new(alloc, problem)?;
        let doubted = DoubtedLines::all(alloc, partial.line_count())?;
        Ok(Walk {
            partial,
            marks: Vec::new(alloc),
            doubted,
        })
    }

    /// The problem.
    pub fn problem(&self) -> &'p Problem
        ensures { result.now ≡ self.now.problem }
    {
        self.partial.problem()
    }

    /// Goes on where a tree has ended. False: nothing is to come.
    fn close(&mut self) -> bool
        ensures problem { self.new.problem ≡ self.old.problem }
        ensures coming { all_to_come result self.new.decisions self.new.marks
            ≡ sides_to_come self.old.decisions self.old.marks }
    {
        let goes_on = close_tree(&mut self.partial, &mut self.marks);
        if goes_on {
            self.doubted.clear_all();
            doubt_last(&self.partial, &mut self.doubted);
        }
        goes_on
    }

    /// Goes on with the full side of a split.
    fn split(&mut self, block: u16) -> Result<(), Memory>
        requires there { block < self.old.problem.blocks.count }
        requires undecided { decided_by self.old.decisions block ≡ None }
        requires stable { IsStable self.old.problem (decided_by self.old.decisions) }
        ensures problem { self.new.problem ≡ self.old.problem }
        ensures coming { OnOk result (all_to_come true self.new.decisions self.new.marks
            ≡ with_block (decided_by self.old.decisions) block true
            ∷ with_block (decided_by self.old.decisions) block false
            ∷ sides_to_come self.old.decisions self.old.marks) }
    {
        go_split(&mut self.partial, block, &mut self.marks)?;
        doubt_last(&self.partial, &mut self.doubted);
        Ok(())
    }

    /// Goes on by one entry: what the lines force next, the first line that can't be met, or, where
    /// they force nothing, a solid where all blocks are decided, and else a split on the least
    /// undecided one.
    pub fn next_entry(&mut self) -> Result<NextEntry, Memory>
        ensures problem { self.new.problem ≡ self.old.problem }
        ensures right { IfOk result (λ next. IsRightEntry self.old.problem
            (decided_by self.old.decisions) next.entry) }
        ensures short { IfOk result (λ next. IsTrue (is_short_entry next.entry)) }
        ensures coming { IfOk result
            (λ next. all_to_come next.goes_on self.new.decisions self.new.marks
            ≡ after_entry next.entry (decided_by self.old.decisions)
            (sides_to_come self.old.decisions self.old.marks)) }
    {
        match step_doubted(&mut self.partial, &mut self.doubted) {
            Forcing::Forced { block, full, line } => {
                self.partial.known();
                Ok(NextEntry {
                    entry: LogEntry::Force(u64::from(block), full, place_of(line)),
                    goes_on: true,
                })
            }
            Forcing::Conflict { line } => Ok(NextEntry {
                entry: LogEntry::Fail(place_of(line)),
                goes_on: self.close(),
            }),
            Forcing::Stable => match least_undecided(&self.partial) {
                None => Ok(NextEntry {
                    entry: LogEntry::Whole,
                    goes_on: self.close(),
                }),
                Some(block) => {
                    self.split(block)?;
                    Ok(NextEntry {
                        entry: LogEntry::Split(u64::from(block)),
                        goes_on: true,
                    })
                }
            },
        }
    }
}
