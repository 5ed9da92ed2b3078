//! A problem, some of whose blocks are decided.
//!
//! The columns of the three views are numbered, and each has a mask of the cells that are full for
//! certain and one of those that may be full. What never changes is gathered once (`gather`,
//! `plan`, `beside`). A decision sets its block's cells in the masks and tries the lines that touch
//! it. Masks need no trail: the cells of a block that is decided were free. A table of what is
//! decided is kept beside the list: a search asks it at every prefix. The crate knows nothing of
//! the search, so a checker of a search's log may ask the same state the same questions.

ghost use Rattle.std.specs.Prelude.{◌≡◌, ◌<◌, ◌≤◌, ◌++◌, ◌∷◌, [], None, false, length, take};
ghost use Rattle.line_demands.specs.Broken.{TellsBroken};
ghost use Rattle.solid_model.specs.Decisions.{decided_by};

use crate::beside::{beside_of, number_of_column};
use crate::gather::{all_sides, break_all, empty_lists, empty_spans, gather_columns, touch_all};
use crate::known::KnownColumn;
use crate::lines::{Beside, can_be_met, least, mend_lines, try_lines};
use crate::plan::{LineList, SpanList};
use crate::seen::{SeenLine, seen_line};
use crate::spans::set_spans;
use crate::steps::Steps;
use crate::whole::DrawnLines;
use solid_model::{Decision, LineId, Memory, Problem, View};
use std::alloc::Global;
use std::marker::{Brand, Model};
use std::sync::ledger::{Blank, Ledger};

/// A problem, some of whose blocks are decided: what is known of the columns of its cells, and
/// which lines can't be met. All memory is taken at the beginning. A decision looks at the columns
/// of its block and tries the lines beside them, and no others; taking it back tries none.
#[derive(Debug, Drop)]
pub struct Partial<'p> {
    problem: &'p Problem,
    decisions: Vec<Decision>,
    /// For each block what is decided of it.
    values: Vec<Option<bool>>,
    /// The cells of each block, column by column.
    spans: Vec<SpanList>,
    /// The numbers of the lines that touch each block.
    touched: Vec<LineList>,
    /// All lines, in their order.
    sides: Vec<Beside>,
    /// What is known of the columns of the front, the top and the side, and of one beyond them that
    /// has no cell.
    columns: Vec<KnownColumn>,
    /// For each line whether it can be met.
    met: Vec<bool>,
    /// The lines that can't be met, in the order in which they were found. More decisions never
    /// mend a line, so those of the first decisions are the first ones.
    broken: Vec<u32>,
    /// For each decision how many lines couldn't be met before it.
    heights: Vec<usize>,
    /// For each decision the places, among the lines that touch its block, of those that may force
    /// something.
    doubts: Vec<u64>,
    /// The lines that are drawn.
    drawn: DrawnLines,
}

impl<'p> Model for Partial<'p> {
    ghost use Rattle.std.specs.Prelude.{vec_capacity};
    ghost use Rattle.solid_model.specs.Decisions.{PartialParts};

    ghost Value = { PartialParts };

    ghost use Rattle.line_demands.specs.Free.{AreDoubts};
    ghost use Rattle.line_demands.specs.KeptColumns.{IsKeptBy, AreValues};
    ghost use Rattle.line_demands.specs.WholeChoices.{AreDrawnOf};
    ghost use Rattle.solid_model.specs.Blocks.{IsBlocksOf};

    ghost view = { λ s. record { problem = s.problem.now; decisions = s.decisions.items } };

    ghost invariant = { λ s. IsKeptBy s.problem.now s.decisions.items s.spans.items s.touched.items
        s.sides.items s.columns.items s.met.items s.heights.items s.broken.items
        (vec_capacity s.decisions) (vec_capacity s.heights) (vec_capacity s.broken)
        × AreValues s.problem.now.blocks.count s.decisions.items s.values.items
        × AreDoubts s.problem.now s.decisions.items s.doubts.items (vec_capacity s.doubts)
        × AreDrawnOf s.sides.items s.drawn
        × IsBlocksOf s.problem.now.grid s.problem.now.blocks };
}

impl<'p> Partial<'p> {
    ghost use Rattle.std.specs.Prelude.{◌≡◌, ◌↔◌, ◌<◌, ◌≤◌, ◌+◌, ◌++◌, ◌∷◌, [], ℕ, pos, Some, None, false, length, take, slice_get, slice_index_or, IsTrue, IfSome, IfOk};
    ghost use Rattle.solid_model.specs.declared.decision.Decision.{Decision};
    ghost use Rattle.solid_model.specs.Blocks.{IsBlocksOf};
    ghost use Rattle.solid_model.specs.Decisions.{decided_by, AreDecisions, AreOnAll};
    ghost use Rattle.line_demands.specs.WholeChoices.{TellsMatching};
    ghost use Rattle.line_demands.specs.Free.{LeaveFreeBut};
    ghost use Rattle.line_demands.specs.Touching.{lines_touching, touching, view_width, view_height, shown_cell};
    ghost use Rattle.line_demands.specs.Seen.{IsSeen};
    ghost use Rattle.solid_model.specs.Known.{known_bits, LiesWithin};
    ghost use Rattle.solid_model.specs.GridBox.{grid_sizes};
    ghost use Rattle.solid_model.specs.Demands.{has_line, known_cell, lines_of, CanBeMet, AllMet, IsFirstBroken};

    /// The problem, while no block is decided. An `Err` is out of memory.
    pub fn new(alloc: Global, problem: &'p Problem) -> Result<Partial<'p>, Memory>
        ensures { IfOk result (λ state. state ≡ record {
          problem = problem.now;
          decisions = [];
        }) }
    {
        problem.known();
        let count = usize::from(problem.blocks().count());
        let decisions = Vec::with_capacity(alloc, count)?;
        let heights = Vec::with_capacity(alloc, count)?;
        let doubts = Vec::with_capacity(alloc, count)?;
        let values = vec![in alloc; None; count]?;
        let mut spans = empty_spans(alloc, count)?;
        let mut on = Vec::new(alloc);
        let mut columns = gather_columns(alloc, problem, spans.as_mut_slice(), &mut on)?;
        columns.push(KnownColumn { full: 0, may: 0 })?;
        on.push(LineList::new(alloc))?;
        let sides = all_sides(alloc, problem)?;
        let mut touched = empty_lists(alloc, count)?;
        touch_all(on.as_slice(), sides.as_slice(), touched.as_mut_slice())?;
        let mut met = vec![in alloc; true; sides.len()]?;
        let mut broken = Vec::with_capacity(alloc, sides.len())?;
        break_all(
            columns.as_slice(),
            sides.as_slice(),
            met.as_mut_slice(),
            &mut broken,
        );
        let drawn = DrawnLines::of(alloc, sides.as_slice())?;
        Ok(Partial {
            problem,
            decisions,
            values,
            spans,
            touched,
            sides,
            columns,
            met,
            broken,
            heights,
            doubts,
            drawn,
        })
    }

    /// How many lines touch a block: beside the line stands a column with a cell of the block.
    pub fn touching(&self, block: u16) -> u32
        requires { block < self.now.problem.blocks.count }
        ensures { result ≡ touching self.now.problem block }
    {
        self.touched[usize::from(block)].as_slice().len() as u32
    }

    /// The number, among all lines in their order, of one of the lines that touch a block.
    pub fn touched(&self, block: u16, at: u32) -> usize
        requires block { block < self.now.problem.blocks.count }
        requires at { at < touching self.now.problem block }
        ensures there { result < length (lines_of self.now.problem.grid) }
        ensures line { (d : LineId) → slice_get (lines_touching self.now.problem block) at
            ≡ Some (slice_index_or (lines_of self.now.problem.grid) result d) }
    {
        self.touched[usize::from(block)].as_slice()[at as usize] as usize
    }

    /// Decides a block that isn't decided, counting its steps: tries of a line.
    pub fn decide_counted<L: Ledger>(&mut self, block: u16, full: bool, steps: &mut Steps<L>)
        requires there { block < self.old.problem.blocks.count }
        requires open { decided_by self.old.decisions block ≡ None }
        ensures decided { self.new ≡ record {
          problem = self.old.problem;
          decisions = self.old.decisions ++ record { block = block; full = full } ∷ [];
        } }
        ensures steps { steps.new ≤ steps.old + touching self.old.problem block }
    {
        let number = usize::from(block);
        set_spans(
            self.columns.as_mut_slice(),
            self.spans[number].as_slice(),
            Some(full),
        );
        self.values[number] = Some(full);
        self.heights.push_reserved(self.broken.len());
        let doubts = try_lines(
            self.columns.as_slice(),
            self.sides.as_slice(),
            self.touched[number].as_slice(),
            self.met.as_mut_slice(),
            &mut self.broken,
            steps,
        );
        self.decisions.push_reserved(Decision { block, full });
        self.doubts.push_reserved(doubts);
    }

    /// Takes back the last decision. False: there is none.
    pub fn undo(&mut self) -> bool
        ensures problem { self.new.problem ≡ self.old.problem }
        ensures undone { IsTrue result → (last : Decision)
            × (self.old.decisions ≡ self.new.decisions ++ last ∷ []) }
        ensures none { result ≡ false → (self.old.decisions ≡ []) × (self.new ≡ self.old) }
    {
        match self.decisions.pop() {
            Some(last) => {
                set_spans(
                    self.columns.as_mut_slice(),
                    self.spans[usize::from(last.block)].as_slice(),
                    None,
                );
                self.values[usize::from(last.block)] = None;
                self.doubts.pop();
                if let Some(height) = self.heights.pop() {
                    mend_lines(self.met.as_mut_slice(), &mut self.broken, height);
                }
                true
            }
            None => false,
        }
    }

    /// Decides a block that isn't decided.
    pub fn decide(&mut self, block: u16, full: bool)
        requires there { block < self.old.problem.blocks.count }
        requires open { decided_by self.old.decisions block ≡ None }
        ensures decided { self.new ≡ record {
          problem = self.old.problem;
          decisions = self.old.decisions ++ record { block = block; full = full } ∷ [];
        } }
    {
        decide_with::<Brand>(self, block, full, Blank::new(1));
    }

    /// The blocks of its problem are those of its grid, their number has 16 bits, and no block is
    /// decided twice.
    pub fn known(&self)
        ensures blocks { IsBlocksOf self.now.problem.grid self.now.problem.blocks }
        ensures few { self.now.problem.blocks.count ≤ 65535 }
        ensures decided { AreDecisions self.now.problem.blocks.count self.now.decisions }
    {
        self.problem.known();
    }

    /// The problem.
    pub fn problem(&self) -> &'p Problem
        ensures { result.now ≡ self.now.problem }
    {
        self.problem
    }

    /// The decisions, in the order in which they were taken.
    pub fn decisions(&self) -> &[Decision]
        ensures { result.now ≡ self.now.decisions }
    {
        self.decisions.as_slice()
    }

    /// How many decisions there are.
    pub fn decided(&self) -> u16
        ensures count { result ≡ length self.now.decisions }
        ensures few { length self.now.decisions ≤ self.now.problem.blocks.count }
        ensures each { AreDecisions self.now.problem.blocks.count self.now.decisions }
    {
        self.problem.known();
        self.decisions.len() as u16
    }

    /// The places, among the lines that touch the block of a decision, of those that may force
    /// something, as it was when it was taken: each other one that could be met then could be so
    /// with either value in each cell beside it that was undecided. `has_place` reads them.
    pub fn doubts(&self, at: u16) -> u64
        requires { at < length self.now.decisions }
        ensures { (d : Decision) → slice_get self.now.decisions at ≡ Some d → LeaveFreeBut
            self.now.problem (decided_by (take (at + 1) self.now.decisions)) d.block result }
    {
        self.doubts[usize::from(at)]
    }

    /// What is decided of a block.
    pub fn value(&self, block: u16) -> Option<bool>
        ensures { result ≡ decided_by self.now.decisions block }
    {
        let number = usize::from(block);
        if number < self.values.len() {
            self.values[number]
        } else {
            None
        }
    }

    /// A line can still be met: some pair of columns beside it that agrees with every decided cell
    /// draws its style.
    pub fn can_meet(&self, line: LineId) -> bool
        requires { IsTrue (has_line self.now.problem.grid line) }
        ensures { IsTrue result ↔ CanBeMet self.now.problem (decided_by self.now.decisions) line }
    {
        let beside = beside_of(self.problem.grid(), line);
        can_be_met(self.columns.as_slice(), beside)
    }

    /// The first line that can't be met.
    pub fn broken_line(&self) -> Option<LineId>
        ensures some { IfSome result
            (IsFirstBroken self.now.problem (decided_by self.now.decisions)) }
        ensures none { (result ≡ None)
            ↔ AllMet self.now.problem (decided_by self.now.decisions) }
    {
        first_broken(self)
    }

    /// Whether the decided solid matches the drawing: what the columns beside each drawn line draw
    /// is looked at anew, and of blank lines what is known. The condition is that every block is
    /// decided.
    pub fn whole_fits(&mut self) -> bool
        requires { AreOnAll self.old.problem.blocks.count self.old.decisions }
        ensures same { self.new ≡ self.old }
        ensures matches { TellsMatching self.old result }
        ensures met { IsTrue result ↔ AllMet self.old.problem (decided_by self.old.decisions) }
    {
        if self.broken_line().is_some() {
            return false;
        }
        self.drawn
            .are_drawn_by(self.columns.as_slice(), self.sides.as_slice())
    }

    /// What is known of a column of a view, by its places to the right and upwards: the cells that
    /// are full for certain, and those that may be full. Bit 0 is the nearest.
    pub fn mask(&self, view: View, right: u8, up: u8) -> (u64, u64)
        requires right { right < view_width (grid_sizes self.now.problem.grid) view }
        requires up { up < view_height (grid_sizes self.now.problem.grid) view }
        ensures within { LiesWithin result.0 result.1 }
        ensures known { (k : ℕ) → known_bits result.0 result.1 (pos k)
            ≡ known_cell self.now.problem.blocks (decided_by self.now.decisions)
            (shown_cell (grid_sizes self.now.problem.grid) view right up (pos k)) }
    {
        let sizes = self.problem.grid().sizes();
        let column = self.columns[number_of_column(
            sizes,
            view,
            usize::from(right),
            usize::from(up),
        )];
        (column.full, column.may)
    }

    /// How many lines the grid has.
    pub fn line_count(&self) -> usize
        ensures { result ≡ length (lines_of self.now.problem.grid) }
    {
        self.sides.len()
    }

    /// A line with what is known of the columns beside it.
    pub fn seen_at(&self, line: LineId) -> SeenLine
        requires { IsTrue (has_line self.now.problem.grid line) }
        ensures line { result.line ≡ line }
        ensures seen { IsSeen self.now.problem (decided_by self.now.decisions) result }
    {
        let beside = beside_of(self.problem.grid(), line);
        seen_line(self.columns.as_slice(), beside)
    }

    /// The line of a number, in the order of all lines, with what is known of the columns beside
    /// it.
    pub fn seen(&self, number: usize) -> SeenLine
        requires { number < length (lines_of self.now.problem.grid) }
        ensures line { (d : LineId)
            → result.line ≡ slice_index_or (lines_of self.now.problem.grid) number d }
        ensures seen { IsSeen self.now.problem (decided_by self.now.decisions) result }
    {
        seen_line(self.columns.as_slice(), self.sides[number])
    }
}

/// Takes back all decisions but the first, so many.
pub fn undo_to(partial: &mut Partial<'_>, mark: u16)
    requires { mark ≤ length partial.old.decisions }
    ensures { partial.new ≡ record {
      problem = partial.old.problem;
      decisions = take mark partial.old.decisions;
    } }
{
    while partial.decided() > mark {
        partial.undo();
    }
}

/// Decides a block, and counts the steps in a ledger of its own.
fn decide_with<L: Ledger>(state: &mut Partial, block: u16, full: bool, blank: Blank)
    requires name { L.name ≡ blank.name }
    requires parts { L.parts ≡ blank.parts }
    requires some { 0 < blank.parts }
    requires there { block < state.old.problem.blocks.count }
    requires open { decided_by state.old.decisions block ≡ None }
    ensures decided { state.new ≡ record {
      problem = state.old.problem;
      decisions = state.old.decisions ++ record { block = block; full = full } ∷ [];
    } }
{
    let mut steps = Steps::<L>::new(blank);
    state.decide_counted(block, full, &mut steps);
}

/// The first line that can't be met.
fn first_broken(state: &Partial) -> Option<LineId>
    ensures { TellsBroken state.now.problem (decided_by state.now.decisions) result }
{
    match least(state.broken.as_slice()) {
        Some(number) => Some(state.sides[number as usize].line),
        None => None,
    }
}
