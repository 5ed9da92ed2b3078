//! The desk of a search.
//!
//! A stranger is told by its grid, since equal grids have equal blocks
//! (`one_numbering_of_components`), whose numbers then aren't compared under the lock. Out of memory
//! comes only where a report would be taken: a stranger's, a late one and one whose piece is gone
//! are told so, whatever memory there is.

ghost use Rattle.std.specs.Prelude.{◌≡◌, Bool, List, length, take};
ghost use Rattle.search_core.specs.Core.{end_after};
ghost use Rattle.search_core.specs.Ledger.{ledger_of, KeepsFrontier};

use crate::copies::Copies;
use crate::ledger::Ledger;
use crate::ready::ReadyReport;
use solid_model::{Choice, EndKind, Expansion, Limits, Memory, Prefix, Problem};
use std::alloc::Global;
use std::marker::Model;
use std::sync::Arc;

/// What a desk answers to a report that it has memory for.
#[derive(Drop)]
pub enum Reported {
    /// The report is taken; its rest is handed over.
    Taken { rest: Vec<Prefix> },
    /// It is of another problem.
    Stranger,
    /// The search has ended.
    Stop,
    /// The piece isn't in the frontier.
    Gone,
}

/// The desk of a search of a problem within limits: what was reported so far, which prefixes are
/// still to be expanded, and what was found. Contracts see it as the history of its reports and as
/// the state of the core that the history leads to.
#[derive(Drop)]
pub struct Desk {
    problem: Arc<Problem>,
    limits: Limits,
    ledger: Ledger,
    opened: u64,
    end: Option<EndKind>,
}

/// How a search stands by its ledger, where so many prefixes were opened.
fn end_after(limits: Limits, ledger: &Ledger, opened: u64) -> Option<EndKind>
    ensures { (frontier : List (List Bool))
        → KeepsFrontier (ledger_of ledger.now).stored (ledger_of ledger.now).counts frontier
        → result ≡ end_after limits (length (ledger_of ledger.now).found) opened frontier }
{
    if ledger.found.len() > limits.solids as usize {
        Some(EndKind::CutSolids)
    } else if opened > limits.nodes {
        Some(EndKind::CutNodes)
    } else {
        match ledger.frontier.first() {
            Some(_) => None,
            None => Some(EndKind::Whole),
        }
    }
}

/// The choices that the limit of solids has room for.
fn shown(found: &[Choice], limits: Limits) -> &[Choice]
    ensures { result.now ≡ take limits.solids found.now }
{
    let most = limits.solids as usize;
    if found.len() > most {
        &found[..most]
    } else {
        found
    }
}

impl Model for Desk {
    ghost use Rattle.search_core.specs.Desk.{DeskParts};

    ghost Value = { DeskParts };

    ghost use Rattle.std.specs.Arc.{arc_value};
    ghost use Rattle.search_core.specs.Ledger.{ledger_of, history_of, desk_of, IsLedgerOf, KnowsFirst};

    ghost view = { λ s. desk_of (arc_value s.problem) s.limits (history_of (ledger_of s.ledger)) };

    ghost invariant = { λ s. KnowsFirst s.ledger
        × IsLedgerOf (arc_value s.problem) s.limits (ledger_of s.ledger) s.opened s.end };
}

impl Desk {
    ghost use Rattle.std.specs.Prelude.{◌≡◌, [], None, MatchOption, MatchResult, IfOk, IfSome};
    ghost use Rattle.std.specs.Arc.{arc_value};
    ghost use Rattle.solid_model.specs.Forcing.{is_live};
    ghost use Rattle.search_core.specs.Copies.{AreCopies};
    ghost use Rattle.search_core.specs.Desk.{IsDesk, IsFirstPiece, Takes};
    ghost use Rattle.search_core.specs.Reported.{IsReported};

    /// The desk of a search that begins. It is told whether the empty prefix is live, which is then
    /// the first to be expanded. An `Err` is out of memory.
    pub fn new(
        alloc: Global,
        problem: Arc<Problem>,
        limits: Limits,
        live: bool,
    ) -> Result<Desk, Memory>
        requires { live ≡ is_live (arc_value problem) [] }
        ensures problem { IfOk result (λ desk. desk.problem ≡ arc_value problem) }
        ensures limits { IfOk result (λ desk. desk.limits ≡ limits) }
        ensures begun { IfOk result (λ desk. desk.history ≡ []) }
        ensures kept { IfOk result IsDesk }
    {
        let ledger = Ledger::new(alloc, live)?;
        let end = if live { None } else { Some(EndKind::Whole) };
        Ok(Desk {
            problem,
            limits,
            ledger,
            opened: 0,
            end,
        })
    }

    /// Answers a report, of which copies may be ready, as [`Desk::report`] does. Its prefixes are
    /// led to by the way of this number.
    fn answer(
        &mut self,
        expansion: Expansion,
        ready: Option<Copies>,
        by: usize,
    ) -> Result<Reported, Expansion>
        requires { IfSome ready (AreCopies expansion.found expansion.rest) }
        ensures answer { MatchResult result (IsReported self.old expansion self.new)
            (λ back. Takes self.old expansion × (back ≡ expansion) × (self.new ≡ self.old)) }
        ensures kept { IsDesk self.new }
    {
        if !self.problem.same(expansion.problem()) {
            return Ok(Reported::Stranger);
        }
        if self.end.is_some() {
            return Ok(Reported::Stop);
        }
        let Some(piece) = self.ledger.frontier_place(expansion.piece(), by) else {
            return Ok(Reported::Gone);
        };
        let Ok(posting) = self
            .ledger
            .prepare(piece, expansion.found(), expansion.rest(), ready, by)
        else {
            return Err(expansion);
        };
        self.ledger.post(piece, expansion.opened(), posting);
        self.opened += u64::from(expansion.opened());
        self.end = end_after(self.limits, &self.ledger, self.opened);
        Ok(Reported::Taken {
            rest: expansion.take_rest(),
        })
    }

    /// Takes a report: its piece is taken out of the frontier, its rest is added, its choices are
    /// found as far as the limit of solids has room, and it stands behind the history. An `Err` is
    /// out of memory, and hands the report back; nothing has changed then.
    pub fn report(&mut self, expansion: Expansion) -> Result<Reported, Expansion>
        ensures answer { MatchResult result (IsReported self.old expansion self.new)
            (λ back. Takes self.old expansion × (back ≡ expansion) × (self.new ≡ self.old)) }
        ensures kept { IsDesk self.new }
    {
        self.answer(expansion, None, 0)
    }

    /// Takes a report that is ready, as [`Desk::report`] takes one.
    pub fn report_ready(&mut self, report: ReadyReport) -> Result<Reported, Expansion>
        ensures answer { MatchResult result (IsReported self.old report self.new)
            (λ back. Takes self.old report × (back ≡ report) × (self.new ≡ self.old)) }
        ensures kept { IsDesk self.new }
    {
        let ReadyReport {
            expansion,
            copies,
            by,
        } = report;
        self.answer(expansion, Some(copies), by)
    }

    /// It stands as its history leaves it.
    pub fn known(&self)
        ensures { IsDesk self.now }
    {
        let _ = &self.end;
    }

    /// How the search has ended, if it has.
    pub fn end(&self) -> Option<EndKind>
        ensures end { result ≡ self.now.end }
        ensures kept { IsDesk self.now }
    {
        self.end
    }

    /// The first piece of the frontier, if there is one: the one that was put there first.
    pub fn first_piece(&self) -> Option<&Prefix>
        ensures piece { MatchOption result (self.now.frontier ≡ [])
            (λ piece. IsFirstPiece self.now piece.now) }
        ensures kept { IsDesk self.now }
    {
        match self.ledger.frontier.first() {
            Some(_) => Some(&self.ledger.first.prefix),
            None => None,
        }
    }

    /// The choices found, as many as the limit of solids has room for, in the order of the reports.
    pub fn found(&self) -> &[Choice]
        ensures found { result.now ≡ self.now.found }
        ensures kept { IsDesk self.now }
    {
        shown(&self.ledger.found, self.limits)
    }

    /// How many prefixes were opened.
    pub fn opened(&self) -> u64
        ensures opened { result ≡ self.now.opened }
        ensures kept { IsDesk self.now }
    {
        self.opened
    }

    /// The problem.
    pub fn problem(&self) -> &Arc<Problem>
        ensures problem { arc_value result.now ≡ self.now.problem }
        ensures kept { IsDesk self.now }
    {
        &self.problem
    }

    /// The limits.
    pub fn limits(&self) -> Limits
        ensures limits { result ≡ self.now.limits }
        ensures kept { IsDesk self.now }
    {
        self.limits
    }
}
