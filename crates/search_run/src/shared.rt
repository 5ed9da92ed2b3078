//! What the workers of a search share, under their lock.
//!
//! The caller is woken for solids once in 64 reports at most, and at the end, since to wake it
//! takes as long as some reports; the first solid wakes it at once. A page comes some milliseconds
//! later, and has more solids. Two places to wait at one lock, for a change and for solids, so that
//! a report that finds none wakes no caller.

use search_core::{Desk, ReadyReport, Reported};
use search_end::Mark;
use solid_model::{Memory, Prefix};
use solution_book::BookWriter;
use std::alloc::Global;
use std::marker::Model;
use std::sync::Wait;

/// The caller, who hands out solids, is told of new ones after so many reports in which it wasn't:
/// to wake it takes as long as some of them.
const QUIET: u32 = 64;

/// What a report comes to.
#[derive(Drop)]
pub struct Answered {
    /// The rest, of a report that is taken. `None`: the worker is to leave, since the desk has ended
    /// or all are to stop; it signals that change when it leaves. An `Err` is out of memory before
    /// the report is taken.
    pub rest: Result<Option<Vec<Prefix>>, Memory>,
    /// Whether the caller is to be told of solids now.
    pub news: bool,
}

/// The value under the lock: the desk, the writer of its book, how many workers are at work,
/// whether all are to stop, and how many changes were signalled, which goes on from 0 after the
/// greatest `u64`. One hold of the lock makes one report at most. Contracts see it as the desk and
/// the edition that is published.
#[derive(Drop)]
pub struct Shared<B: Wait + Drop> {
    desk: Desk,
    book: BookWriter<B>,
    /// Whether somebody reads the book; else nothing is published.
    is_read: bool,
    /// The marks of the reports that found some choices, as far as there was memory for them.
    marks: Vec<Mark>,
    at_work: u32,
    stop: bool,
    changes: u64,
    /// How many solids were published when the caller was last told.
    told: usize,
    /// How many reports came since.
    quiet: u32,
}

impl<B: Wait + Drop> Model for Shared<B> {
    ghost use Rattle.search_run.specs.Shared.{SharedParts, IsShared};

    ghost Value = { SharedParts };

    ghost view = { λ s. record { desk = s.desk; edition = s.book.edition } };

    ghost invariant = { λ s. IsShared record { desk = s.desk; edition = s.book.edition } };
}

impl<B: Wait + Drop> Shared<B> {
    ghost use Rattle.std.specs.Prelude.{◌≡◌};
    ghost use Rattle.search_run.specs.Shared.{IsShared};

    /// What so many workers share when they start, all of whom count as at work, and whether
    /// somebody reads the book.
    pub fn new(
        alloc: Global,
        desk: Desk,
        book: BookWriter<B>,
        is_read: bool,
        workers: u32,
    ) -> Shared<B>
        requires { IsShared record { desk = desk; edition = book.edition } }
        ensures { result ≡ record { desk = desk; edition = book.edition } }
    {
        Shared {
            desk,
            book,
            is_read,
            marks: Vec::new(alloc),
            at_work: workers,
            stop: false,
            changes: 0,
            told: 0,
            quiet: QUIET,
        }
    }

    /// How many changes were signalled.
    pub fn changes(&self) -> u64 {
        self.changes
    }

    /// Signals a change, and tells how many were signalled.
    pub fn change(&mut self) -> u64 {
        self.changes = self.changes.wrapping_add(1);
        self.changes
    }

    /// How many solids are published.
    pub fn published(&self) -> usize {
        self.book.published()
    }

    /// Whether workers are to leave: the desk has ended, or all are to stop.
    fn is_over(&self) -> bool {
        self.stop || self.desk.end().is_some()
    }

    /// Whether nothing more will be published: it is over, or nobody is at work, who could find
    /// some.
    pub fn is_still(&self) -> bool {
        self.at_work == 0 || self.is_over()
    }

    /// A worker that has found no piece stops counting. Says whether it is to leave, since nothing
    /// more will come: that is a change then.
    pub fn rest(&mut self) -> bool {
        self.at_work = self.at_work.saturating_sub(1);
        let still = self.is_still();
        if still {
            self.change();
        }
        still
    }

    /// It counts again. Tells how many changes were signalled.
    pub fn resume(&mut self) -> u64 {
        self.at_work = self.at_work.saturating_add(1);
        self.changes
    }

    /// A worker that is at work leaves.
    pub fn leave(&mut self) {
        self.at_work = self.at_work.saturating_sub(1);
        self.change();
    }

    /// All are to stop.
    pub fn halt(&mut self) {
        self.stop = true;
        self.change();
    }

    /// Takes a report. An `Err` is out of memory.
    fn note(&mut self, report: ReadyReport) -> Result<Reported, Memory> {
        self.desk.problem().known();
        self.desk.known();
        match self.desk.report_ready(report) {
            Ok(answer) => Ok(answer),
            Err(_) => Err(Memory),
        }
    }

    /// Marks a report of a turn, once it is made, if some choices were found with it.
    fn mark(&mut self, turn: u32) {
        let found = self.desk.found().len();
        let before = match self.marks.last() {
            Some(mark) => mark.found,
            None => 0,
        };
        if before < found {
            let _marked = self.marks.push(Mark { found, turn });
        }
    }

    /// Publishes what is found and not yet published. An `Err` is out of memory.
    fn publish_new(&mut self, alloc: Global) -> Result<(), Memory> {
        self.desk.problem().known();
        let published = self.book.published();
        let found = self.desk.found();
        if published < found.len() {
            self.book.publish(alloc, &found[published..])?;
        }
        Ok(())
    }

    /// Takes a report of a turn and publishes what is new, if somebody reads it. What can't be
    /// published, out of memory, the book lacks from then on, and the desk has. The rest is handed
    /// over, unless the worker is to leave. An `Err` is out of memory before the report is taken.
    fn take_in(
        &mut self,
        alloc: Global,
        report: ReadyReport,
        turn: u32,
    ) -> Result<Option<Vec<Prefix>>, Memory> {
        let answer = self.note(report)?;
        self.mark(turn);
        if self.is_read {
            let _published = self.publish_new(alloc);
        }
        if self.is_over() {
            return Ok(None);
        }
        match answer {
            Reported::Taken { rest } => Ok(Some(rest)),
            _ => Ok(Some(Vec::new(alloc))),
        }
    }

    /// Whether the caller is to be told of solids now, once a report is made: some are published of
    /// which it wasn't told, and it wasn't told of any for some reports.
    fn tell(&mut self) -> bool {
        let published = self.published();
        self.quiet = self.quiet.saturating_add(1);
        if self.quiet < QUIET || self.told == published {
            return false;
        }
        self.told = published;
        self.quiet = 0;
        true
    }

    /// Takes a report of a turn and publishes what is new.
    pub fn report(&mut self, alloc: Global, report: ReadyReport, turn: u32) -> Answered {
        let rest = self.take_in(alloc, report, turn);
        let news = self.tell();
        Answered { rest, news }
    }

    /// The desk and its book, and the marks of its reports.
    pub fn into_parts(self) -> (Desk, BookWriter<B>, Vec<Mark>)
        ensures desk { result.0 ≡ self.desk }
        ensures book { result.1.edition ≡ self.edition }
    {
        let Shared {
            desk,
            book,
            marks,
            ..
        } = self;
        (desk, book, marks)
    }
}
