//! A reader of a book.
//!
//! A page is copied after the look, from an edition that the reader shares: so it keeps the writer
//! waiting for a few steps and not for a page. `Memory` of a page stands also for an edition that
//! has as many owners as can be counted. That a receipt is of this book is needed for the return of
//! `learn` alone, and so is no condition.

ghost use Rattle.std.specs.Prelude.{◌≡◌, ◌<◌, ◌↔◌, Some, IsTrue, IfOk, IfSome};
ghost use Rattle.std.specs.Arc.{arc_value};
ghost use Rattle.left_right.specs.Sides.{view};
ghost use Rattle.solution_book.specs.Editions.{EditionParts, Begins, GoesOn, Looked};
ghost use Rattle.solution_book.specs.Pages.{IsPageOf};

use crate::edition::Edition;
use crate::receipt::Receipt;
use crate::rule::{Lens, Looks, OneList, Seen};
use crate::shown::Shown;
use core::mem::replace_with;
use left_right::reader::Reading;
use solid_model::{Choice, Memory, Problem};
use std::alloc::Global;
use std::marker::Model;
use std::sync::{Arc, Wait};

/// A page of the list that was published at one step.
#[derive(Drop)]
pub struct Page {
    /// The place in the list that was asked for, from 0.
    pub from: usize,
    /// The solids from that place on.
    pub solids: Vec<Choice>,
    /// Whether the list has no place after them.
    pub ends_here: bool,
}

/// Takes what is published, as often as it is tried.
fn entered<R: Wait>(rt: &R, lens: Lens) -> Reading<Shown, Seen, OneList>
    ensures edition { (view result.place).edition ≡ Some result.part.value }
    ensures looks { (view lens.place).looks < (view result.place).looks }
    ensures begins { Begins result.part.value (view lens.place).edition }
{
    let mut lens = lens;
    for _ in rt.forever() {
        match lens.enter_as::<Looks>() {
            Ok(reading) => return reading,
            Err(back) => lens = back,
        }
    }
    unreachable!()
}

/// Looks at what is published, and shares it, so that the writer waits for no more than that.
/// `None` where no more owners can be counted.
fn look<R: Wait>(rt: &R, lens: Lens) -> (Lens, Option<Arc<Edition>>)
    ensures { (e : EditionParts) × Looked (view lens.place) (view result.0.place) e
        × IfSome result.1 (λ edition. arc_value edition ≡ e) }
{
    let reading = entered(rt, lens);
    let edition = reading.get().edition();
    edition.known();
    let shared = Arc::try_clone(edition).ok();
    (reading.leave(), shared)
}

/// Looks at what is published, for whether it goes on from an edition.
fn look_for<R: Wait>(rt: &R, lens: Lens, edition: &Edition) -> (Lens, bool)
    ensures { (e : EditionParts) × Looked (view lens.place) (view result.0.place) e
        × (IsTrue result.1 → GoesOn e edition.now) }
{
    let (lens, seen) = look(rt, lens);
    let goes_on = match seen {
        Some(seen) => seen.goes_on(edition),
        None => false,
    };
    (lens, goes_on)
}

/// Looks until what is published goes on from an edition. It takes no memory.
fn learnt<R: Wait>(rt: &R, lens: Lens, edition: &Edition) -> Lens
    ensures { (e : EditionParts) × Looked (view lens.place) (view result.place) e
        × GoesOn e edition.now }
{
    let mut lens = lens;
    for _ in rt.forever() {
        let (back, goes_on) = look_for(rt, lens, edition);
        if goes_on {
            return back;
        }
        lens = back;
    }
    unreachable!()
}

/// Looks at what is published, for its problem.
fn look_for_problem<R: Wait>(rt: &R, lens: Lens, problem: &Problem) -> (Lens, bool)
    ensures { (e : EditionParts) × Looked (view lens.place) (view result.0.place) e
        × (IsTrue result.1 ↔ (e.problem ≡ problem.now)) }
{
    let reading = entered(rt, lens);
    let edition = reading.get().edition();
    edition.known();
    let same = edition.problem().same(problem);
    (reading.leave(), same)
}

/// A page of an edition.
fn page_of(alloc: Global, edition: &Edition, from: usize, most: usize) -> Result<Page, Memory>
    ensures { IfOk result (IsPageOf from most edition.now.solids) }
{
    let solids = edition.solids();
    Ok(Page {
        from,
        solids: solids.part(alloc, from, most)?,
        ends_here: solids.len().saturating_sub(from) <= most,
    })
}

/// Who reads. Contracts see what it knows: the last edition that it has seen or learnt, if any, and
/// how often it has looked.
#[derive(Drop)]
pub struct BookReader<R: Wait + Drop> {
    pub(crate) lens: Lens,
    pub(crate) rt: R,
}

impl<R: Wait + Drop> Model for BookReader<R> {
    ghost use Rattle.left_right.specs.Sides.{view as knows};
    ghost use Rattle.solution_book.specs.Editions.{ReaderParts};

    ghost Value = { ReaderParts };

    ghost view = { λ s. knows s.lens.place };
}

impl<R: Wait + Drop> BookReader<R> {
    ghost use Rattle.std.specs.Prelude.{◌≡◌, ◌↔◌, IsTrue, IfOk};
    ghost use Rattle.solution_book.specs.Editions.{EditionParts, GoesOn, Looked};
    ghost use Rattle.solution_book.specs.Pages.{IsPageOf};

    /// Learns what was published when a receipt was given, which is spent: looks until what is
    /// published goes on from it, as it does at once where the receipt is of this book. Where it
    /// isn't, this may never return. It takes no memory, and may wait.
    pub fn learn(&mut self, receipt: Receipt)
        ensures { (e : EditionParts) × Looked self.old self.new e × GoesOn e receipt }
    {
        let rt = &self.rt;
        replace_with(&mut self.lens, receipt, |lens, receipt| {
            (learnt(rt, lens, &receipt.edition), ())
        })
    }

    /// Whether the book is of this problem. It takes no memory, and may wait.
    pub fn is_of(&mut self, problem: &Problem) -> bool
        ensures { (e : EditionParts) × Looked self.old self.new e
            × (IsTrue result ↔ (e.problem ≡ problem.now)) }
    {
        let rt = &self.rt;
        replace_with(&mut self.lens, problem, |lens, problem| {
            look_for_problem(rt, lens, problem)
        })
    }

    /// The part of the published list from a place on, at most so long. It may wait. An `Err` is
    /// out of memory; the reader keeps all the same what it knows.
    pub fn page(&mut self, alloc: Global, from: usize, most: usize) -> Result<Page, Memory>
        ensures { (e : EditionParts) × Looked self.old self.new e
            × IfOk result (IsPageOf from most e.solids) }
    {
        let rt = &self.rt;
        let Some(edition) = replace_with(&mut self.lens, (), |lens, _| look(rt, lens)) else {
            return Err(Memory);
        };
        page_of(alloc, &edition, from, most)
    }
}
