//! Pages are handed out while workers search.

ghost use Rattle.std.specs.Prelude.{◌≡◌, ◌≤◌, [], length, IsTrue, OnOk, MatchResult};
ghost use Rattle.std.specs.Arc.{arc_value};
ghost use Rattle.search_end.specs.Handed.{BreaksOff, HandsOn, PagesOn};
ghost use Rattle.page_calls.specs.Pages.{CountsFaults};
ghost use Rattle.search_run.specs.HandedOut.{IsReadUpTo};

use crate::workshop::Workshop;
use page_calls::{PageOut, RunFault};
use search_end::{Handed, PAGE};
use solid_model::Problem;
use solution_book::BookReader;
use std::alloc::Global;
use std::sync::Wait;
use tv_base::{Gate, Point};

/// Whether a book is of this problem.
fn is_book_of<B: Wait + Drop>(reader: &mut BookReader<B>, problem: &Problem) -> bool
    ensures { IsTrue result → IsReadUpTo problem.now reader.new [] }
{
    reader.is_of(problem)
}

/// Hands out a page of what is published and not yet handed out, as far as the limit of solids has
/// room. Says whether there was any. An `Err` is that of the page, or out of memory.
fn page_new<B: Wait + Drop, G: Gate, P: PageOut>(
    alloc: Global,
    shop: &Workshop<'_, B, G>,
    reader: &mut BookReader<B>,
    handed: &mut Handed,
    pages: &mut P,
) -> Result<bool, RunFault>
    requires read { IsReadUpTo (arc_value shop.now.problem.now) reader.old handed.old.choices }
    requires few { length handed.old.choices ≤ shop.now.limits.solids }
    ensures read { OnOk result
        (IsReadUpTo (arc_value shop.now.problem.now) reader.new handed.new.choices) }
    ensures few { OnOk result (length handed.new.choices ≤ shop.now.limits.solids) }
    ensures out { MatchResult result
        (λ _. HandsOn (P.calls pages.old) handed.old (P.calls pages.new) handed.new)
        (λ _. BreaksOff (arc_value shop.now.problem.now) shop.now.limits.solids
        (P.calls pages.old) handed.old (P.calls pages.new)) }
    ensures faults { CountsFaults (P.faults pages.old) (P.faults pages.new) result
        RunFault.PageFault }
{
    let from = handed.choices().len();
    let most = PAGE.min(shop.limits.solids as usize - from);
    let Ok(page) = reader.page(alloc, from, most) else {
        return Err(RunFault::Memory);
    };
    let solids = page.solids;
    if solids.is_empty() {
        return Ok(false);
    }
    match handed.hand_out(pages, solids) {
        Ok(()) => Ok(true),
        Err(fault) => Err(fault),
    }
}

/// Goes on to hand out pages while others search, until nothing more will be published. Passes the
/// gate after each page.
fn page_on<B: Wait + Drop, R: Wait, G: Gate, P: PageOut>(
    rt: &R,
    alloc: Global,
    shop: &Workshop<'_, B, G>,
    reader: BookReader<B>,
    handed: Handed,
    pages: &mut P,
) -> Result<Handed, RunFault>
    requires read { IsReadUpTo (arc_value shop.now.problem.now) reader handed.choices }
    requires few { length handed.choices ≤ shop.now.limits.solids }
    ensures paged { PagesOn (arc_value shop.now.problem.now) shop.now.limits.solids
        (P.calls pages.old) handed (P.calls pages.new) result }
    ensures faults { CountsFaults (P.faults pages.old) (P.faults pages.new) result
        RunFault.PageFault }
{
    let mut reader = reader;
    let mut handed = handed;
    let mut seen = 0;
    let mut last = false;
    for _ in rt.forever() {
        match page_new(alloc, shop, &mut reader, &mut handed, pages) {
            Ok(true) => shop.gate.pass(shop.workers, Point::PageWritten),
            Ok(false) => {
                if last {
                    return Ok(handed);
                }
                let news = shop.monitor.wait_for_news(rt, seen);
                seen = news.published;
                last = news.last;
            }
            Err(fault) => return Err(fault),
        }
    }
    unreachable!()
}

/// Hands out pages while others search, by the last of these readers, if its book is of this
/// problem.
pub fn page_all<B: Wait + Drop, R: Wait, G: Gate, P: PageOut>(
    rt: &R,
    alloc: Global,
    shop: &Workshop<'_, B, G>,
    readers: Vec<BookReader<B>>,
    pages: &mut P,
) -> Result<Handed, RunFault>
    ensures paged { PagesOn (arc_value shop.now.problem.now) shop.now.limits.solids
        (P.calls pages.old) record { choices = []; pages = 0 } (P.calls pages.new) result }
    ensures faults { CountsFaults (P.faults pages.old) (P.faults pages.new) result
        RunFault.PageFault }
{
    let mut readers = readers;
    let handed = Handed::new(alloc);
    if !pages.listens() {
        return Ok(handed);
    }
    let Some(mut reader) = readers.pop() else {
        return Ok(handed);
    };
    if !is_book_of(&mut reader, shop.problem) {
        return Ok(handed);
    }
    page_on(rt, alloc, shop, reader, handed, pages)
}
