//! A reader does what it is asked.

ghost use Rattle.std.specs.Prelude.{◌≡◌, ◌++◌, ◌∷◌, [], List, IfOk, OnOk};
ghost use Rattle.solution_book.specs.declared.reader.Page.{Page};
ghost use Rattle.query_session.specs.Tales.{AreTaken};

use crate::ask::{Ask, Waiter};
use solid_model::Memory;
use solution_book::{BookReader, Page};
use std::alloc::Global;
use std::sync::Wait;

/// Does one thing that a reader is asked, and keeps the page. An `Err` is out of memory.
fn do_one<R: Wait, B: Wait + Drop, W: Waiter>(
    rt: &R,
    alloc: Global,
    reader: &mut BookReader<B>,
    ask: Ask,
    waiter: &W,
    pages: &mut Vec<Page>,
) -> Result<(), Memory>
    ensures { OnOk result ((more : List Page) × (pages.new.items ≡ pages.old.items ++ more)
        × AreTaken reader.old (ask ∷ []) more reader.new) }
{
    match ask {
        Ask::Page { from, most } => {
            let page = reader.page(alloc, from, most)?;
            pages.push(page)?;
        }
        Ask::Wait { count } => waiter.wait_for(rt, count),
        Ask::Stop => waiter.stop(rt),
    }
    Ok(())
}

/// A reader does what its script asks, and answers its pages, in order: each is a page of an
/// edition that goes on from those that the reader knew before. It may wait. An `Err` is out of
/// memory.
pub fn play<R: Wait, B: Wait + Drop, W: Waiter>(
    rt: &R,
    alloc: Global,
    reader: &mut BookReader<B>,
    script: &[Ask],
    waiter: &W,
) -> Result<Vec<Page>, Memory>
    ensures { IfOk result (λ pages. AreTaken reader.old script.now pages.items reader.new) }
{
    let mut pages = Vec::new(alloc);
    for ask in script {
        do_one(rt, alloc, reader, *ask, waiter, &mut pages)?;
    }
    Ok(pages)
}
