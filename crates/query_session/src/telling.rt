//! What a reader tells at last.

ghost use Rattle.std.specs.Prelude.{◌≡◌, ℕ, Bool, List, IfOk};
ghost use Rattle.solid_model.specs.Blocks.{ProblemParts};
ghost use Rattle.solution_book.specs.Editions.{ReaderParts};
ghost use Rattle.solution_book.specs.Pages.{IsPageOf};
ghost use Rattle.query_session.specs.declared.ask.Ask.{Ask};
ghost use Rattle.query_session.specs.Tales.{AreTaken, IsReaderOf, IsTale};

use crate::ask::ReaderTale;
use solid_model::{Choice, Memory};
use solution_book::{BookReader, Page};
use std::alloc::Global;
use std::sync::Wait;

/// The list of which a page, from its first place on, is the whole. An `Err`, where the list goes
/// on behind the page, counts as out of memory: no list is longer than the longest page.
fn whole_of(page: Page) -> Result<Vec<Choice>, Memory>
    ensures { IfOk result (λ all. (most : ℕ) (list : List (List Bool))
        → IsPageOf 0 most list page → all.items ≡ list) }
{
    if page.ends_here {
        Ok(page.solids)
    } else {
        Err(Memory)
    }
}

/// The tale of a reader that has taken these pages: it takes the whole list that is published now.
/// It may wait. An `Err` is out of memory.
pub fn tale_of<B: Wait + Drop>(
    alloc: Global,
    reader: &mut BookReader<B>,
    pages: Vec<Page>,
) -> Result<ReaderTale, Memory>
    ensures { IfOk result (λ tale. (p : ProblemParts) (before : ReaderParts) (script : List Ask)
        → IsReaderOf p before → AreTaken before script pages.items reader.old
        → IsTale p script tale) }
{
    let page = reader.page(alloc, 0, usize::MAX)?;
    let last = whole_of(page)?;
    Ok(ReaderTale { pages, last })
}
