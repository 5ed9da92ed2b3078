//! The page that is written next.

ghost use Rattle.std.specs.Prelude.{◌≡◌, ℕ, ◌≤◌, IfOk, OnOk, OnErr, IsErrOf};
ghost use Rattle.std.specs.Io.KnownBytes.{Appends};
ghost use Rattle.page_calls.specs.Those.{AreThose};
ghost use Rattle.sink_pages.specs.Next.{IsNext};
ghost use Rattle.sink_pages.specs.PageTexts.{Page};
ghost use Rattle.tv_base.specs.Faults.{Rose};
ghost use Rattle.tv_base.specs.Pieces.{AppendsPrefix};
ghost use Rattle.tv_base.specs.declared.sink.SinkError.TheVariants as sink_error;

use page_calls::{Sieve, sift};
use report::page_text;
use solid_model::{Choice, Memory};
use std::alloc::Global;
use tv_base::{Sink, SinkError};

/// How many pages are written with the next one, how many choices they have, and its text: none
/// where no choice of it fits.
#[derive(Drop)]
pub struct Next {
    pub number: u32,
    pub total: usize,
    pub text: Vec<u8>,
}

/// What is written of a page, after so many pages with so many choices: of its choices those that
/// fit. An `Err` is out of memory, or out of numbers.
pub fn next_page<S: Sieve>(
    alloc: Global,
    sieve: &mut S,
    number: u32,
    total: usize,
    more: &[Choice],
) -> Result<Next, Memory>
    ensures next { IfOk result (λ next. (kept : Page)
        × AreThose (S.fits sieve.old) more.now kept × IsNext number total kept next) }
    ensures same { sieve.new ≡ sieve.old }
{
    let kept = sift(alloc, sieve, more)?;
    if kept.is_empty() {
        let text = Vec::new(alloc);
        return Ok(Next {
            number,
            total,
            text,
        });
    }
    let Some(number) = number.checked_add(1) else {
        return Err(Memory);
    };
    let Some(total) = total.checked_add(kept.len()) else {
        return Err(Memory);
    };
    let text = page_text(alloc, number, total, kept.as_slice())?;
    Ok(Next {
        number,
        total,
        text,
    })
}

/// Writes it in one call, or, where it has no text, in none.
pub fn write_next<K: Sink>(next: &Next, sink: &mut K) -> Result<(), SinkError>
    ensures later { K.faults sink.old ≤ K.faults sink.new }
    ensures written { OnOk result (Appends (K.held sink.old) (K.held sink.new)
        next.now.text.items) }
    ensures prefix { OnErr result (AppendsPrefix (K.held sink.old) (K.held sink.new)
        next.now.text.items) }
    ensures failed { IsErrOf result sink_error.Failed
        → Rose (K.faults sink.old) (K.faults sink.new) }
{
    if next.text.is_empty() {
        return Ok(());
    }
    sink.write_all(next.text.as_slice())
}
