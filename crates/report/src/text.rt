//! The texts about a search: its end, and pages of what it has found.

ghost use Rattle.std.specs.Prelude.{◌≡◌, ◌++◌, length, IfOk, OnOk};
ghost use Rattle.std.specs.List.{flat_map};
ghost use Rattle.report.specs.Texts.{choice_text, head_text, choice_line, page_text};
ghost use Rattle.report.specs.Texts.{fitting_text, trial_text, no_solid_text, reader_text, refusal_text, stopped_text, yes_text};

use itoa::{Buffer, Integer};
use solid_model::{Choice, EndKind, Ended, Limits, Memory};
use std::alloc::Global;

/// Adds a number in plain decimals; an `Err` is out of memory.
pub fn push_number<I: Integer>(text: &mut Vec<u8>, number: I) -> Result<(), Memory>
    ensures { OnOk result (text.new.items ≡ text.old.items ++ I.text number) }
{
    let mut buffer = Buffer::new();
    text.extend_from_slice(buffer.format(number).as_bytes())?;
    Ok(())
}

/// Adds a choice of blocks, in their order: 1 for a full one, 0 for an empty one.
pub fn push_choice(text: &mut Vec<u8>, choice: &Choice) -> Result<(), Memory>
    ensures { OnOk result (text.new.items ≡ text.old.items ++ choice_text choice.now) }
{
    for block in 0..choice.len() {
        text.push(if choice.get(block) { b'1' } else { b'0' })?;
    }
    Ok(())
}

/// The first line of what is told of a search: `whole S nodes N blocks B`, or `cut nodes L` or
/// `cut solids L`, where L is the limit that is passed. An `Err` is out of memory.
pub fn head_text(
    alloc: Global,
    ended: &Ended,
    limits: Limits,
    blocks: u16,
) -> Result<Vec<u8>, Memory>
    ensures { IfOk result (λ text. text.items ≡ head_text limits ended.now.kind
        (length ended.now.solids) ended.now.opened blocks) }
{
    let mut text = Vec::new(alloc);
    match ended.kind {
        EndKind::Whole => {
            text.extend_from_slice(b"whole ")?;
            push_number(&mut text, ended.solids.len())?;
            text.extend_from_slice(b" nodes ")?;
            push_number(&mut text, ended.opened)?;
            text.extend_from_slice(b" blocks ")?;
            push_number(&mut text, blocks)?;
        }
        EndKind::CutNodes => {
            text.extend_from_slice(b"cut nodes ")?;
            push_number(&mut text, limits.nodes)?;
        }
        EndKind::CutSolids => {
            text.extend_from_slice(b"cut solids ")?;
            push_number(&mut text, limits.solids)?;
        }
    }
    text.extend_from_slice(b"\n")?;
    Ok(text)
}

/// Adds a line that tells a choice.
fn push_choice_line(text: &mut Vec<u8>, choice: &Choice) -> Result<(), Memory>
    ensures { OnOk result (text.new.items ≡ text.old.items ++ choice_line choice.now) }
{
    text.extend_from_slice(b"choice ")?;
    push_choice(text, choice)?;
    text.extend_from_slice(b"\n")?;
    Ok(())
}

/// Adds a line for each choice.
fn push_choice_lines(text: &mut Vec<u8>, choices: &[Choice]) -> Result<(), Memory>
    ensures { OnOk result (text.new.items ≡ text.old.items ++ flat_map choice_line choices.now) }
{
    for choice in choices {
        push_choice_line(text, choice)?;
    }
    Ok(())
}

/// The text of a page, by its number, counted from 1, and how many solids this page and all earlier
/// ones tell: `page P solids N`, and then for each new choice a line `choice C`. An `Err` is out of
/// memory.
pub fn page_text(
    alloc: Global,
    number: u32,
    total: usize,
    more: &[Choice],
) -> Result<Vec<u8>, Memory>
    ensures { IfOk result (λ text. text.items ≡ page_text number total more.now) }
{
    let mut text = Vec::from_slice(alloc, b"page ")?;
    push_number(&mut text, number)?;
    text.extend_from_slice(b" solids ")?;
    push_number(&mut text, total)?;
    text.extend_from_slice(b"\n")?;
    push_choice_lines(&mut text, more)?;
    Ok(text)
}

/// The text that tells that these choices are all, as a log shows: `yes S`, and then for each of them
/// a line `choice C`. An `Err` is out of memory.
pub fn yes_text(alloc: Global, choices: &[Choice]) -> Result<Vec<u8>, Memory>
    ensures { IfOk result (λ text. text.items ≡ yes_text choices.now) }
{
    let mut text = Vec::from_slice(alloc, b"yes ")?;
    push_number(&mut text, choices.len())?;
    text.extend_from_slice(b"\n")?;
    push_choice_lines(&mut text, choices)?;
    Ok(text)
}

/// The text that tells how many of all solids, as a log shows them, fit further views and sections:
/// `yes S of W`, and then for each that fits a line `choice C`. An `Err` is out of memory.
pub fn fitting_text(alloc: Global, all: usize, choices: &[Choice]) -> Result<Vec<u8>, Memory>
    ensures { IfOk result (λ text. text.items ≡ fitting_text all choices.now) }
{
    let mut text = Vec::from_slice(alloc, b"yes ")?;
    push_number(&mut text, choices.len())?;
    text.extend_from_slice(b" of ")?;
    push_number(&mut text, all)?;
    text.extend_from_slice(b"\n")?;
    push_choice_lines(&mut text, choices)?;
    Ok(text)
}

/// The text of a page that a reader has taken from a place on: `reader R page F solids C ends E`,
/// where E is 1 if the list that it saw had no further place, and else 0, and then for each choice a
/// line `choice C`. An `Err` is out of memory.
pub fn reader_text(
    alloc: Global,
    reader: usize,
    from: usize,
    choices: &[Choice],
    ends: bool,
) -> Result<Vec<u8>, Memory>
    ensures { IfOk result (λ text.
        text.items ≡ reader_text reader from choices.now ends) }
{
    let mut text = Vec::from_slice(alloc, b"reader ")?;
    push_number(&mut text, reader)?;
    text.extend_from_slice(b" page ")?;
    push_number(&mut text, from)?;
    text.extend_from_slice(b" solids ")?;
    push_number(&mut text, choices.len())?;
    text.extend_from_slice(if ends { b" ends 1\n" } else { b" ends 0\n" })?;
    push_choice_lines(&mut text, choices)?;
    Ok(text)
}

/// The line that tells that a search was stopped, and how many solids are listed. An `Err` is out of
/// memory.
pub fn stopped_text(alloc: Global, solids: usize) -> Result<Vec<u8>, Memory>
    ensures { IfOk result (λ text. text.items ≡ stopped_text solids) }
{
    let mut text = Vec::from_slice(alloc, b"stopped solids ")?;
    push_number(&mut text, solids)?;
    text.extend_from_slice(b"\n")?;
    Ok(text)
}

/// The line that tells why what stands behind a drawing is refused, by what it should be, the name of
/// what is wrong and the number of the line: `log G3 Unproved line 3`. An `Err` is out of memory.
pub fn refusal_text(alloc: Global, subject: &str, name: &str, line: u32) -> Result<Vec<u8>, Memory>
    ensures { IfOk result (λ text. text.items ≡ refusal_text subject.now name.now line) }
{
    let mut text = Vec::from_slice(alloc, subject.as_bytes())?;
    text.extend_from_slice(b" ")?;
    text.extend_from_slice(name.as_bytes())?;
    text.extend_from_slice(b" line ")?;
    push_number(&mut text, line)?;
    text.extend_from_slice(b"\n")?;
    Ok(text)
}

/// The line that is told of the search of the drawing that is made from a number, which was whole,
/// by the volume of its first solid: `trial N pieces 14 blocks B solids S nodes O volume V`. An
/// `Err` is out of memory.
pub fn trial_text(
    alloc: Global,
    n: u64,
    blocks: u16,
    ended: &Ended,
    volume: u128,
) -> Result<Vec<u8>, Memory>
    ensures { IfOk result (λ text. text.items
        ≡ trial_text n blocks (length ended.now.solids) ended.now.opened volume) }
{
    let mut text = Vec::from_slice(alloc, b"trial ")?;
    push_number(&mut text, n)?;
    text.extend_from_slice(b" pieces 14 blocks ")?;
    push_number(&mut text, blocks)?;
    text.extend_from_slice(b" solids ")?;
    push_number(&mut text, ended.solids.len())?;
    text.extend_from_slice(b" nodes ")?;
    push_number(&mut text, ended.opened)?;
    text.extend_from_slice(b" volume ")?;
    push_number(&mut text, volume)?;
    text.extend_from_slice(b"\n")?;
    Ok(text)
}

/// The line that tells that there is no solid of a number, but only so many: `none K of S`. An
/// `Err` is out of memory.
pub fn no_solid_text(alloc: Global, which: u32, solids: usize) -> Result<Vec<u8>, Memory>
    ensures { IfOk result (λ text. text.items ≡ no_solid_text which solids) }
{
    let mut text = Vec::from_slice(alloc, b"none ")?;
    push_number(&mut text, which)?;
    text.extend_from_slice(b" of ")?;
    push_number(&mut text, solids)?;
    text.extend_from_slice(b"\n")?;
    Ok(text)
}
