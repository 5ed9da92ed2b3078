//! The lines of a log, put behind a text.

ghost use Rattle.std.specs.Prelude.{◌≡◌, ◌++◌, ◌+◌, ◌≤◌, length, decimal, OnOk};
ghost use Rattle.completeness_logs.specs.LogTexts.{closing_line, entry_line, full_word, opening_line, place_words, upright_word, view_word};
ghost use Rattle.text_lines.specs.Words.{joined};
ghost use Rattle.proof_log.specs.Lines.{fed};

use completeness_logs::{LinePlace, LogEntry};
use itoa::Buffer;
use solid_model::View;
use std::alloc::AllocError;

/// Adds a number.
fn push_number(text: &mut Vec<u8>, number: u64) -> Result<(), AllocError>
    ensures text { OnOk result (text.new.items ≡ text.old.items ++ decimal number) }
    ensures few { OnOk result (length text.new.items ≤ length text.old.items + 40) }
{
    let mut buffer = Buffer::new();
    text.extend_from_slice(buffer.format(number).as_bytes())?;
    Ok(())
}

/// The word for a view.
fn view_word(view: View) -> &'static [u8]
    ensures text { result.now ≡ view_word view }
    ensures few { length result.now ≤ 5 }
{
    match view {
        View::Front => b"front",
        View::Top => b"top",
        View::Side => b"side",
    }
}

/// The word for upright, or level.
fn upright_word(upright: bool) -> &'static [u8]
    ensures text { result.now ≡ upright_word upright }
    ensures few { length result.now ≤ 1 }
{
    if upright { b"u" } else { b"l" }
}

/// The word for full, or empty.
fn full_word(full: bool) -> &'static [u8]
    ensures text { result.now ≡ full_word full }
    ensures few { length result.now ≤ 1 }
{
    if full { b"1" } else { b"0" }
}

/// Adds the words for where a line of a grid stands.
fn push_place(text: &mut Vec<u8>, place: LinePlace) -> Result<(), AllocError>
    ensures text { OnOk result (text.new.items ≡ text.old.items ++ joined (place_words place)) }
    ensures few { OnOk result (length text.new.items ≤ length text.old.items + 100) }
{
    text.extend_from_slice(view_word(place.view))?;
    text.extend_from_slice(b" ")?;
    text.extend_from_slice(upright_word(place.upright))?;
    text.extend_from_slice(b" ")?;
    push_number(text, place.at)?;
    text.extend_from_slice(b" ")?;
    push_number(text, place.cell)
}

/// Adds what an entry says.
fn push_words(text: &mut Vec<u8>, entry: LogEntry) -> Result<(), AllocError>
    ensures text { OnOk result (text.new.items ≡ text.old.items ++ entry_line entry) }
    ensures few { OnOk result (length text.new.items ≤ length text.old.items + 200) }
{
    match entry {
        LogEntry::Fail(place) => {
            text.extend_from_slice(b"fail ")?;
            push_place(text, place)
        }
        LogEntry::Whole => { text.extend_from_slice(b"solid") }
        LogEntry::Force(block, full, place) => {
            text.extend_from_slice(b"force ")?;
            push_number(text, block)?;
            text.extend_from_slice(b" ")?;
            text.extend_from_slice(full_word(full))?;
            text.extend_from_slice(b" ")?;
            push_place(text, place)
        }
        LogEntry::Split(block) => {
            text.extend_from_slice(b"split ")?;
            push_number(text, block)
        }
    }
}

/// Adds the line of an entry.
pub fn push_entry(text: &mut Vec<u8>, entry: LogEntry) -> Result<(), AllocError>
    ensures text { OnOk result (text.new.items ≡ text.old.items ++ fed (entry_line entry)) }
    ensures few { OnOk result (length text.new.items ≤ length text.old.items + 201) }
{
    push_words(text, entry)?;
    text.extend_from_slice(b"\n")
}

/// Adds the first line of a log, for a problem of so many blocks.
pub fn push_opening(text: &mut Vec<u8>, blocks: u64) -> Result<(), AllocError>
    ensures text { OnOk result (text.new.items ≡ text.old.items ++ fed (opening_line blocks)) }
    ensures few { OnOk result (length text.new.items ≤ length text.old.items + 54) }
{
    text.extend_from_slice(b"log 1 blocks ")?;
    push_number(text, blocks)?;
    text.extend_from_slice(b"\n")?;
    Ok(())
}

/// Adds the last line of a log that lists so many solids.
pub fn push_closing(text: &mut Vec<u8>, solids: u64) -> Result<(), AllocError>
    ensures text { OnOk result (text.new.items ≡ text.old.items ++ fed (closing_line solids)) }
    ensures few { OnOk result (length text.new.items ≤ length text.old.items + 45) }
{
    text.extend_from_slice(b"end ")?;
    push_number(text, solids)?;
    text.extend_from_slice(b"\n")
}
