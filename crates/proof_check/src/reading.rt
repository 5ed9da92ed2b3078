//! How the lines of a log are read: word by word, each form by a function of its own.

ghost use Rattle.std.specs.Prelude.{◌≡◌};
ghost use Rattle.proof_check.specs.LogLines.{view_of_word, place_with, place_along, place_seen_in, place_named, force_with, force_on, force_of, fail_of, split_of, entry_behind, entry_of_line, closing_count, opening_count};

use completeness_logs::{LinePlace, LogEntry};
use solid_model::View;
use text_lines::{cut, either, is_word, number};

/// The view that a word names.
fn view_of_word(word: &[u8]) -> Option<View>
    ensures { result ≡ view_of_word word.now }
{
    if is_word(word, b"front") {
        Some(View::Front)
    } else if is_word(word, b"top") {
        Some(View::Top)
    } else if is_word(word, b"side") {
        Some(View::Side)
    } else {
        None
    }
}

/// Where a line of the grid stands, read from the index of its cell on.
fn place_with(view: View, upright: bool, at: u64, line: &[u8]) -> Option<LinePlace>
    ensures { result ≡ place_with view upright at line.now }
{
    match number(line) {
        None => None,
        Some(cell) => Some(LinePlace {
            view,
            upright,
            at,
            cell,
        }),
    }
}

/// Where it stands, read from the index of its position on.
fn place_along(view: View, upright: bool, line: &[u8]) -> Option<LinePlace>
    ensures { result ≡ place_along view upright line.now }
{
    let (word, rest) = cut(line);
    match number(word) {
        None => None,
        Some(at) => match rest {
            None => None,
            Some(rest) => place_with(view, upright, at, rest),
        },
    }
}

/// Where it stands, read from the word on that says whether it is upright.
fn place_seen_in(view: View, line: &[u8]) -> Option<LinePlace>
    ensures { result ≡ place_seen_in view line.now }
{
    let (word, rest) = cut(line);
    match either(word, b"l", b"u") {
        None => None,
        Some(upright) => match rest {
            None => None,
            Some(rest) => place_along(view, upright, rest),
        },
    }
}

/// Where it stands, read from its view on.
fn place_named(line: &[u8]) -> Option<LinePlace>
    ensures { result ≡ place_named line.now }
{
    let (word, rest) = cut(line);
    match view_of_word(word) {
        None => None,
        Some(view) => match rest {
            None => None,
            Some(rest) => place_seen_in(view, rest),
        },
    }
}

/// A block that is forced, read from the place of the line on.
fn force_with(block: u64, full: bool, line: &[u8]) -> Option<LogEntry>
    ensures { result ≡ force_with block full line.now }
{
    match place_named(line) {
        None => None,
        Some(place) => Some(LogEntry::Force(block, full, place)),
    }
}

/// A block that is forced, read from its value on.
fn force_on(block: u64, line: &[u8]) -> Option<LogEntry>
    ensures { result ≡ force_on block line.now }
{
    let (word, rest) = cut(line);
    match either(word, b"0", b"1") {
        None => None,
        Some(full) => match rest {
            None => None,
            Some(rest) => force_with(block, full, rest),
        },
    }
}

/// A block that is forced, read from its number on.
fn force_of(line: &[u8]) -> Option<LogEntry>
    ensures { result ≡ force_of line.now }
{
    let (word, rest) = cut(line);
    match number(word) {
        None => None,
        Some(block) => match rest {
            None => None,
            Some(rest) => force_on(block, rest),
        },
    }
}

/// A line that fails, read from its place on.
fn fail_of(line: &[u8]) -> Option<LogEntry>
    ensures { result ≡ fail_of line.now }
{
    match place_named(line) {
        None => None,
        Some(place) => Some(LogEntry::Fail(place)),
    }
}

/// A split, read from the number of its block on.
fn split_of(line: &[u8]) -> Option<LogEntry>
    ensures { result ≡ split_of line.now }
{
    match number(line) {
        None => None,
        Some(block) => Some(LogEntry::Split(block)),
    }
}

/// The entry that begins with a word, read from what stands behind it.
fn entry_behind(word: &[u8], line: &[u8]) -> Option<LogEntry>
    ensures { result ≡ entry_behind word.now line.now }
{
    if is_word(word, b"fail") {
        fail_of(line)
    } else if is_word(word, b"force") {
        force_of(line)
    } else if is_word(word, b"split") {
        split_of(line)
    } else {
        None
    }
}

/// The entry of a line, if it has one.
pub fn entry_of_line(line: &[u8]) -> Option<LogEntry>
    ensures { result ≡ entry_of_line line.now }
{
    let (word, rest) = cut(line);
    match rest {
        None => {
            if is_word(word, b"solid") {
                Some(LogEntry::Whole)
            } else {
                None
            }
        }
        Some(rest) => entry_behind(word, rest),
    }
}

/// The number of solids that a last line tells, if it is one.
pub fn closing_count(line: &[u8]) -> Option<u64>
    ensures { result ≡ closing_count line.now }
{
    let (word, rest) = cut(line);
    match rest {
        None => None,
        Some(rest) => {
            if is_word(word, b"end") {
                number(rest)
            } else {
                None
            }
        }
    }
}

/// The number of blocks that a first line tells, if it is one.
pub fn opening_count(line: &[u8]) -> Option<u64>
    ensures { result ≡ opening_count line.now }
{
    if line.len() < 13 {
        return None;
    }
    let (first, rest) = line.split_at(13);
    if is_word(first, b"log 1 blocks ") {
        return number(rest);
    }
    None
}
