//! How the lines of a session are read: word by word, each form by a function of its own.

ghost use Rattle.std.specs.Prelude.{◌≡◌};
ghost use Rattle.query_session.specs.SessionLines.{number_within, page_from, page_of, wait_of, ask_behind, ask_of_line, asking_with, asking_of_line, readers_of_line};

use crate::ask::{Ask, Asking};
use text_lines::{cut, is_word, number};

/// The number that a word is, if it is one of these.
fn number_within(least: usize, most: usize, word: &[u8]) -> Option<usize>
    ensures { result ≡ number_within least most word.now }
{
    let number = number(word)? as usize;
    if least <= number && number <= most {
        Some(number)
    } else {
        None
    }
}

/// A page from a place on, read from its greatest length on.
fn page_from(from: usize, line: &[u8]) -> Option<Ask>
    ensures { result ≡ page_from from line.now }
{
    let most = number_within(1, 256, line)?;
    Some(Ask::Page { from, most })
}

/// A page, read from its place on.
fn page_of(line: &[u8]) -> Option<Ask>
    ensures { result ≡ page_of line.now }
{
    let (word, rest) = cut(line);
    match number_within(0, 65_536, word) {
        None => None,
        Some(from) => match rest {
            None => None,
            Some(rest) => page_from(from, rest),
        },
    }
}

/// A wait, read from the number of solids on.
fn wait_of(line: &[u8]) -> Option<Ask>
    ensures { result ≡ wait_of line.now }
{
    let count = number_within(1, 65_536, line)?;
    Some(Ask::Wait { count })
}

/// What is asked by what begins with a word, read from what stands behind it.
fn ask_behind(word: &[u8], line: &[u8]) -> Option<Ask>
    ensures { result ≡ ask_behind word.now line.now }
{
    if is_word(word, b"page") {
        page_of(line)
    } else if is_word(word, b"wait") {
        wait_of(line)
    } else {
        None
    }
}

/// What is asked of a reader.
fn ask_of_line(line: &[u8]) -> Option<Ask>
    ensures { result ≡ ask_of_line line.now }
{
    let (word, rest) = cut(line);
    match rest {
        None => {
            if is_word(word, b"stop") {
                Some(Ask::Stop)
            } else {
                None
            }
        }
        Some(rest) => ask_behind(word, rest),
    }
}

/// What is asked of this one of so many readers, if there is such a one.
fn asking_with(readers: usize, reader: u64, line: &[u8]) -> Option<Asking>
    ensures { result ≡ asking_with readers reader line.now }
{
    let reader = reader as usize;
    if reader < readers {
        let ask = ask_of_line(line)?;
        Some(Asking { reader, ask })
    } else {
        None
    }
}

/// What a line asks of one of so many readers.
pub fn asking_of_line(readers: usize, line: &[u8]) -> Option<Asking>
    ensures { result ≡ asking_of_line readers line.now }
{
    let (word, rest) = cut(line);
    match number(word) {
        None => None,
        Some(reader) => match rest {
            None => None,
            Some(rest) => asking_with(readers, reader, rest),
        },
    }
}

/// How many readers a first line tells, if it is one.
pub fn readers_of_line(line: &[u8]) -> Option<usize>
    ensures { result ≡ readers_of_line line.now }
{
    let (word, rest) = cut(line);
    match rest {
        None => None,
        Some(rest) => {
            if is_word(word, b"readers") {
                number_within(1, 16, rest)
            } else {
                None
            }
        }
    }
}
