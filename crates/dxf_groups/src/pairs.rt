//! The pairs of a text.

ghost use Rattle.std.specs.Prelude.{◌≡◌, ◌<◌, ℤ, Bool, Some, Err, false, length, IfOk, IfSome, MatchResult};
ghost use Rattle.dxf_groups.specs.Codes.{is_comment, is_end};
ghost use Rattle.dxf_groups.specs.Groups.{is_given, wanted_on};
ghost use Rattle.dxf_groups.specs.LinePlaces.{IsCodeLineAt};
ghost use Rattle.dxf_groups.specs.Pairs.{ended};
ghost use Rattle.dxf_groups.specs.ReadPairs.{IsCodeAt, IsPlaceIn, IsReadFrom, IsReading, pairs_at};
ghost use Rattle.dxf_groups.specs.Spans.{IsSpanIn, span_of};

use crate::code_test::CodeTest;
use crate::codes::{COMMENT, code_in_columns, group_code};
use crate::pair::Pair;
use crate::text_lines::{near_line_at, next_line_at, text_line_at};
use solid_model::Fault;

/// A pair, and where the next one begins in the text.
#[derive(Clone, Copy)]
pub struct ReadPair {
    pub pair: Pair,
    pub after: usize,
}

/// Where a pair begins in the text, and the number of its line.
#[derive(Clone, Copy)]
struct PairPlace {
    start: usize,
    line: u32,
}

/// The group code of a pair, and where the line of its value begins.
#[derive(Clone, Copy)]
pub struct CodePlace {
    pub code: i32,
    pub after: usize,
}

/// The group code of a line, where that is one, and where the next line begins.
#[derive(Clone, Copy)]
pub struct CodeLine {
    pub code: Option<i32>,
    pub after: usize,
}

/// The line that begins at `start`, where it is three columns and its line feed.
#[inline(always)]
fn columns_line_at(text: &[u8], start: usize) -> Option<CodeLine>
    requires { start < length text.now }
    ensures { IfSome result (IsCodeLineAt text.now start) }
{
    let line = &text[start..];
    if line.len() < 4 {
        return None;
    }
    if line[3] != b'\n' {
        return None;
    }
    let code = code_in_columns(line[0], line[1], line[2])?;
    Some(CodeLine {
        code: Some(code),
        after: start + 4,
    })
}

/// The same where a carriage return stands between the columns and the line feed.
fn returned_line_at(text: &[u8], start: usize) -> Option<CodeLine>
    requires { start < length text.now }
    ensures { IfSome result (IsCodeLineAt text.now start) }
{
    let line = &text[start..];
    if line.len() < 5 {
        return None;
    }
    if line[3] != b'\r' {
        return None;
    }
    if line[4] != b'\n' {
        return None;
    }
    let code = code_in_columns(line[0], line[1], line[2])?;
    Some(CodeLine {
        code: Some(code),
        after: start + 5,
    })
}

/// The line that begins at `start`, whatever it is, quicker where it is three columns and a carriage
/// return. It is a call of its own, so that it costs nothing where there are none.
#[inline(never)]
fn other_code_line(text: &[u8], start: usize) -> CodeLine
    requires { start < length text.now }
    ensures { IsCodeLineAt text.now start result }
{
    if let Some(line) = returned_line_at(text, start) {
        return line;
    }
    let line = text_line_at(text, start);
    CodeLine {
        code: group_code(&text[line.content.start..line.content.end]),
        after: line.after,
    }
}

/// The line that begins at `start`, with its group code.
#[inline(always)]
fn code_line_at(text: &[u8], start: usize) -> CodeLine
    requires { start < length text.now }
    ensures { IsCodeLineAt text.now start result }
{
    match columns_line_at(text, start) {
        Some(line) => line,
        None => other_code_line(text, start),
    }
}

/// The group code of the pair that begins at `start`, with line `line`. `NoEof` comes at the end
/// of the text, `BadCode` where the line is no group code, and `NoValue` where no line follows it.
#[inline(always)]
fn code_at(text: &[u8], start: usize, line: u32) -> Result<CodePlace, Fault>
    requires { IsPlaceIn text.now start line }
    ensures { MatchResult result (IsCodeAt text.now start)
        (λ fault. pairs_at text.now start line ≡ ended (Err fault)) }
{
    if start == text.len() {
        return Err(Fault::NoEof { line });
    }
    let code_line = code_line_at(text, start);
    let Some(code) = code_line.code else {
        return Err(Fault::BadCode { line });
    };
    if code_line.after == text.len() {
        return Err(Fault::NoValue { line });
    }
    Ok(CodePlace {
        code,
        after: code_line.after,
    })
}

/// The pair that begins at `start`, with line `line` and this code.
#[inline(always)]
fn pair_at(text: &[u8], start: usize, line: u32, read: CodePlace) -> ReadPair
    requires place { IsPlaceIn text.now start line }
    requires code { IsCodeAt text.now start read }
    ensures read { IsReadFrom text.now (pairs_at text.now start line) result }
    ensures code { result.pair.code ≡ read.code }
{
    let value_line = near_line_at(text, read.after);
    ReadPair {
        pair: Pair {
            code: read.code,
            value: value_line.content,
            line,
        },
        after: value_line.after,
    }
}

/// Where the next pair begins behind the one that begins at `start`, with line `line` and this
/// code. What counts of its value isn't found.
#[inline(always)]
fn place_behind(text: &[u8], start: usize, line: u32, read: CodePlace) -> PairPlace
    requires place { IsPlaceIn text.now start line }
    requires code { IsCodeAt text.now start read }
    ensures place { IsPlaceIn text.now result.start result.line }
    ensures goes_on { start < result.start }
    ensures passed { (wanted : ℤ → Bool) → is_given wanted read.code ≡ false
        → wanted_on wanted (pairs_at text.now start line)
        ≡ wanted_on wanted (pairs_at text.now result.start result.line) }
{
    PairPlace {
        start: next_line_at(text, read.after),
        line: line + 2,
    }
}

/// Whether a reader gives a pair with this code: it is no comment's, and 0 or wanted.
#[inline(always)]
fn is_given<T: CodeTest>(test: &T, code: i32) -> bool
    ensures { result ≡ is_given (T.wanted test.now) code }
{
    code != COMMENT && (code == 0 || test.wants(code))
}

/// The first pair from `start` on that is no comment and has code 0 or one that is wanted; the line
/// there is line `line`. The faults are those of `code_at`.
#[inline(always)]
pub fn pair_from<T: CodeTest>(
    text: &[u8],
    start: usize,
    line: u32,
    test: &T,
) -> Result<ReadPair, Fault>
    requires { IsPlaceIn text.now start line }
    ensures read { IsReading text.now
        (wanted_on (T.wanted test.now) (pairs_at text.now start line)) result }
    ensures kept { IfOk result (λ read. is_comment read.pair.code ≡ false) }
{
    let mut place = PairPlace { start, line };
    loop {
        let read = code_at(text, place.start, place.line)?;
        if is_given(test, read.code) {
            return Ok(pair_at(text, place.start, place.line, read));
        }
        place = place_behind(text, place.start, place.line, read);
    }
}

/// Whether the pair ends the text.
pub fn is_end(text: &[u8], pair: &Pair) -> bool
    requires { IsSpanIn text.now pair.now.value }
    ensures { result ≡ is_end pair.now.code (span_of text.now pair.now.value) }
{
    pair.code == 0 && text[pair.value.start..pair.value.end].eq_ignore_ascii_case(b"EOF")
}
