//! The lines of a text.

ghost use Rattle.std.specs.Prelude.{◌≡◌, ℕ, ◌-◌, ◌<◌, ◌≤◌, true, length, take, drop, slice_index, IfSome};
ghost use Rattle.std.specs.List.{after_first, position_or_len, prefix_len, suffix_len};
ghost use Rattle.dxf_groups.specs.LinePlaces.{IsLineAt};
ghost use Rattle.dxf_groups.specs.Spans.{IsSpanIn, span_of};
ghost use Rattle.dxf_groups.specs.TextLines.{content_of, is_blank, is_feed, without_return};

use crate::span::Span;
use memchr::memchr;
use std::simd::prelude::*;

/// A line of a text: where that stands which counts of it, and where the next line begins.
#[derive(Clone, Copy)]
pub struct TextLine {
    pub content: Span,
    pub after: usize,
}

/// How many bytes are looked at together. Most lines are shorter.
const NEAR: usize = 16;

/// Where the first line feed stands, if that is one of the first sixteen bytes of sixteen or more.
#[inline(always)]
fn near_feed(text: &[u8]) -> Option<usize>
    ensures within { IfSome result (λ place. place < length text.now) }
    ensures place { IfSome result (λ place. place ≡ position_or_len is_feed text.now) }
{
    if text.len() < NEAR {
        return None;
    }
    let feeds = u8x16::from_slice(text)
        .simd_eq(u8x16::splat(b'\n'))
        .to_bitmask();
    if feeds == 0 {
        return None;
    }
    Some(feeds.trailing_zeros() as usize)
}

/// How many bytes stand before the first line feed, which may be far. It is a call of its own, so
/// that its vectors take no registers of those who read short lines.
#[cold]
#[inline(never)]
fn far_feed_place(text: &[u8]) -> usize
    ensures within { result ≤ length text.now }
    ensures place { result ≡ position_or_len is_feed text.now }
{
    match memchr(b'\n', text) {
        None => text.len(),
        Some(place) => place,
    }
}

/// How many bytes stand before the first line feed.
#[inline(always)]
pub fn feed_place(text: &[u8]) -> usize
    ensures within { result ≤ length text.now }
    ensures place { result ≡ position_or_len is_feed text.now }
{
    match near_feed(text) {
        None => far_feed_place(text),
        Some(place) => place,
    }
}

/// Where the line behind that begins which begins at `start`, where so many bytes stand before its
/// line feed.
#[inline(always)]
fn behind_feed(text: &[u8], start: usize, feed: usize) -> usize
    requires some { start < length text.now }
    requires within { feed ≤ length (drop start text.now) }
    requires place { feed ≡ position_or_len is_feed (drop start text.now) }
    ensures next { drop result text.now ≡ after_first is_feed (drop start text.now) }
    ensures goes_on { start < result }
    ensures within { result ≤ length text.now }
{
    let end = start + feed;
    if end < text.len() { end + 1 } else { end }
}

/// Where the line behind that begins which begins at `start`.
#[inline(always)]
pub fn next_line_at(text: &[u8], start: usize) -> usize
    requires { start < length text.now }
    ensures next { drop result text.now ≡ after_first is_feed (drop start text.now) }
    ensures goes_on { start < result }
    ensures within { result ≤ length text.now }
{
    behind_feed(text, start, feed_place(&text[start..]))
}

/// The line without the carriage return at its end, if one stands there.
#[inline(always)]
fn without_return(line: &[u8]) -> &[u8]
    ensures { result.now ≡ without_return line.now }
{
    match line {
        [bare @ .., b'\r'] => bare,
        _ => line,
    }
}

/// Whether the byte is a space or a tab.
fn is_blank(byte: u8) -> bool
    ensures { result ≡ is_blank byte }
{
    byte == b' ' || byte == b'\t'
}

/// How many spaces the text begins with, of the first sixteen bytes of sixteen or more.
#[inline(always)]
fn near_spaces(text: &[u8]) -> usize
    ensures within { result ≤ length text.now }
    ensures blank { (k : ℕ) → k < result → is_blank (slice_index text.now k) ≡ true }
{
    if text.len() < NEAR {
        return 0;
    }
    let others = u8x16::from_slice(text)
        .simd_ne(u8x16::splat(b' '))
        .to_bitmask();
    if others == 0 {
        return NEAR;
    }
    others.trailing_zeros() as usize
}

/// How many blanks the line begins with.
fn leading_blanks(line: &[u8]) -> usize
    ensures within { result ≤ length line.now }
    ensures count { result ≡ prefix_len is_blank line.now }
{
    let mut place = 0;
    while place < line.len() && is_blank(line[place]) {
        place += 1;
    }
    place
}

/// How many bytes stand before the blanks that the line ends with.
fn len_before_trailing_blanks(line: &[u8]) -> usize
    ensures { result ≡ length line.now - suffix_len is_blank line.now }
{
    let mut len = line.len();
    while len > 0 && is_blank(line[len - 1]) {
        len -= 1;
    }
    len
}

/// Where what counts of a line stands in it.
fn content_span(line: &[u8]) -> Span
    ensures span { IsSpanIn line.now result }
    ensures content { span_of line.now result ≡ content_of line.now }
{
    let bare = without_return(line);
    let start = leading_blanks(bare);
    let len = len_before_trailing_blanks(&bare[start..]);
    Span {
        start,
        end: start + len,
    }
}

/// The first line of a text: where that stands which counts of it, and its line feed.
#[derive(Clone, Copy)]
struct NearLine {
    content: Span,
    feed: usize,
}

/// The first line of a text, where a look at sixteen bytes tells it: its line feed is one of them,
/// and nothing but spaces stands before what counts, and nothing but a carriage return behind it.
#[inline(always)]
fn near_line(text: &[u8]) -> Option<NearLine>
    ensures within { IfSome result (λ line. line.feed < length text.now) }
    ensures place { IfSome result (λ line. line.feed ≡ position_or_len is_feed text.now) }
    ensures span { IfSome result (λ line. IsSpanIn (take line.feed text.now) line.content) }
    ensures content { IfSome result (λ line. span_of (take line.feed text.now) line.content
        ≡ content_of (take line.feed text.now)) }
{
    let feed = near_feed(text)?;
    let start = near_spaces(text);
    let bare = without_return(&text[..feed]);
    let end = bare.len();
    if start >= end {
        return None;
    }
    // A byte above the space is no blank.
    if bare[start] <= b' ' {
        return None;
    }
    if bare[end - 1] <= b' ' {
        return None;
    }
    Some(NearLine {
        content: Span { start, end },
        feed,
    })
}

/// The line that begins at `start`, where so many bytes stand before its line feed.
#[inline(always)]
fn line_to(text: &[u8], start: usize, feed: usize) -> TextLine
    requires some { start < length text.now }
    requires within { feed ≤ length (drop start text.now) }
    requires place { feed ≡ position_or_len is_feed (drop start text.now) }
    ensures { IsLineAt text.now start result }
{
    let rest = &text[start..];
    let span = content_span(&rest[..feed]);
    let content = Span {
        start: start + span.start,
        end: start + span.end,
    };
    TextLine {
        content,
        after: behind_feed(text, start, feed),
    }
}

/// The line that begins at `start`, whatever it is.
#[inline(always)]
pub fn text_line_at(text: &[u8], start: usize) -> TextLine
    requires { start < length text.now }
    ensures { IsLineAt text.now start result }
{
    line_to(text, start, feed_place(&text[start..]))
}

/// The line that begins at `start`, which a look at sixteen bytes didn't tell. It is a call of its
/// own, since most lines are told by that.
#[cold]
#[inline(never)]
fn other_line_at(text: &[u8], start: usize) -> TextLine
    requires { start < length text.now }
    ensures { IsLineAt text.now start result }
{
    line_to(text, start, far_feed_place(&text[start..]))
}

/// The same as `text_line_at`, quicker where the line is short and has few blanks at its ends.
#[inline(always)]
pub fn near_line_at(text: &[u8], start: usize) -> TextLine
    requires { start < length text.now }
    ensures { IsLineAt text.now start result }
{
    match near_line(&text[start..]) {
        Some(line) => TextLine {
            content: Span {
                start: start + line.content.start,
                end: start + line.content.end,
            },
            after: start + line.feed + 1,
        },
        None => other_line_at(text, start),
    }
}
