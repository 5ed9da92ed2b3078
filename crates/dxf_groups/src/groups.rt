//! The reader that gives the pairs of a text. The reader of `dxf_entities` makes lines of pairs.
//!
//! A pair is read at a place in the text; its value is a span, and nothing is copied. `next` is
//! inlined where it is called, since its answer would go through memory for each pair.

ghost use Rattle.std.specs.Prelude.{◌≡◌, ◌↔◌, ◌≤◌, length, drop, Some, None, IfSome};
ghost use Rattle.dxf_groups.specs.Groups.{GroupsState, Gives, wanted_on};
ghost use Rattle.dxf_groups.specs.Pairs.{pairs_of, rest_of_text, without_mark};
ghost use Rattle.dxf_groups.specs.Spans.{IsSpanIn, span_of};
ghost use Rattle.solid_model.specs.Limits.{most_text_bytes};

use crate::code_test::CodeTest;
use crate::pair::Pair;
use crate::pairs::{is_end, pair_from};
use solid_model::Fault;
use std::marker::Model;

/// A reader of the pairs of an ASCII DXF text (Autodesk's DXF Reference): a group code on a line,
/// and its value on the next. A mark of UTF-8 before the text is skipped, once. Of each line one
/// carriage return at its end doesn't count, nor do blanks (spaces and tabs) at both ends then.
/// Comments, which have group code 999, are passed over. The pair of group code 0 and value EOF, in
/// any case, ends the text, and bytes after it are never looked at.
#[derive(Drop)]
pub struct Groups {
    text: Vec<u8>,
    place: usize,
    line: u32,
    ending: Option<Result<u32, Fault>>,
}

impl Model for Groups {
    ghost use Rattle.dxf_groups.specs.Groups.{GroupsState};

    ghost Value = { GroupsState };

    ghost use Rattle.dxf_groups.specs.ReadPairs.{StandsIn, left_from, end_line_of};

    ghost view = { λ g. record {
      text = g.text.items;
      left = left_from g.text.items g.place g.line g.ending;
      end_line = end_line_of g.ending;
    } };

    ghost invariant = { λ g. StandsIn g.text.items g.place g.line g.ending };
}

/// How many bytes the mark of UTF-8 takes that the text may begin with: three or none.
fn mark_len(text: &[u8]) -> usize
    ensures within { result ≤ length text.now }
    ensures rest { drop result text.now ≡ without_mark text.now }
{
    if text.starts_with(b"\xEF\xBB\xBF") {
        3
    } else {
        0
    }
}

impl Groups {
    /// A reader of the whole text.
    #[tactic(auto, unfolding(crate::specs::Pairs::pairs_of))]
    pub fn new(text: Vec<u8>) -> Groups
        requires { length text.items ≤ most_text_bytes }
        ensures { result
            ≡ record { text = text.items; left = pairs_of text.items; end_line = None } }
    {
        let place = mark_len(&text);
        let ending = if text[place..].starts_with(b"AutoCAD Binary DXF") {
            Some(Err(Fault::Binary { line: 1 }))
        } else {
            None
        };
        Groups {
            text,
            place,
            line: 1,
            ending,
        }
    }

    /// The next pair with group code 0 or one that is wanted; None once the end pair was read, and
    /// at every later call. Pairs with other codes are passed over, and what counts of their values
    /// isn't found; so are comments. A fault comes again at every later call: `Binary` where the
    /// text begins as a binary DXF file does; `BadCode` where a pair should begin and the line is
    /// anything but a minus sign or none and one to four digits; `NoValue` where the text ends
    /// after a group code; `NoEof` where a pair should begin and the text is at its end. It copies
    /// nothing and takes no memory, and over all calls each byte of the text is looked at no more
    /// than eight times.
    #[inline(always)]
    pub fn next<T: CodeTest>(&mut self, test: &T) -> Result<Option<Pair>, Fault>
        ensures { Gives
            (record self.old { left = wanted_on (T.wanted test.now) self.old.left })
            result self.new }
    {
        match self.ending {
            Some(Ok(_)) => return Ok(None),
            Some(Err(fault)) => return Err(fault),
            None => {}
        }
        let text = self.text.as_slice();
        let read = match pair_from(text, self.place, self.line, test) {
            Ok(read) => read,
            Err(fault) => {
                self.ending = Some(Err(fault));
                return Err(fault);
            }
        };
        self.place = read.after;
        self.line = read.pair.line + 2;
        if is_end(text, &read.pair) {
            self.ending = Some(Ok(read.pair.line));
            return Ok(None);
        }
        Ok(Some(read.pair))
    }

    /// The number of the line of the end pair's code; None where the end pair wasn't read.
    pub fn end_line(&self) -> Option<u32>
        ensures { result ≡ self.now.end_line }
    {
        self.ending?.ok()
    }

    /// The place after the line of the end pair's value; None where the end pair wasn't read.
    pub fn after_end(&self) -> Option<usize>
        ensures read { (result ≡ None) ↔ (self.now.end_line ≡ None) }
        ensures within { IfSome result (λ place. place ≤ length self.now.text) }
        ensures rest { IfSome result (λ place. rest_of_text self.now.text
            ≡ Some (drop place self.now.text)) }
    {
        self.end_line()?;
        Some(self.place)
    }

    /// The value of a pair that this reader gave.
    pub fn value_of(&self, pair: &Pair) -> &[u8]
        requires { IsSpanIn self.now.text pair.now.value }
        ensures { result.now ≡ span_of self.now.text pair.now.value }
    {
        &self.text[pair.value.start..pair.value.end]
    }

    /// The whole text, back from the reader.
    pub fn into_text(self) -> Vec<u8>
        ensures { result.items ≡ self.text }
    {
        self.text
    }
}
