//! What doesn't change while blocks are decided.

ghost use Rattle.std.specs.Prelude.{◌≡◌, ◌<◌, IsTrue};
ghost use Rattle.line_demands.specs.Plans.{ends_with};
ghost use Rattle.lemmas.specs.Counts.{times_listed};

use crate::spans::Span;
use solid_model::Memory;
use std::alloc::Global;
use std::marker::Model;

/// The cells of a block, by columns.
#[derive(Debug, Drop)]
pub struct SpanList {
    items: Vec<Span>,
}

impl Model for SpanList {
    ghost use Rattle.std.specs.Prelude.{List};
    ghost use Rattle.line_demands.specs.declared.spans.Span.{Span};

    ghost Value = { List Span };

    ghost view = { λ s. s.items.items };
}

impl SpanList {
    ghost use Rattle.std.specs.Prelude.{◌≡◌, ◌==◌, ◌<◌, ◌&&◌, ◌||◌, ℕ, [], IfOk};
    ghost use Rattle.line_demands.specs.Spans.{is_on, AreAdded};

    /// None yet.
    pub fn new(alloc: Global) -> SpanList
        ensures { result ≡ [] }
    {
        SpanList {
            items: Vec::new(alloc),
        }
    }

    /// One cell more. At an `Err` memory ran out.
    pub fn add(&mut self, column: u32, depth: usize) -> Result<(), Memory>
        requires { depth < 64 }
        ensures { IfOk result (λ _. AreAdded column depth self.old self.new) }
    {
        let cells: u64 = 1 << depth;
        match self.items.pop() {
            Some(last) => {
                if last.column == column {
                    self.items.push_reserved(Span {
                        column,
                        cells: last.cells | cells,
                    });
                    return Ok(());
                }
                self.items.push_reserved(last);
            }
            None => {}
        }
        self.items.push(Span { column, cells })?;
        Ok(())
    }

    /// The spans, in the order in which their columns came.
    pub fn as_slice(&self) -> &[Span]
        ensures { result.now ≡ self.now }
    {
        self.items.as_slice()
    }
}

/// The numbers of the lines that touch a block.
#[derive(Debug, Drop)]
pub struct LineList {
    items: Vec<u32>,
}

impl Model for LineList {
    ghost use Rattle.std.specs.Prelude.{List, ℕ};

    ghost Value = { List ℕ };

    ghost view = { λ s. s.items.items };
}

impl LineList {
    ghost use Rattle.std.specs.Prelude.{◌≡◌, [], IfOk};
    ghost use Rattle.line_demands.specs.Plans.{IsAddedOnce, add_last};

    /// None yet.
    pub fn new(alloc: Global) -> LineList
        ensures { result ≡ [] }
    {
        LineList {
            items: Vec::new(alloc),
        }
    }

    /// One line more, unless it is the last. At an `Err` memory ran out.
    pub fn add_once(&mut self, line: u32) -> Result<(), Memory>
        ensures once { IfOk result (λ _. IsAddedOnce line self.old self.new) }
        ensures last { IfOk result (λ _. self.new ≡ add_last self.old line) }
    {
        if ends_in(self.items.as_slice(), line) {
            return Ok(());
        }
        self.items.push(line)?;
        Ok(())
    }

    /// The numbers, in the order in which they came.
    pub fn as_slice(&self) -> &[u32]
        ensures { result.now ≡ self.now }
    {
        self.items.as_slice()
    }
}

/// The number is the last of some.
fn ends_in(numbers: &[u32], number: u32) -> bool
    ensures there { IsTrue result → 0 < times_listed number numbers.now }
    ensures last { result ≡ ends_with numbers.now number }
{
    !numbers.is_empty() && numbers[numbers.len() - 1] == number
}
