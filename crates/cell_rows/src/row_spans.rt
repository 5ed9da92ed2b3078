//! The spans of rows of cells, and the words that a choice fills of them.

ghost use Rattle.std.specs.Prelude.{◌≡◌, ℕ, map, IfOk};
ghost use Rattle.cell_rows.specs.Spans.{is_filled, AreFillable};
ghost use Rattle.lemmas.specs.Bits.{is_set};

use crate::span::Span;
use solid_model::{Choice, Memory};
use std::alloc::Global;
use std::marker::Model;

/// The spans of each of some rows, and the places of the rows that have some: of the others no
/// choice fills anything. Contracts see the spans.
#[derive(Debug, Drop)]
pub struct RowSpans {
    rows: Vec<Vec<Span>>,
    places: Vec<usize>,
}

impl Model for RowSpans {
    ghost use Rattle.std.specs.Prelude.{List, map};
    ghost use Rattle.cell_rows.specs.declared.span.Span.{Span};
    ghost use Rattle.cell_rows.specs.Spans.{AreFillable};

    ghost Value = { List (List Span) };

    ghost view = { λ s. map (λ r. r.items) s.rows.items };

    ghost invariant = { λ s. AreFillable (map (λ r. r.items) s.rows.items) s.places.items };
}

/// The places of the rows that have some span.
fn fillable_places(alloc: Global, rows: &[Vec<Span>]) -> Result<Vec<usize>, Memory>
    ensures { IfOk result (λ places. AreFillable (map (λ r. r.items) rows.now) places.items) }
{
    let mut places = Vec::new(alloc);
    for place in 0..rows.len() {
        if !rows[place].is_empty() {
            places.push(place)?;
        }
    }
    Ok(places)
}

/// The cells of a row that a choice fills.
fn filled_row(spans: &[Span], choice: &Choice) -> u64
    ensures { (k : ℕ) → is_set result k ≡ is_filled choice.now spans.now k }
{
    let mut row = 0;
    for span in spans {
        if choice.fills(span.block) {
            row |= span.cells;
        }
    }
    row
}

impl RowSpans {
    ghost use Rattle.std.specs.Prelude.{◌≡◌, ◌<◌, [], length, map, slice_index_or, IfOk};
    ghost use Rattle.cell_rows.specs.Spans.{AreFilled};

    /// The spans of these rows. An `Err` is out of memory.
    pub fn new(alloc: Global, rows: Vec<Vec<Span>>) -> Result<RowSpans, Memory>
        ensures { IfOk result (λ spans. spans ≡ map (λ r. r.items) rows.items) }
    {
        let places = fillable_places(alloc, rows.as_slice())?;
        Ok(RowSpans { rows, places })
    }

    /// How many rows there are.
    pub fn count(&self) -> usize
        ensures { result ≡ length self.now }
    {
        self.rows.len()
    }

    /// The spans of the row at a place.
    pub fn row(&self, place: usize) -> &[Span]
        requires { place < length self.now }
        ensures { result.now ≡ slice_index_or self.now place [] }
    {
        self.rows[place].as_slice()
    }

    /// Puts what a choice fills of each row in the row's place.
    pub fn fill(&self, choice: &Choice, rows: &mut [u64])
        requires { length rows.old ≡ length self.now }
        ensures count { length rows.new ≡ length rows.old }
        ensures filled { AreFilled choice.now self.now rows.new }
    {
        rows.fill(0);
        for place in &self.places {
            rows[*place] = filled_row(self.rows[*place].as_slice(), choice);
        }
    }
}
