//! The cells of a block, column by column.

ghost use Rattle.std.specs.Prelude.{◌≡◌, ◌<◌, ℕ, pos, length, All, if◌then◌else◌};
ghost use Rattle.solid_model.specs.Known.{known_bits, LiesWithin};
ghost use Rattle.line_demands.specs.Spans.{is_on, known_there, AreWithin};
ghost use Rattle.lemmas.specs.Bits.{is_set};

use crate::known::KnownColumn;

/// Cells of a block that stand in one column.
#[derive(Clone, Copy, Debug)]
pub struct Span {
    /// The number of the column.
    pub column: u32,
    /// Their depths: bit 0 is the nearest.
    pub cells: u64,
}

/// The column where so much is known of some of its cells.
fn set_span(column: KnownColumn, cells: u64, known: Option<bool>) -> KnownColumn
    requires { LiesWithin column.full column.may }
    ensures within { LiesWithin result.full result.may }
    ensures known { (k : ℕ) → known_bits result.full result.may (pos k)
        ≡ (if is_set cells k then known else (known_bits column.full column.may (pos k))) }
{
    match known {
        Some(true) => KnownColumn {
            full: column.full | cells,
            may: column.may | cells,
        },
        Some(false) => KnownColumn {
            full: column.full & !cells,
            may: column.may & !cells,
        },
        None => KnownColumn {
            full: column.full & !cells,
            may: column.may | cells,
        },
    }
}

/// Sets what is known of the cells of a block: that they are full, that they are empty, or nothing.
pub fn set_spans(columns: &mut [KnownColumn], spans: &[Span], known: Option<bool>)
    requires within { AreWithin columns.old }
    requires inside { All (λ span. span.column < length columns.old) spans.now }
    ensures within { AreWithin columns.new }
    ensures known { (c k : ℕ) → known_there columns.new c k
        ≡ (if is_on spans.now c k then known else (known_there columns.old c k)) }
{
    for span in spans {
        let column = span.column as usize;
        columns[column] = set_span(columns[column], span.cells, known);
    }
}
