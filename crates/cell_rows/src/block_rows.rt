//! The rows of a box by the blocks to which its cells belong.

ghost use Rattle.std.specs.Prelude.{◌≡◌, ◌≢◌, ◌≤◌, ◌<◌, ◌++◌, ◌∷◌, ◌||◌, [], ℕ, Bool, List, IsTrue, IfOk};
ghost use Rattle.cell_rows.specs.Rows.{is_marked_at};
ghost use Rattle.cell_rows.specs.Spans.{is_filled, chosen_marks, AreRowSpans};
ghost use Rattle.lemmas.specs.Bits.{is_set};
ghost use Rattle.solid_model.specs.Choices.{is_chosen};
ghost use Rattle.solid_model.specs.PerAxis.{numbers_of};

use crate::row_spans::RowSpans;
use crate::span::Span;
use solid_model::{Axis, Blocks, Memory, PerAxis, Problem};
use std::alloc::Global;
use std::marker::Model;

/// The rows along each axis of a box of at most 63 cells along each axis, whose cells belong to
/// blocks: which cells of a row belong to which block. Contracts see the blocks.
#[derive(Debug, Drop)]
pub struct BlockRows<'a> {
    blocks: &'a Blocks,
    x: RowSpans,
    y: RowSpans,
    z: RowSpans,
}

impl<'a> Model for BlockRows<'a> {
    ghost use Rattle.cell_rows.specs.Spans.{AreAllRowSpans};
    ghost use Rattle.solid_model.specs.Blocks.{BlockNumbers};

    ghost Value = { BlockNumbers };

    ghost view = { λ s. s.blocks.now };

    ghost invariant = { λ s. AreAllRowSpans s.blocks.now s.x s.y s.z };
}

/// Both are the same.
fn is_same(block: Option<u16>, other: Option<u16>) -> bool
    ensures { IsTrue result → block ≡ other }
{
    match (block, other) {
        (Some(block), Some(other)) => block == other,
        (None, None) => true,
        _ => false,
    }
}

/// The same word with one bit more.
fn with_bit(word: u64, bit: usize) -> u64
    requires { bit < 64 }
    ensures here { IsTrue (is_set result bit) }
    ensures others { (k : ℕ) → k ≢ bit → is_set result k ≡ is_set word k }
{
    word | (1 << bit)
}

/// Puts a span at the end of others, unless it is of no block: no choice fills anything of such a
/// one, and a row that keeps none takes no memory.
fn put_span(spans: &mut Vec<Span>, span: Span) -> Result<(), Memory>
    ensures { IfOk result (λ done. (choice : List Bool) (k : ℕ)
        → is_filled choice spans.new.items k ≡ is_filled choice (spans.old.items ++ span ∷ []) k) }
{
    if span.block.is_some() {
        spans.push(span)?;
    }
    Ok(())
}

/// The last span of a row with the next cell, which belongs to this block; where the span is
/// another's it is put at the end of the others, and a new one begins.
fn with_cell(
    spans: &mut Vec<Span>,
    last: Span,
    block: Option<u16>,
    number: usize,
) -> Result<Span, Memory>
    requires { number < 64 }
    ensures here { IfOk result (λ next. (choice : List Bool)
        → is_filled choice (spans.new.items ++ next ∷ []) number
        ≡ (is_filled choice (spans.old.items ++ last ∷ []) number || is_chosen choice block)) }
    ensures others { IfOk result (λ next. (choice : List Bool) (k : ℕ) → k ≢ number
        → is_filled choice (spans.new.items ++ next ∷ []) k
        ≡ is_filled choice (spans.old.items ++ last ∷ []) k) }
{
    if is_same(last.block, block) {
        Ok(Span {
            block,
            cells: with_bit(last.cells, number),
        })
    } else {
        put_span(spans, last)?;
        Ok(Span {
            block,
            cells: with_bit(0, number),
        })
    }
}

/// The spans of the row of a cell along an axis.
fn spans_of(
    alloc: Global,
    blocks: &Blocks,
    sizes: PerAxis,
    axis: Axis,
    cell: PerAxis,
) -> Result<Vec<Span>, Memory>
    requires sizes { sizes ≡ blocks.now.sizes }
    requires few { numbers_of sizes axis ≤ 63 }
    ensures { IfOk result (λ spans. (choice : List Bool) (k : ℕ) → k < 64
        → is_filled choice spans.items k
        ≡ is_marked_at (chosen_marks blocks.now choice) axis cell k) }
{
    let mut spans = Vec::new(alloc);
    let mut last = Span {
        block: None,
        cells: 0,
    };
    for number in 0..sizes.along(axis) {
        let block = blocks.of(cell.numbered(axis, number));
        last = with_cell(&mut spans, last, block, number)?;
    }
    put_span(&mut spans, last)?;
    Ok(spans)
}

/// The spans of all rows along an axis, by the places that their cells have in a box of one cell
/// along it.
fn spans_along(
    alloc: Global,
    blocks: &Blocks,
    sizes: PerAxis,
    axis: Axis,
) -> Result<RowSpans, Memory>
    requires sizes { sizes ≡ blocks.now.sizes }
    requires few { (a : Axis) → numbers_of sizes a ≤ 63 }
    ensures { IfOk result (AreRowSpans blocks.now axis) }
{
    let ends = sizes.numbered(axis, 1);
    let mut rows = Vec::with_capacity(alloc, ends.count())?;
    for place in 0..ends.count() {
        rows.push(spans_of(alloc, blocks, sizes, axis, ends.cell(place))?)?;
    }
    RowSpans::new(alloc, rows)
}

impl<'a> BlockRows<'a> {
    ghost use Rattle.std.specs.Prelude.{◌≡◌, IfOk};

    /// The rows of a problem's grid cells, by its blocks. An `Err` is out of memory.
    pub fn of(alloc: Global, problem: &'a Problem) -> Result<BlockRows<'a>, Memory>
        ensures { IfOk result (λ rows. rows ≡ problem.now.blocks) }
    {
        let blocks = problem.blocks();
        let sizes = problem.grid().sizes();
        let x = spans_along(alloc, blocks, sizes, Axis::X)?;
        let y = spans_along(alloc, blocks, sizes, Axis::Y)?;
        let z = spans_along(alloc, blocks, sizes, Axis::Z)?;
        Ok(BlockRows { blocks, x, y, z })
    }
}

impl BlockRows<'_> {
    ghost use Rattle.std.specs.Prelude.{◌≡◌, length};
    ghost use Rattle.cell_rows.specs.Spans.{AreRowSpans};
    ghost use Rattle.solid_model.specs.PerAxis.{numbers_of};
    ghost use Rattle.solid_model.specs.WalledBoxes.{box_count};

    /// The spans of all rows along an axis.
    pub fn along(&self, axis: Axis) -> &RowSpans
        ensures spans { AreRowSpans self.now axis result.now }
        ensures all { length self.now.numbers ≡ box_count (numbers_of self.now.sizes) }
    {
        match axis {
            Axis::X => &self.x,
            Axis::Y => &self.y,
            Axis::Z => &self.z,
        }
    }
}
