//! The grid cells that stand behind the points of a view's grid, by their blocks.

ghost use Rattle.std.specs.Prelude.{◌≡◌, ◌≤◌, ◌<◌, ◌&&◌, ◌++◌, ◌∷◌, [], Bool, ℕ, List, nat_lt, pos, IfOk};
ghost use Rattle.cell_rows.specs.Spans.{is_filled};
ghost use Rattle.column_laws.specs.GridColumns.{grid_column};
ghost use Rattle.fit_lanes.specs.Cuts.{keeps};
ghost use Rattle.fit_lanes.specs.Sights.{IsSightAt, AreSights};
ghost use Rattle.lemmas.specs.Bits.{is_set};
ghost use Rattle.solid_model.specs.declared.cell.Axis.{Axis};
ghost use Rattle.solid_model.specs.Choices.{cells_of_choice};
ghost use Rattle.solid_model.specs.GridPlaces.{number_on};
ghost use Rattle.solid_model.specs.PerAxis.{numbers_of};
ghost use Rattle.six_views.specs.SightFrames.{sight_frame};

use crate::cuts::kept_cells;
use cell_rows::{BlockRows, RowSpans, Span, has_bit};
use further_views::Layer;
use six_views::sight_frame;
use solid_model::{Direction, Memory, PerAxis, cell_in, number_on};
use std::alloc::Global;

/// The cells of a row, as its bits, from the one that stands nearest along a direction.
fn seen_row(sizes: PerAxis, away: Direction, row: u64) -> u64
    requires { numbers_of sizes away.axis ≤ 63 }
    ensures { (k : ℕ) → is_set result k
        ≡ (nat_lt k (numbers_of sizes away.axis) && is_set row (number_on (numbers_of sizes) away k)) }
{
    let mut seen: u64 = 0;
    for depth in 0..sizes.along(away.axis) {
        if has_bit(row, number_on(sizes, away, depth)) {
            seen |= 1 << depth;
        }
    }
    seen
}

/// Puts a span at the end of others, unless it has no cell.
fn put_seen(spans: &mut Vec<Span>, span: Span) -> Result<(), Memory>
    ensures { IfOk result (λ done. (choice : List Bool) (k : ℕ)
        → is_filled choice spans.new.items k ≡ is_filled choice (spans.old.items ++ span ∷ []) k) }
{
    if span.cells != 0 {
        spans.push(span)?;
    }
    Ok(())
}

/// The same of each span of a row, as far as it is kept.
fn seen_spans(
    alloc: Global,
    sizes: PerAxis,
    away: Direction,
    kept: Option<u64>,
    spans: &[Span],
) -> Result<Vec<Span>, Memory>
    requires { numbers_of sizes away.axis ≤ 63 }
    ensures { IfOk result (λ seen. (choice : List Bool) (k : ℕ) → is_filled choice seen.items k
        ≡ ((keeps kept k && nat_lt k (numbers_of sizes away.axis))
        && is_filled choice spans.now (number_on (numbers_of sizes) away k))) }
{
    let mut seen = Vec::new(alloc);
    for span in spans {
        let row = seen_row(sizes, away, span.cells);
        let cells = kept_cells(kept, row);
        let block = span.block;
        put_seen(&mut seen, Span { block, cells })?;
    }
    Ok(seen)
}

/// The spans of the column at a place to the right and upwards.
fn sight(
    alloc: Global,
    rows: &BlockRows<'_>,
    sizes: PerAxis,
    layer: Layer,
    kept: Option<u64>,
    right: usize,
    up: usize,
) -> Result<Vec<Span>, Memory>
    requires sizes { sizes ≡ rows.now.sizes }
    requires few { (a : Axis) → numbers_of sizes a ≤ 63 }
    requires right { right < numbers_of sizes (sight_frame layer).right.axis }
    requires up { up < numbers_of sizes (sight_frame layer).up.axis }
    ensures { IfOk result (λ spans. (choice : List Bool) (k : ℕ) → is_filled choice spans.items k
        ≡ (keeps kept k && grid_column (sight_frame layer) (numbers_of sizes)
        (cells_of_choice rows.now.numbers choice) right up (pos k))) }
{
    let frame = sight_frame(layer);
    let axis = frame.away.axis;
    let cell = cell_in(frame, sizes, right, up, 0).numbered(axis, 0);
    let place = sizes.numbered(axis, 1).place(cell);
    seen_spans(alloc, sizes, frame.away, kept, rows.along(axis).row(place))
}

/// The spans behind a place of a view's points with a row more before them.
fn sight_at(
    alloc: Global,
    rows: &BlockRows<'_>,
    sizes: PerAxis,
    layer: Layer,
    kept: Option<u64>,
    place: usize,
) -> Result<Vec<Span>, Memory>
    requires sizes { sizes ≡ rows.now.sizes }
    requires few { (a : Axis) → numbers_of sizes a ≤ 63 }
    ensures { IfOk result (λ spans. IsSightAt layer (numbers_of sizes) rows.now.numbers kept
        place spans.items) }
{
    let frame = sight_frame(layer);
    let width = sizes.along(frame.right.axis);
    let (right, row) = (place % (width + 1), place / (width + 1));
    if right < width && row > 0 && row <= sizes.along(frame.up.axis) {
        sight(alloc, rows, sizes, layer, kept, right, row - 1)
    } else {
        Ok(Vec::new(alloc))
    }
}

/// The spans behind each of these places.
pub fn sights(
    alloc: Global,
    rows: &BlockRows<'_>,
    sizes: PerAxis,
    layer: Layer,
    kept: Option<u64>,
) -> Result<RowSpans, Memory>
    requires sizes { sizes ≡ rows.now.sizes }
    requires few { (a : Axis) → numbers_of sizes a ≤ 63 }
    ensures { IfOk result (AreSights layer (numbers_of sizes) rows.now.numbers kept) }
{
    let frame = sight_frame(layer);
    let stride = sizes.along(frame.right.axis) + 1;
    let places = (sizes.along(frame.up.axis) + 2) * stride;
    let mut sights = Vec::with_capacity(alloc, places)?;
    for place in 0..places {
        sights.push(sight_at(alloc, rows, sizes, layer, kept, place)?)?;
    }
    RowSpans::new(alloc, sights)
}
