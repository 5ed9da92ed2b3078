//! What a cut leaves of columns of cells, as bits: bit 0 is the nearest cell.

ghost use Rattle.std.specs.Prelude.{◌≡◌, ◌≤◌, ◌&&◌, ℕ, Some, IfSome};
ghost use Rattle.fit_lanes.specs.Cuts.{is_kept, keeps, AreKept, HasOnlyKept, IsLeftOf, KeepsDepths};
ghost use Rattle.lemmas.specs.Bits.{bits, is_set};
ghost use Rattle.solid_model.specs.Columns.{ColumnsDraw};
ghost use Rattle.solid_model.specs.Panels.{coordinates_of};

use column_lanes::{Column, style_of};
use further_views::{Cut, Layer};
use section_laws::cut_gap;
use six_views::sight_frame;
use solid_model::{Grid, Style, number_on};

/// A depth is kept: each from the first one on, or that one alone where an area is cut there.
fn is_kept(area: bool, first: usize, depth: usize) -> bool
    ensures { result ≡ is_kept area first depth }
{
    if area { depth == first } else { depth >= first }
}

/// The bits of the depths that are kept, of so many.
fn kept_bits(area: bool, first: usize, depths: usize) -> u64
    requires { depths ≤ 63 }
    ensures { AreKept area first depths result }
{
    let mut bits: u64 = 0;
    for depth in 0..depths {
        if is_kept(area, first, depth) {
            bits |= 1 << depth;
        }
    }
    bits
}

/// The bits of the depths that a cut keeps of a grid's columns, seen as a layer. `None` where the
/// cut leaves nothing of any.
pub fn kept_depths(grid: &Grid, layer: Layer, cut: Cut) -> Option<u64>
    ensures { IfSome result (KeepsDepths (coordinates_of grid.now) layer cut) }
{
    grid.known();
    let frame = sight_frame(layer);
    let sizes = grid.sizes();
    let Some(gap) = cut_gap(grid, frame, cut.at, cut.area) else {
        return None;
    };
    let first = number_on(sizes, frame.away, gap);
    Some(kept_bits(cut.area, first, sizes.along(frame.away.axis)))
}

/// Those of a row's cells that are kept; all where no depths are told.
pub fn kept_cells(kept: Option<u64>, cells: u64) -> u64
    ensures { (k : ℕ) → is_set result k ≡ (keeps kept k && is_set cells k) }
{
    match kept {
        Some(depths) => depths & cells,
        None => cells,
    }
}

/// The style that two columns draw on the segment between them where all behind the first full
/// depth of each is full, as far as it is kept: no edge is hidden.
fn left_style(after: Column, before: Column) -> Style
    ensures { (kept a b : ℕ) → HasOnlyKept (Some kept) after.0 → HasOnlyKept (Some kept) before.0
        → IsLeftOf (Some kept) after.0 a → IsLeftOf (Some kept) before.0 b
        → ColumnsDraw (bits a) (bits b) result }
{
    if after.0.trailing_zeros() == before.0.trailing_zeros() {
        Style::Blank
    } else {
        Style::Solid
    }
}

/// The style that what is left of two columns draws on the segment between them; that of the
/// columns where no depths are told.
pub fn style_between(kept: Option<u64>, after: Column, before: Column) -> Style
    requires after { HasOnlyKept kept after.0 }
    requires before { HasOnlyKept kept before.0 }
    ensures { (a b : ℕ) → IsLeftOf kept after.0 a → IsLeftOf kept before.0 b
        → ColumnsDraw (bits a) (bits b) result }
{
    match kept {
        Some(_) => left_style(after, before),
        None => style_of(after, before),
    }
}
