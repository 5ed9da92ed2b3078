//! Columns of cells, as bits.

ghost use Rattle.solid_model.specs.Columns.{ColumnsDraw};
ghost use Rattle.lemmas.specs.Bits.{bits};

use solid_model::Style;

/// The cells that stand one behind another in a view: a bit that is set is a full cell. Bit 0 is
/// the nearest.
#[derive(Clone, Copy, Debug, PartialEq, Eq)]
pub struct Column(pub u64);

/// The style that the two columns beside a segment draw on it.
pub fn style_of(after: Column, before: Column) -> Style
    ensures { ColumnsDraw (bits after.0) (bits before.0) result }
{
    if after.0 == before.0 {
        Style::Blank
    } else if after.0.trailing_zeros() == before.0.trailing_zeros() {
        Style::Dashed
    } else {
        Style::Solid
    }
}
