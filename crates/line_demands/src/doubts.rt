//! The cells beside a line that may have one value alone, told at a few looks.
//!
//! It is proved that each cell which isn't doubted can have either value, and not that these can't.
//! Beside a Solid line that is one cell of a column at most, the first that may be full; beside a
//! Dashed one those down to the first depth at which both may be full, and behind it the one at
//! which the columns can differ, where there is but one; beside a Blank one those that are decided
//! in the other column. In most lines there is none.

ghost use Rattle.std.specs.Prelude.{◌≡◌, ◌↔◌, ◌<◌, ℕ, true, not, ◌&&◌};
ghost use Rattle.line_demands.specs.Doubted.{IsDoubted};
ghost use Rattle.lemmas.specs.Bits.{is_set, near};
ghost use Rattle.solid_model.specs.Demands.{CanDraw};
ghost use Rattle.solid_model.specs.Known.{known_bits, LiesWithin};
ghost use Rattle.solid_model.specs.declared.segment.Style.TheVariants.{Blank, Dashed, Solid};

use crate::known::{KnownColumn, can_differ, without};
use solid_model::Style;

/// The cells of which nothing is known.
pub fn undecided(column: KnownColumn) -> u64
    requires { LiesWithin column.full column.may }
    ensures { (k : ℕ) → is_set result k ≡ (is_set column.may k && not (is_set column.full k)) }
{
    column.may ^ column.full
}

/// The bits of a number down to its lowest one, that one too: all of them where it is 0.
pub fn near(number: u64) -> u64
    ensures { result ≡ near number }
{
    number ^ number.wrapping_sub(1)
}

/// The bits of a number but its lowest one.
pub fn without_lowest(number: u64) -> u64
    ensures { (k : ℕ) → (is_set result k ≡ true) ↔ ((is_set number k ≡ true)
        × ((j : ℕ) × (j < k) × (is_set number j ≡ true))) }
{
    without(number, near(number))
}

/// Columns that can be equal can be so with either value in a cell that is undecided in both.
fn doubted_equal(column: KnownColumn, beside: KnownColumn) -> u64
    requires column { LiesWithin column.full column.may }
    requires beside { LiesWithin beside.full beside.may }
    requires met { CanDraw (known_bits column.full column.may) (known_bits beside.full beside.may)
        Blank }
    ensures { IsDoubted (known_bits column.full column.may) (known_bits beside.full beside.may)
        Blank result }
{
    without(undecided(column), undecided(beside))
}

/// Beside a column that can begin at two depths another one can begin elsewhere, whatever one of
/// its cells is. Beside one that begins at a certain depth, or is empty for certain, it can where
/// that cell isn't the first one that may be full.
fn doubted_apart(column: KnownColumn, beside: KnownColumn) -> u64
    requires column { LiesWithin column.full column.may }
    requires beside { LiesWithin beside.full beside.may }
    requires met { CanDraw (known_bits column.full column.may) (known_bits beside.full beside.may)
        Solid }
    ensures { IsDoubted (known_bits column.full column.may) (known_bits beside.full beside.may)
        Solid result }
{
    if beside.full.trailing_zeros() != beside.may.trailing_zeros() {
        return 0;
    }
    without(undecided(column), without_lowest(column.may))
}

/// Columns that can begin at one depth and differ behind it can do so at the first depth at which
/// both may be full. There they can with either value in a cell behind it, unless that is the only
/// one at which they can differ, and is decided in the column beside.
fn doubted_behind(column: KnownColumn, beside: KnownColumn) -> u64
    requires column { LiesWithin column.full column.may }
    requires beside { LiesWithin beside.full beside.may }
    requires met { CanDraw (known_bits column.full column.may) (known_bits beside.full beside.may)
        Dashed }
    ensures { IsDoubted (known_bits column.full column.may) (known_bits beside.full beside.may)
        Dashed result }
{
    let begin = near(column.may & beside.may);
    let apart = without(can_differ(column, beside), begin);
    if without_lowest(apart) != 0 {
        return undecided(column) & begin;
    }
    undecided(column) & (begin | without(apart, undecided(beside)))
}

/// Undecided cells of a column beside a line that can be met: each other one can have either value.
pub fn doubted(style: Style, column: KnownColumn, beside: KnownColumn) -> u64
    requires column { LiesWithin column.full column.may }
    requires beside { LiesWithin beside.full beside.may }
    requires met { CanDraw (known_bits column.full column.may) (known_bits beside.full beside.may)
        style }
    ensures { IsDoubted (known_bits column.full column.may) (known_bits beside.full beside.may)
        style result }
{
    match style {
        Style::Blank => doubted_equal(column, beside),
        Style::Dashed => doubted_behind(column, beside),
        Style::Solid => doubted_apart(column, beside),
    }
}
