//! Whether the columns beside a line that can be met leave each other free: each undecided cell can
//! have either value. It is told at a few looks. No says nothing.
//!
//! Free is told of both columns together, apart from which cells are doubted: it is asked at each
//! try of a line, and mostly yes, so it is as short as it can be, and sharper where that costs
//! nothing in the common case.

ghost use Rattle.std.specs.Prelude.{◌≡◌, ℕ, true, not, ◌&&◌, bit_and};
ghost use Rattle.line_demands.specs.Doubted.{AreFree, AreFreeAt, AreFreeBut, CanDrawEmpty};
ghost use Rattle.lemmas.specs.Bits.{is_set, near};
ghost use Rattle.solid_model.specs.Demands.{CanDraw};
ghost use Rattle.solid_model.specs.Known.{known_bits, LiesWithin};
ghost use Rattle.solid_model.specs.declared.segment.Style.TheVariants.{Blank, Dashed, Solid};

use crate::doubts::{near, undecided, without_lowest};
use crate::known::{KnownColumn, can_differ, can_part_behind, without};
use solid_model::Style;

/// What is known of a column, these cells of which are empty.
fn emptied(column: KnownColumn, cells: u64) -> KnownColumn
    requires { LiesWithin column.full column.may }
    ensures within { LiesWithin result.full result.may }
    ensures full { (k : ℕ) → is_set result.full k ≡ (is_set column.full k && not (is_set cells k)) }
    ensures may { (k : ℕ) → is_set result.may k ≡ (is_set column.may k && not (is_set cells k)) }
{
    KnownColumn {
        full: without(column.full, cells),
        may: without(column.may, cells),
    }
}

/// Both columns can draw Dashed while these cells of theirs are empty.
fn can_part_beyond(after: KnownColumn, before: KnownColumn, cells: u64) -> bool
    requires after { LiesWithin after.full after.may }
    requires before { LiesWithin before.full before.may }
    ensures { result ≡ true → CanDrawEmpty (known_bits after.full after.may)
        (known_bits before.full before.may) Dashed cells }
{
    (after.full | before.full) & cells == 0
        && can_part_behind(emptied(after, cells), emptied(before, cells))
}

/// Columns that can be equal leave each other free where the same cells of both are undecided.
fn are_free_equal(after: KnownColumn, before: KnownColumn) -> bool
    requires after { LiesWithin after.full after.may }
    requires before { LiesWithin before.full before.may }
    requires met { CanDraw (known_bits after.full after.may) (known_bits before.full before.may)
        Blank }
    ensures { result ≡ true → AreFree (known_bits after.full after.may)
        (known_bits before.full before.may) Blank }
{
    undecided(after) == undecided(before)
}

/// Columns that can begin at different depths leave each other free where each of them can begin at
/// two depths, and where the nearest depths at which they can begin differ, and the farthest ones
/// too: a column that begins at a certain depth has one depth as both.
fn are_free_apart(after: KnownColumn, before: KnownColumn) -> bool
    requires after { LiesWithin after.full after.may }
    requires before { LiesWithin before.full before.may }
    ensures { result ≡ true → AreFree (known_bits after.full after.may)
        (known_bits before.full before.may) Solid }
{
    let nearest = after.may.trailing_zeros();
    let farthest = after.full.trailing_zeros();
    let nearest_before = before.may.trailing_zeros();
    let farthest_before = before.full.trailing_zeros();
    if nearest != farthest && nearest_before != farthest_before {
        return true;
    }
    nearest != nearest_before && farthest != farthest_before
}

/// Columns that can begin at one depth and differ behind it leave each other's cells free down to
/// the first depth at which both may be full, where of these cells none but those at that depth are
/// undecided, and the columns can do so farther away as well.
fn are_free_down(after: KnownColumn, before: KnownColumn) -> bool
    requires after { LiesWithin after.full after.may }
    requires before { LiesWithin before.full before.may }
    requires met { CanDraw (known_bits after.full after.may) (known_bits before.full before.may)
        Dashed }
    ensures { result ≡ true → AreFreeAt (known_bits after.full after.may)
        (known_bits before.full before.may) Dashed (near (bit_and after.may before.may)) }
{
    let both = after.may & before.may;
    let begin = near(both);
    let open = (undecided(after) | undecided(before)) & begin;
    if open == 0 {
        return true;
    }
    without(open, both) == 0 && can_part_beyond(after, before, begin)
}

/// They leave the other cells free where they can differ at two depths behind that one, or no cell
/// at such a depth is undecided in one of them alone.
fn are_free_beyond(after: KnownColumn, before: KnownColumn) -> bool
    requires after { LiesWithin after.full after.may }
    requires before { LiesWithin before.full before.may }
    requires met { CanDraw (known_bits after.full after.may) (known_bits before.full before.may)
        Dashed }
    ensures { result ≡ true → AreFreeBut (known_bits after.full after.may)
        (known_bits before.full before.may) Dashed (near (bit_and after.may before.may)) }
{
    let apart = without(can_differ(after, before), near(after.may & before.may));
    let open = undecided(after) | undecided(before);
    let shared = undecided(after) & undecided(before);
    if without_lowest(apart) != 0 {
        return true;
    }
    without(apart & open, shared) == 0
}

/// Columns that can draw a style leave each other free.
pub fn are_free(style: Style, after: KnownColumn, before: KnownColumn) -> bool
    requires after { LiesWithin after.full after.may }
    requires before { LiesWithin before.full before.may }
    requires met { CanDraw (known_bits after.full after.may) (known_bits before.full before.may)
        style }
    ensures { result ≡ true → AreFree (known_bits after.full after.may)
        (known_bits before.full before.may) style }
{
    match style {
        Style::Blank => are_free_equal(after, before),
        Style::Dashed => are_free_down(after, before) && are_free_beyond(after, before),
        Style::Solid => are_free_apart(after, before),
    }
}
