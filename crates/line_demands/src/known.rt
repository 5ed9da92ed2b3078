//! What is known of columns of cells, as bits.

ghost use Rattle.std.specs.Prelude.{◌≡◌, ◌↔◌, ◌+◌, ℕ, ◌&&◌, ◌||◌, not, IsTrue};
ghost use Rattle.solid_model.specs.declared.segment.Style.TheVariants.{Blank, Dashed, Solid};
ghost use Rattle.lemmas.specs.Bits.{is_set};
ghost use Rattle.solid_model.specs.Demands.{CanDraw};
ghost use Rattle.solid_model.specs.Known.{known_bits, LiesWithin};

use crate::steps::Steps;
use solid_model::Style;
use std::sync::ledger::Ledger;

/// What is known of the cells that stand one behind another in a view. Bit 0 is the nearest. What
/// is full for certain may be full.
#[derive(Clone, Copy, Debug)]
pub struct KnownColumn {
    /// The cells that are full for certain.
    pub full: u64,
    /// The cells that may be full.
    pub may: u64,
}

/// The bits of one number that aren't bits of the other one.
pub fn without(one: u64, other: u64) -> u64
    ensures { (k : ℕ) → is_set result k ≡ (is_set one k && not (is_set other k)) }
{
    one & !other
}

/// The depths at which the columns can differ.
pub fn can_differ(after: KnownColumn, before: KnownColumn) -> u64
    ensures { (k : ℕ) → is_set result k ≡ ((is_set after.may k && not (is_set before.full k))
        || (is_set before.may k && not (is_set after.full k))) }
{
    without(after.may, before.full) | without(before.may, after.full)
}

/// Both columns can be equal.
fn can_be_equal(after: KnownColumn, before: KnownColumn) -> bool
    requires after { LiesWithin after.full after.may }
    requires before { LiesWithin before.full before.may }
    ensures { IsTrue result ↔ CanDraw (known_bits after.full after.may)
        (known_bits before.full before.may) Blank }
{
    without(after.full, before.may) | without(before.full, after.may) == 0
}

/// Their first full cells can stand at different depths: down to the first depth at which the two
/// can differ, that one left out, no cell is full for certain.
fn can_begin_apart(after: KnownColumn, before: KnownColumn) -> bool
    requires after { LiesWithin after.full after.may }
    requires before { LiesWithin before.full before.may }
    ensures { IsTrue result ↔ CanDraw (known_bits after.full after.may)
        (known_bits before.full before.may) Solid }
{
    let differ = can_differ(after, before);
    differ != 0 && differ.trailing_zeros() <= (after.full | before.full).trailing_zeros()
}

/// Their first full cells can stand at one depth, and the columns differ farther away. The best
/// such depth is the first one at which both may be full: down to it no cell is full for certain.
pub fn can_part_behind(after: KnownColumn, before: KnownColumn) -> bool
    requires after { LiesWithin after.full after.may }
    requires before { LiesWithin before.full before.may }
    ensures { IsTrue result ↔ CanDraw (known_bits after.full after.may)
        (known_bits before.full before.may) Dashed }
{
    let both = after.may & before.may;
    let differ = can_differ(after, before);
    if both == 0 {
        return false;
    }
    let depth = both.trailing_zeros();
    let first = (after.full | before.full).trailing_zeros();
    depth <= first && differ >> depth >> 1 != 0
}

/// Some pair of columns that agree with what is known of the two beside a segment draws the style
/// on it.
pub fn can_draw(style: Style, after: KnownColumn, before: KnownColumn) -> bool
    requires after { LiesWithin after.full after.may }
    requires before { LiesWithin before.full before.may }
    ensures { IsTrue result ↔ CanDraw (known_bits after.full after.may)
        (known_bits before.full before.may) style }
{
    match style {
        Style::Blank => can_be_equal(after, before),
        Style::Dashed => can_part_behind(after, before),
        Style::Solid => can_begin_apart(after, before),
    }
}

/// Some columns between what is full for certain and what may be full draw the style. It takes one
/// step.
pub fn meets<L: Ledger>(
    full_l: u64,
    may_l: u64,
    full_r: u64,
    may_r: u64,
    want: Style,
    steps: &mut Steps<L>,
) -> bool
    requires after { LiesWithin full_l may_l }
    requires before { LiesWithin full_r may_r }
    ensures meets { IsTrue result ↔ CanDraw (known_bits full_l may_l) (known_bits full_r may_r)
        want }
    ensures steps { steps.new ≡ steps.old + 1 }
{
    steps.tick();
    let after = KnownColumn {
        full: full_l,
        may: may_l,
    };
    let before = KnownColumn {
        full: full_r,
        may: may_r,
    };
    can_draw(want, after, before)
}
