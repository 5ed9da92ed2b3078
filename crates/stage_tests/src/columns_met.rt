//! Which pairs of columns can still draw a wanted style, told together.

ghost use Rattle.std.specs.Prelude.{◌≡◌, ◌<◌, ℕ, true, length, slice_index_or};
ghost use Rattle.solid_model.specs.Known.{LiesWithin};

use crate::column_styles::{numbers, pair, told_digits};
use column_lanes::{still_meets, style_byte};
use line_demands::{KnownColumn, can_draw};
use solid_model::Style;
use std::alloc::Global;
use std::test::Fail;
use test_files::{Row, rows_tell};

/// A row some pairs: of the columns after the segments the cells that are full for certain and
/// those that may be full, the same of the columns before them, the wanted styles, 0 for Blank, 1
/// for Dashed and 2 for Solid, and for each pair 1 where it can draw its style, else 0. The great
/// number of the fourth row is the nearest cell and the farthest one, and of the last row two pairs
/// are left over by eights.
const MET: &str = "\
0 0 0; 1 1 1; 0 0 0; 0 0 0; 0 1 2 -> 101
1 1 1; 1 1 1; 1 1 1; 3 3 3; 0 1 2 -> 110
0 0 0; 3 3 3; 2 2 2; 2 2 2; 0 1 2 -> 101
0 0; 9223372036854775809 9223372036854775809; 9223372036854775809 1; 9223372036854775809 1; 1 1 -> 11
4 4 4 4 0 0 0 8 8 8; 4 5 5 12 7 0 0 8 9 9; 0 1 1 4 0 0 0 0 1 1; 3 1 1 4 7 0 4 6 1 7; 0 2 1 1 1 2 2 0 2 0 -> 0111101010";

/// Whether what is full for certain may be full.
fn is_within(full: u64, may: u64) -> bool
    ensures { result ≡ true → LiesWithin full may }
{
    full | may == may
}

/// The same of many columns.
fn lie_within(full: &[u64], may: &[u64]) -> bool
    requires { length may.now ≡ length full.now }
    ensures { result ≡ true → (k : ℕ) → k < length full.now
        → LiesWithin (slice_index_or full.now k 0) (slice_index_or may.now k 0) }
{
    for at in 0..full.len() {
        if !is_within(full[at], may[at]) {
            return false;
        }
    }
    true
}

/// Whether each byte is that of a style.
fn are_styles(want: &[u8]) -> bool
    ensures { result ≡ true → (k : ℕ) → k < length want.now → slice_index_or want.now k 0 < 3 }
{
    for at in 0..want.len() {
        if want[at] >= 3 {
            return false;
        }
    }
    true
}

/// Tells which pairs can draw their styles, if there are as many masks of each kind, and they and
/// the styles are some.
fn tell_met(
    full_l: &[u64],
    may_l: &[u64],
    full_r: &[u64],
    may_r: &[u64],
    want: &[u8],
    bytes: &mut [u8],
)
    requires { length bytes.old ≡ length want.now }
{
    let count = want.len();
    if full_l.len() == count
        && may_l.len() == count
        && full_r.len() == count
        && may_r.len() == count
        && lie_within(full_l, may_l)
        && lie_within(full_r, may_r)
        && are_styles(want)
    {
        still_meets(full_l, may_l, full_r, may_r, want, bytes);
    }
}

/// The bytes of pairs, told by their masks, list by list, and their wanted styles; each 9 where
/// none is told.
fn bytes(alloc: Global, masks: &[u64], want: &[u8]) -> Result<Vec<u8>, Fail> {
    let (left, right) = masks.split_at(masks.len() / 2);
    let (full_l, may_l) = left.split_at(left.len() / 2);
    let (full_r, may_r) = right.split_at(right.len() / 2);
    let mut bytes = vec![in alloc; 9; want.len()]?;
    tell_met(full_l, may_l, full_r, may_r, want, bytes.as_mut_slice());
    Ok(bytes)
}

/// Styles, told by their bytes.
fn styles_of(alloc: Global, told: &str) -> Result<Vec<u8>, Fail> {
    let mut styles = Vec::new(alloc);
    for word in told.split(' ') {
        styles.push(word.parse().unwrap_or(9))?;
    }
    Ok(styles)
}

/// The bytes of pairs, told by their masks and their wanted styles.
fn met(alloc: Global, masks: &str, want: &str) -> Result<Vec<u8>, Fail> {
    let masks = numbers(alloc, masks)?;
    let want = styles_of(alloc, want)?;
    bytes(alloc, masks.as_slice(), want.as_slice())
}

/// The bytes of a row's pairs, as the row has them.
fn told_bytes(alloc: Global, row: Row<'_>) -> Result<String, Fail> {
    let (masks, want) = row.told.rsplit_once("; ").unwrap_or(("", ""));
    let bytes = met(alloc, masks, want)?;
    told_digits(alloc, bytes.as_slice())
}

#[test]
fn pairs_of_columns_meet_what_was_found_by_hand(rt: HostRuntime) -> Result<(), Fail> {
    rows_tell(MET, |row| told_bytes(rt.alloc(), row))
}

/// What is known of a column whose cells are those of both numbers, and some of those of one.
fn between(one: u64, other: u64) -> KnownColumn
    ensures { LiesWithin result.full result.may }
{
    KnownColumn {
        full: one & other,
        may: one | other,
    }
}

/// The style that is wanted of a pair. Each comes with each kind of pair.
fn wanted(number: usize) -> Style {
    match number / 5 % 3 {
        0 => Style::Blank,
        1 => Style::Dashed,
        _ => Style::Solid,
    }
}

/// What is known of the columns of a pair.
fn known(number: usize) -> (KnownColumn, KnownColumn)
    ensures left { LiesWithin result.0.full result.0.may }
    ensures right { LiesWithin result.1.full result.1.may }
{
    let (left, right) = (pair(number), pair(number ^ 1));
    (between(left.0, left.1), between(right.0, right.1))
}

/// A mask of a pair, by the number of its kind.
fn mask(number: usize, kind: u8) -> u64 {
    let (left, right) = known(number);
    match kind {
        0 => left.full,
        1 => left.may,
        2 => right.full,
        _ => right.may,
    }
}

/// Adds the masks of one kind of so many pairs.
fn push_masks(masks: &mut Vec<u64>, count: usize, kind: u8) -> Result<(), Fail> {
    for number in 0..count {
        masks.push(mask(number, kind))?;
    }
    Ok(())
}

/// The masks of so many pairs, list by list.
fn masks_of(alloc: Global, count: usize) -> Result<Vec<u64>, Fail> {
    let mut masks = Vec::new(alloc);
    for kind in 0..4_u8 {
        push_masks(&mut masks, count, kind)?;
    }
    Ok(masks)
}

/// The styles that are wanted of so many pairs.
fn wanted_styles(alloc: Global, count: usize) -> Result<Vec<u8>, Fail> {
    let mut styles = Vec::new(alloc);
    for number in 0..count {
        styles.push(style_byte(wanted(number)))?;
    }
    Ok(styles)
}

/// The bytes of so many pairs, told together.
fn bytes_of_pairs(alloc: Global, count: usize) -> Result<Vec<u8>, Fail> {
    let masks = masks_of(alloc, count)?;
    let want = wanted_styles(alloc, count)?;
    bytes(alloc, masks.as_slice(), want.as_slice())
}

/// Whether so many bytes tell what the pairs can draw one by one.
fn tell_one_by_one(bytes: &[u8], count: usize) -> bool {
    for (number, byte) in bytes.iter().enumerate() {
        let (left, right) = known(number);
        if *byte != u8::from(can_draw(wanted(number), left, right)) {
            return false;
        }
    }
    bytes.len() == count
}

/// Whether so many pairs can draw, together, what they can one by one.
fn meet_the_same(alloc: Global, count: usize) -> Result<bool, Fail> {
    let bytes = bytes_of_pairs(alloc, count)?;
    Ok(tell_one_by_one(bytes.as_slice(), count))
}

#[test]
fn pairs_meet_the_same_one_by_one(rt: HostRuntime) -> Result<(), Fail> {
    for count in 0..68_usize {
        assert!(rt; meet_the_same(rt.alloc(), count)?, "{count} pairs");
    }
    Ok(())
}
