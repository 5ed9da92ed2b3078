//! The styles that pairs of columns draw.

ghost use Rattle.std.specs.Prelude.{◌≡◌, ◌<◌, ◌≤◌, ◌+◌, ◌*◌, ◌/◌, ℕ, length, slice_index_or};
ghost use Rattle.lemmas.specs.Bits.{bits};
ghost use Rattle.column_lanes.specs.Lanes.{AreLanes, AreBytes};
ghost use Rattle.column_lanes.specs.Styles.{style_byte, style_code, code_at, IsStyleByte};

use crate::lanes::{LANES, near, put_lanes};
use solid_model::Style;
use std::simd::prelude::*;

/// The byte of a style: 0 for Blank, 1 for Dashed and 2 for Solid.
pub fn style_byte(style: Style) -> u8
    ensures { result ≡ style_byte style }
{
    match style {
        Style::Blank => 0,
        Style::Dashed => 1,
        Style::Solid => 2,
    }
}

/// The style of one pair, as its byte.
fn code(after: u64, before: u64) -> u64
    ensures { result ≡ style_code after before }
{
    let first_after = after & (after ^ after.wrapping_sub(1));
    let first_before = before & (before ^ before.wrapping_sub(1));
    if after == before {
        0
    } else if first_after == first_before {
        1
    } else {
        2
    }
}

/// The styles of eight pairs, as their bytes.
fn codes(after: u64x8, before: u64x8) -> u64x8
    requires after { length after ≡ 8 }
    requires before { length before ≡ 8 }
    ensures { AreLanes result (code_at after before) }
{
    let first_after = after & near(after);
    let first_before = before & near(before);
    let unequal = first_after
        .simd_eq(first_before)
        .select(u64x8::splat(1), u64x8::splat(2));
    after.simd_eq(before).select(u64x8::splat(0), unequal)
}

/// Puts the bytes of the eight pairs from a place on.
fn put_codes(after: &[u64], before: &[u64], out: &mut [u8], at: usize)
    requires there { at + 8 ≤ length after.now }
    requires before { length before.now ≡ length after.now }
    requires out { length out.old ≡ length after.now }
    requires so_far { AreBytes (code_at after.now before.now) out.old at }
    ensures length { length out.new ≡ length out.old }
    ensures put { AreBytes (code_at after.now before.now) out.new (at + 8) }
{
    let codes = codes(
        u64x8::from_slice(&after[at..]),
        u64x8::from_slice(&before[at..]),
    );
    put_lanes(codes, out, at);
}

/// Puts the bytes of all whole eights of pairs.
fn put_eights(after: &[u64], before: &[u64], out: &mut [u8])
    requires before { length before.now ≡ length after.now }
    requires out { length out.old ≡ length after.now }
    ensures length { length out.new ≡ length out.old }
    ensures put { AreBytes (code_at after.now before.now) out.new (length after.now / 8 * 8) }
{
    for eight in 0..after.len() / LANES {
        put_codes(after, before, out, eight * LANES);
    }
}

/// Puts the bytes of the pairs from a place on, one by one.
fn put_rest(after: &[u64], before: &[u64], out: &mut [u8], from: usize)
    requires from { from ≤ length after.now }
    requires before { length before.now ≡ length after.now }
    requires out { length out.old ≡ length after.now }
    requires so_far { AreBytes (code_at after.now before.now) out.old from }
    ensures { AreBytes (code_at after.now before.now) out.new (length after.now) }
{
    for at in from..after.len() {
        out[at] = code(after[at], before[at]) as u8;
    }
}

/// The style that each two columns draw on the segment between them, as its byte, by place. A bit
/// that is set is a full cell, and bit 0 is the nearest.
pub fn styles(after: &[u64], before: &[u64], out: &mut [u8])
    requires before { length before.now ≡ length after.now }
    requires out { length out.old ≡ length after.now }
    ensures { (k : ℕ) → k < length after.now → IsStyleByte (slice_index_or out.new k 0)
        (bits (slice_index_or after.now k 0)) (bits (slice_index_or before.now k 0)) }
{
    put_eights(after, before, out);
    put_rest(after, before, out, after.len() / LANES * LANES);
}
