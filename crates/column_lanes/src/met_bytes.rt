//! Which pairs of columns can still draw a wanted style.

ghost use Rattle.std.specs.Prelude.{◌≡◌, ◌<◌, ◌≤◌, ◌+◌, ◌*◌, ◌/◌, ℕ, length, slice_index_or};
ghost use Rattle.solid_model.specs.Known.{known_bits, LiesWithin};
ghost use Rattle.column_lanes.specs.Lanes.{AreLanes, AreBytes};
ghost use Rattle.column_lanes.specs.Meets.{met_code, met_at, IsMetByte};

use crate::lanes::{LANES, near, put_lanes};
use std::simd::prelude::*;

/// Whether one pair can draw the style, as its byte.
fn met(full_l: u64, may_l: u64, full_r: u64, may_r: u64, want: u64) -> u64
    ensures { result ≡ met_code full_l may_l full_r may_r want }
{
    let must_differ = (full_l ^ (full_l & may_r)) | (full_r ^ (full_r & may_l));
    let can_differ = (may_l ^ (may_l & full_r)) | (may_r ^ (may_r & full_l));
    let full = full_l | full_r;
    let near = full ^ full.wrapping_sub(1);
    let can_begin = may_l & may_r & near;
    let behind = can_differ ^ (can_differ & (can_begin ^ can_begin.wrapping_sub(1)));
    if want == 0 {
        u64::from(must_differ == 0)
    } else if want == 1 {
        u64::from(behind != 0)
    } else {
        u64::from(can_differ & near != 0)
    }
}

/// Whether eight pairs can draw their styles, as their bytes.
fn met_lanes(full_l: u64x8, may_l: u64x8, full_r: u64x8, may_r: u64x8, want: u64x8) -> u64x8
    requires full_l { length full_l ≡ 8 }
    requires may_l { length may_l ≡ 8 }
    requires full_r { length full_r ≡ 8 }
    requires may_r { length may_r ≡ 8 }
    requires want { length want ≡ 8 }
    ensures { AreLanes result (met_at full_l may_l full_r may_r want) }
{
    let (zero, one) = (u64x8::splat(0), u64x8::splat(1));
    let must_differ = (full_l ^ (full_l & may_r)) | (full_r ^ (full_r & may_l));
    let can_differ = (may_l ^ (may_l & full_r)) | (may_r ^ (may_r & full_l));
    let down_to_full = near(full_l | full_r);
    let behind = can_differ ^ (can_differ & near(may_l & may_r & down_to_full));
    let blank = must_differ.simd_eq(zero).select(one, zero);
    let dashed = behind.simd_eq(zero).select(zero, one);
    let solid = (can_differ & down_to_full).simd_eq(zero).select(zero, one);
    let seen = want.simd_eq(one).select(dashed, solid);
    want.simd_eq(zero).select(blank, seen)
}

/// Puts the bytes of the eight pairs from a place on.
fn put_met(
    full_l: &[u64],
    may_l: &[u64],
    full_r: &[u64],
    may_r: &[u64],
    want: &[u8],
    out: &mut [u8],
    at: usize,
)
    requires there { at + 8 ≤ length full_l.now }
    requires may_l { length may_l.now ≡ length full_l.now }
    requires full_r { length full_r.now ≡ length full_l.now }
    requires may_r { length may_r.now ≡ length full_l.now }
    requires want { length want.now ≡ length full_l.now }
    requires out { length out.old ≡ length full_l.now }
    requires so_far { AreBytes (met_at full_l.now may_l.now full_r.now may_r.now want.now)
        out.old at }
    ensures length { length out.new ≡ length out.old }
    ensures put { AreBytes (met_at full_l.now may_l.now full_r.now may_r.now want.now)
        out.new (at + 8) }
{
    let met = met_lanes(
        u64x8::from_slice(&full_l[at..]),
        u64x8::from_slice(&may_l[at..]),
        u64x8::from_slice(&full_r[at..]),
        u64x8::from_slice(&may_r[at..]),
        u8x8::from_slice(&want[at..]).cast::<u64>(),
    );
    put_lanes(met, out, at);
}

/// Puts the bytes of all whole eights of pairs.
fn put_met_eights(
    full_l: &[u64],
    may_l: &[u64],
    full_r: &[u64],
    may_r: &[u64],
    want: &[u8],
    out: &mut [u8],
)
    requires may_l { length may_l.now ≡ length full_l.now }
    requires full_r { length full_r.now ≡ length full_l.now }
    requires may_r { length may_r.now ≡ length full_l.now }
    requires want { length want.now ≡ length full_l.now }
    requires out { length out.old ≡ length full_l.now }
    ensures length { length out.new ≡ length out.old }
    ensures put { AreBytes (met_at full_l.now may_l.now full_r.now may_r.now want.now)
        out.new (length full_l.now / 8 * 8) }
{
    for eight in 0..full_l.len() / LANES {
        put_met(full_l, may_l, full_r, may_r, want, out, eight * LANES);
    }
}

/// Puts the bytes of the pairs from a place on, one by one.
fn put_met_rest(
    full_l: &[u64],
    may_l: &[u64],
    full_r: &[u64],
    may_r: &[u64],
    want: &[u8],
    out: &mut [u8],
    from: usize,
)
    requires from { from ≤ length full_l.now }
    requires may_l { length may_l.now ≡ length full_l.now }
    requires full_r { length full_r.now ≡ length full_l.now }
    requires may_r { length may_r.now ≡ length full_l.now }
    requires want { length want.now ≡ length full_l.now }
    requires out { length out.old ≡ length full_l.now }
    requires so_far { AreBytes (met_at full_l.now may_l.now full_r.now may_r.now want.now)
        out.old from }
    ensures { AreBytes (met_at full_l.now may_l.now full_r.now may_r.now want.now)
        out.new (length full_l.now) }
{
    for at in from..full_l.len() {
        let want = u64::from(want[at]);
        out[at] = met(full_l[at], may_l[at], full_r[at], may_r[at], want) as u8;
    }
}

/// Of each pair of columns beside a segment whether some columns between what is full for certain
/// and what may be full draw the wanted style on it, by place: 1 where some do, else 0. A bit that
/// is set is a cell, and bit 0 is the nearest; wanted are 0 for Blank, 1 for Dashed and 2 for
/// Solid.
pub fn still_meets(
    full_l: &[u64],
    may_l: &[u64],
    full_r: &[u64],
    may_r: &[u64],
    want: &[u8],
    out: &mut [u8],
)
    requires may_l { length may_l.now ≡ length full_l.now }
    requires full_r { length full_r.now ≡ length full_l.now }
    requires may_r { length may_r.now ≡ length full_l.now }
    requires want { length want.now ≡ length full_l.now }
    requires out { length out.old ≡ length full_l.now }
    requires within_l { (k : ℕ) → k < length full_l.now
        → LiesWithin (slice_index_or full_l.now k 0) (slice_index_or may_l.now k 0) }
    requires within_r { (k : ℕ) → k < length full_l.now
        → LiesWithin (slice_index_or full_r.now k 0) (slice_index_or may_r.now k 0) }
    requires wanted { (k : ℕ) → k < length full_l.now → slice_index_or want.now k 0 < 3 }
    ensures { (k : ℕ) → k < length full_l.now
        → IsMetByte (slice_index_or out.new k 0) (slice_index_or want.now k 0)
        (known_bits (slice_index_or full_l.now k 0) (slice_index_or may_l.now k 0))
        (known_bits (slice_index_or full_r.now k 0) (slice_index_or may_r.now k 0)) }
{
    put_met_eights(full_l, may_l, full_r, may_r, want, out);
    put_met_rest(
        full_l,
        may_l,
        full_r,
        may_r,
        want,
        out,
        full_l.len() / LANES * LANES,
    );
}
