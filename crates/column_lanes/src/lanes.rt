//! Lanes: numbers that are computed together.

ghost use Rattle.std.specs.Prelude.{◌≡◌, ◌<◌, ◌≤◌, ◌+◌, ◌^◌, ℕ, length, slice_index_or};
ghost use Rattle.lemmas.specs.Bits.{near};
ghost use Rattle.column_lanes.specs.Lanes.{AreLanes, AreBytes};

use std::simd::prelude::*;

/// How many lanes are computed together.
pub const LANES: usize = 8;

/// Of each number the bits down to the lowest one that is set, that one too; of 0 all bits.
pub fn near(lanes: u64x8) -> u64x8
    ensures { (value : ℕ → ℕ) → AreLanes lanes value → AreLanes result (λ k. near (value k)) }
{
    lanes ^ (lanes - u64x8::splat(1))
}

/// Puts lanes as bytes from a place on. Where the bytes before it have the values that some rule
/// gives to places, and the lanes too, all of them have.
pub fn put_lanes(lanes: u64x8, out: &mut [u8], at: usize)
    requires lanes { length lanes ≡ 8 }
    requires small { (k : ℕ) → k < 8 → slice_index_or lanes k 0 < 2 ^ 8 }
    requires there { at + 8 ≤ length out.old }
    ensures length { length out.new ≡ length out.old }
    ensures put { (value : ℕ → ℕ) → AreBytes value out.old at
        → ((k : ℕ) → k < 8 → slice_index_or lanes k 0 ≡ value (at + k))
        → AreBytes value out.new (at + 8) }
{
    lanes.cast::<u8>().copy_to_slice(&mut out[at..]);
}
