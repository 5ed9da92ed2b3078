//! What the tests share: pieces that are told by numbers.

mod small;
mod threads;

use solid_model::{Memory, Prefix};
use std::alloc::Global;

/// A piece has so many binary digits.
const DIGITS: usize = 17;

/// The piece of a number below 2^17.
fn piece(alloc: Global, number: u32) -> Result<Prefix, Memory> {
    let mut digits = [false; DIGITS];
    let mut rest = number;
    for digit in digits.iter_mut() {
        *digit = rest % 2 == 1;
        rest /= 2;
    }
    Prefix::from_bools(alloc, &digits)
}

/// The number of a piece.
fn number_of(piece: &Prefix) -> u32 {
    let mut number: u32 = 0;
    for at in (0..piece.len()).rev() {
        number = number.wrapping_mul(2) + u32::from(piece.get(at));
    }
    number
}
