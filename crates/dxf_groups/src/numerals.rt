//! Numerals, and the whole numbers that they stand for.
//!
//! A numeral's digits are moved by its exponent and the decimals: no number can wrap, and nothing
//! loops over an exponent's value.

ghost use Rattle.std.specs.Prelude.{◌≡◌, ◌↔◌, ◌≤◌, IfOk, ℕ, ◌*◌, ◌^◌, ℤ, pos, ◌+ℤ◌, Option, option_map, true, false, IsTrue};
ghost use Rattle.std.specs.Str.Parse.{AllDigits, digits_value, digits_value_after, starts_with_minus, without_leading_sign};
ghost use Rattle.solid_model.specs.Limits.{most_decimals};
ghost use Rattle.solid_model.specs.Line.{IsNear};
ghost use Rattle.dxf_groups.specs.Numerals.{exponent_of, leading_digits, leading_places, magnitude_of, marked_exponent, past_digits, past_places, scaled_of, whole_of, with_sign, within_reach};
ghost use Rattle.dxf_groups.specs.NumeralParts.{capped, IsKeptExponent, IsKeptShift, IsExponent};

use thiserror::Error;

/// No coordinate's absolute value is above this.
const GREATEST: u64 = 1_000_000_000;

/// The most zeros at the end of a number of 64 bits.
const MOST_ZEROS: usize = 19;

/// Why a text gives no coordinate.
#[derive(Clone, Copy, Debug, PartialEq, Eq, Error)]
pub enum NumeralFault {
    /// The text is no numeral.
    #[error("the text is no numeral")]
    BadNumber,
    /// The numeral's value is not a whole number.
    #[error("the numeral's value is not a whole number")]
    NotWhole,
    /// The numeral's value is a whole number whose absolute value is above 1,000,000,000.
    #[error("the numeral's absolute value is above 1,000,000,000")]
    TooFar,
}

/// An exponent, by its sign and its absolute value. One that is too large counts as the greatest.
#[derive(Clone, Copy)]
struct Exponent {
    negative: bool,
    magnitude: usize,
}

/// Whether a text begins with a minus, and the text without its sign.
fn split_sign(text: &[u8]) -> (bool, &[u8])
    ensures negative { result.0 ≡ starts_with_minus text.now }
    ensures rest { result.1.now ≡ without_leading_sign text.now }
{
    match text {
        [b'-', rest @ ..] => (true, rest),
        [b'+', rest @ ..] => (false, rest),
        _ => (false, text),
    }
}

/// The digits that a text begins with, and what follows them.
fn split_digits(text: &[u8]) -> (&[u8], &[u8])
    ensures leading { result.0.now ≡ leading_digits text.now }
    ensures past { result.1.now ≡ past_digits text.now }
    ensures digits { AllDigits 10 result.0.now }
{
    let end = text
        .iter()
        .position(|b| !b.is_ascii_digit())
        .unwrap_or(text.len());
    text.split_at(end)
}

/// The digits after the point that a text begins with, and what follows them; no digits where the
/// point is absent.
fn split_places(text: &[u8]) -> (&[u8], &[u8])
    ensures leading { result.0.now ≡ leading_places text.now }
    ensures past { result.1.now ≡ past_places text.now }
    ensures digits { AllDigits 10 result.0.now }
{
    match text {
        [b'.', rest @ ..] => split_digits(rest),
        _ => text.split_at(0),
    }
}

/// The number that digits write when they follow those of `number`. One that is too large counts as
/// the greatest.
fn number_after(number: u64, digits: &[u8]) -> u64
    requires { AllDigits 10 digits.now }
    ensures { result ≡ capped (digits_value_after 10 number digits.now) }
{
    let mut number = number;
    for digit in digits {
        number = number
            .saturating_mul(10)
            .saturating_add(u64::from(*digit - b'0'));
    }
    number
}

/// The exponent that a text is: none at all, which is 0, or `E` or `e`, a sign and digits.
fn exponent_of(text: &[u8]) -> Option<Exponent>
    ensures { IsExponent (exponent_of text.now) result }
{
    match text {
        [] => Some(Exponent {
            negative: false,
            magnitude: 0,
        }),
        [b'E' | b'e', rest @ ..] => marked_exponent(rest),
        _ => None,
    }
}

/// The exponent of a sign and digits, at least one and nothing after them.
fn marked_exponent(text: &[u8]) -> Option<Exponent>
    ensures { IsExponent (marked_exponent text.now) result }
{
    let (negative, rest) = split_sign(text);
    let (digits, rest) = split_digits(rest);
    if digits.is_empty() || !rest.is_empty() {
        return None;
    }
    let magnitude = number_after(0, digits) as usize;
    Some(Exponent {
        negative,
        magnitude,
    })
}

/// Each digit is 0.
fn are_zeros(digits: &[u8]) -> bool
    requires { AllDigits 10 digits.now }
    ensures { IsTrue result ↔ digits_value 10 digits.now ≡ 0 }
{
    digits.iter().all(|digit| *digit == b'0')
}

/// A number with zeros added at its end. One that is too large counts as the greatest.
fn with_zeros(number: u64, zeros: usize) -> u64
    ensures { result ≡ capped (number * 10 ^ zeros) }
{
    if number == 0 {
        0
    } else if zeros > MOST_ZEROS {
        u64::MAX
    } else {
        number.saturating_mul(10_u64.pow(zeros as u32))
    }
}

/// The number that digits before and after a point write once the point is moved to the left; None
/// where it isn't whole. One that is too large counts as the greatest.
fn moved_left(before: &[u8], after: &[u8], by: usize) -> Option<u64>
    requires before { AllDigits 10 before.now }
    requires after { AllDigits 10 after.now }
    ensures { (n : ℕ) → IsKeptShift by n
        → result ≡ option_map capped (magnitude_of before.now after.now (with_sign true n)) }
{
    let (whole, rest) = before.split_at(before.len().saturating_sub(by));
    if are_zeros(rest) && are_zeros(after) {
        Some(number_after(0, whole))
    } else {
        None
    }
}

/// The number that digits before and after a point write once the point is moved to the right; None
/// where it isn't whole. One that is too large counts as the greatest.
fn moved_right(before: &[u8], after: &[u8], by: usize) -> Option<u64>
    requires before { AllDigits 10 before.now }
    requires after { AllDigits 10 after.now }
    ensures { (n : ℕ) → IsKeptShift by n
        → result ≡ option_map capped (magnitude_of before.now after.now (with_sign false n)) }
{
    let (whole, rest) = after.split_at(after.len().min(by));
    if are_zeros(rest) {
        let number = number_after(number_after(0, before), whole);
        Some(with_zeros(number, by.saturating_sub(after.len())))
    } else {
        None
    }
}

/// The absolute value of a numeral with these digits and this exponent that is read with so many
/// decimals, where it is whole. One that is too large counts as the greatest.
fn magnitude(before: &[u8], after: &[u8], exponent: Exponent, decimals: u8) -> Option<u64>
    requires before { AllDigits 10 before.now }
    requires after { AllDigits 10 after.now }
    requires decimals { decimals ≤ most_decimals }
    ensures { (e : ℤ) → IsKeptExponent e exponent
        → result ≡ option_map capped (magnitude_of before.now after.now (e +ℤ pos decimals)) }
{
    let decimals = usize::from(decimals);
    if !exponent.negative {
        moved_right(before, after, exponent.magnitude.saturating_add(decimals))
    } else if exponent.magnitude > decimals {
        moved_left(before, after, exponent.magnitude - decimals)
    } else {
        moved_right(before, after, decimals - exponent.magnitude)
    }
}

/// The whole number of a sign and an absolute value, where there is one and it's at most
/// `GREATEST`.
fn within_reach(negative: bool, magnitude: Option<u64>) -> Result<i64, NumeralFault>
    ensures { (m : Option ℕ) → magnitude ≡ option_map capped m
        → result ≡ within_reach negative m }
{
    match magnitude {
        None => Err(NumeralFault::NotWhole),
        Some(magnitude) if magnitude > GREATEST => Err(NumeralFault::TooFar),
        Some(magnitude) if negative => Ok(-(magnitude as i64)),
        Some(magnitude) => Ok(magnitude as i64),
    }
}

/// The whole number that a text stands for in units of ten to the power of minus `decimals`, which
/// are at most 6. A numeral is an optional `+` or `-`, then digits with at most one point among,
/// before or after them, at least one digit in all, then optionally `E` or `e`, an optional sign
/// and at least one digit. Its value is exact, however many digits it has: the digits as a whole
/// number, times ten to the power of the exponent and `decimals` together, divided by ten for each
/// digit after the point. `BadNumber` comes where the text is no numeral, else `NotWhole` where its
/// value isn't whole, else `TooFar` where its absolute value is above 1,000,000,000. It takes no
/// memory, and looks at each byte no more than four times.
pub fn scaled(text: &[u8], decimals: u8) -> Result<i64, NumeralFault>
    requires { decimals ≤ most_decimals }
    ensures value { result ≡ scaled_of decimals text.now }
    ensures near { IfOk result IsNear }
{
    let (negative, rest) = split_sign(text);
    let (before, rest) = split_digits(rest);
    let (after, rest) = split_places(rest);
    let Some(exponent) = exponent_of(rest) else {
        return Err(NumeralFault::BadNumber);
    };
    if before.is_empty() && after.is_empty() {
        return Err(NumeralFault::BadNumber);
    }
    within_reach(negative, magnitude(before, after, exponent, decimals))
}

/// The whole number that a text stands for without decimals: `scaled` with 0 of them.
pub fn whole(text: &[u8]) -> Result<i64, NumeralFault>
    ensures value { result ≡ whole_of text.now }
    ensures near { IfOk result IsNear }
{
    scaled(text, 0)
}
