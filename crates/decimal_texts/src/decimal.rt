//! An integer divided by ten to a power, in plain decimals.

ghost use Rattle.std.specs.Prelude.{◌≡◌, ◌≤◌, ◌++◌, OnOk};
ghost use Rattle.std.specs.Fmt.{signed_decimal};
ghost use Rattle.solid_model.specs.Limits.{most_decimals};
ghost use Rattle.decimal_texts.specs.Decimals.{last_digits, pointed_text, decimal_text};

use itoa::Buffer;
use std::alloc::AllocError;

/// Adds a whole number.
fn push_whole(text: &mut Vec<u8>, number: i64) -> Result<(), AllocError>
    ensures { OnOk result (text.new.items ≡ text.old.items ++ signed_decimal number) }
{
    let mut buffer = Buffer::new();
    text.extend_from_slice(buffer.format(number).as_bytes())?;
    Ok(())
}

/// Adds the last digits of a number, so many, with zeros before them where it has fewer.
fn push_last_digits(text: &mut Vec<u8>, number: u64, count: u8) -> Result<(), AllocError>
    requires { count ≤ most_decimals }
    ensures { OnOk result (text.new.items ≡ text.old.items ++ last_digits count number) }
{
    let power = 10_u64.pow(u32::from(count));
    let mut buffer = Buffer::new();
    let behind_one = buffer.format(power + number % power).as_bytes();
    let (_, digits) = behind_one.split_at(1);
    text.extend_from_slice(digits)?;
    Ok(())
}

/// Adds a number divided by ten to a power, with so many digits behind a point.
fn push_pointed(text: &mut Vec<u8>, number: u64, decimals: u8) -> Result<(), AllocError>
    requires { decimals ≤ most_decimals }
    ensures { OnOk result (text.new.items ≡ text.old.items ++ pointed_text decimals number) }
{
    let mut buffer = Buffer::new();
    let whole = number / 10_u64.pow(u32::from(decimals));
    text.extend_from_slice(buffer.format(whole).as_bytes())?;
    text.extend_from_slice(b".")?;
    push_last_digits(text, number, decimals)
}

/// Adds an integer divided by ten to the power of `decimals`, which is at most 6, with exactly so
/// many digits behind the point: -5 with one decimal is `-0.5`. With no decimals there is no point.
/// An `Err` is out of memory.
pub fn push_decimal(text: &mut Vec<u8>, number: i64, decimals: u8) -> Result<(), AllocError>
    requires { decimals ≤ most_decimals }
    ensures { OnOk result (text.new.items ≡ text.old.items ++ decimal_text decimals number) }
{
    if decimals == 0 {
        return push_whole(text, number);
    }
    if number < 0 {
        text.extend_from_slice(b"-")?;
    }
    push_pointed(text, number.unsigned_abs(), decimals)
}
