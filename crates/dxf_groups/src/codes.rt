//! Group codes.

ghost use Rattle.std.specs.Prelude.{◌≡◌, ◌&&◌, ◌+◌, ◌-◌, ◌*◌, ◌==◌, [], ◌∷◌, Some, None, IfSome, false, cond};
ghost use Rattle.std.specs.Char.{is_ascii_digit};
ghost use Rattle.std.specs.Str.Parse.{digits_value};
ghost use Rattle.dxf_groups.specs.Codes.{are_few_digits, group_code_of};
ghost use Rattle.dxf_groups.specs.TextLines.{content_of, is_feed};

/// The code of a comment.
pub const COMMENT: i32 = 999;

/// The number that four decimal digits write. None where one of the bytes is none.
fn number_of(a: u8, b: u8, c: u8, d: u8) -> Option<u16>
    ensures { result
        ≡ cond (is_ascii_digit a && (is_ascii_digit b && (is_ascii_digit c && is_ascii_digit d)))
        (Some ((((a - 48) * 10 + (b - 48)) * 10 + (c - 48)) * 10 + (d - 48))) None }
{
    let are_digits = a.is_ascii_digit()
        && b.is_ascii_digit()
        && c.is_ascii_digit()
        && d.is_ascii_digit();
    if !are_digits {
        return None;
    }
    let hundreds = u16::from(a - b'0') * 10 + u16::from(b - b'0');
    Some(hundreds * 100 + u16::from(c - b'0') * 10 + u16::from(d - b'0'))
}

/// The byte, or a zero in place of a space behind a space.
fn digit_behind(before: u8, byte: u8) -> u8
    ensures { result ≡ cond (before == 32 && byte == 32) 48 byte }
{
    if before == b' ' && byte == b' ' {
        b'0'
    } else {
        byte
    }
}

/// The group code on a line of three columns, which is how most writers set it: digits up to the
/// last column, with spaces before them. None where the bytes are anything else.
#[inline(always)]
pub fn code_in_columns(a: u8, b: u8, c: u8) -> Option<i32>
    ensures code { IfSome result (λ code. group_code_of (content_of (a ∷ b ∷ c ∷ []))
        ≡ Some code) }
    ensures line { IfSome result (λ _. (is_feed a ≡ false) × (is_feed b ≡ false)
        × (is_feed c ≡ false) × ((c == 13) ≡ false)) }
{
    let number = number_of(b'0', digit_behind(b' ', a), digit_behind(a, b), c)?;
    Some(i32::from(number))
}

/// The number that one to four decimal digits write. None where the bytes are anything else.
fn few_digits(digits: &[u8]) -> Option<u16>
    ensures { result
        ≡ cond (are_few_digits digits.now) (Some (digits_value 10 digits.now)) None }
{
    match *digits {
        [d] => number_of(b'0', b'0', b'0', d),
        [c, d] => number_of(b'0', b'0', c, d),
        [b, c, d] => number_of(b'0', b, c, d),
        [a, b, c, d] => number_of(a, b, c, d),
        _ => None,
    }
}

/// The group code that the bytes spell: a minus sign or none, and one to four decimal digits. None
/// where they are anything else.
#[inline(always)]
pub fn group_code(text: &[u8]) -> Option<i32>
    ensures { result ≡ group_code_of text.now }
{
    let (negative, digits) = match text {
        [b'-', digits @ ..] => (true, digits),
        _ => (false, text),
    };
    let number = i32::from(few_digits(digits)?);
    Some(if negative { -number } else { number })
}
