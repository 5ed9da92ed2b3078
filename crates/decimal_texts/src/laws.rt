//! Laws of printed numbers. Each is the contract of a function that does nothing.

ghost use Rattle.std.specs.Prelude.{◌≡◌, ◌/◌, ◌^◌, ◌<◌, ◌++◌, ℕ, length, pos, negsuc, codes, decimal};
ghost use Rattle.std.specs.Str.Parse.{AllDigits, digits_value};
ghost use Rattle.decimal_texts.specs.Decimals.{last_digits, decimal_text};

/// Behind the point stand exactly as many digits as there are decimals, and the digits before it
/// and behind it, as one whole number, are the number.
pub fn printed_digits()
    ensures exact { (decimals n : ℕ) → length (last_digits decimals n) ≡ decimals }
    ensures digits { (decimals n : ℕ) → AllDigits 10 (last_digits decimals n) }
    ensures number { (decimals n : ℕ) → n < 2 ^ 64
        → digits_value 10 (decimal (n / 10 ^ decimals) ++ last_digits decimals n) ≡ n }
{}

/// Some numbers, written out by hand.
pub fn small_decimals()
    ensures whole { decimal_text 0 (negsuc 11) ≡ codes "-12" }
    ensures half { decimal_text 1 (negsuc 4) ≡ codes "-0.5" }
    ensures zero { decimal_text 1 (pos 0) ≡ codes "0.0" }
    ensures several { decimal_text 3 (pos 12507) ≡ codes "12.507" }
    ensures zeros { decimal_text 2 (pos 1200) ≡ codes "12.00" }
    ensures least { decimal_text 6 (negsuc 0) ≡ codes "-0.000001" }
{}
