//! Numbers as words.

ghost use Rattle.std.specs.Prelude.{◌≡◌};
ghost use Rattle.text_lines.specs.Numbers.{number_of_word};

/// The number that a word is: one to ten digits, without a leading zero.
pub fn number(word: &[u8]) -> Option<u64>
    ensures { result ≡ number_of_word word.now }
{
    let len = word.len();
    if len == 0 || len > 10 {
        return None;
    }
    if word[0] == b'0' && len != 1 {
        return None;
    }
    let mut number: u64 = 0;
    for place in 0..len {
        let digit = word[place];
        if !digit.is_ascii_digit() {
            return None;
        }
        number = number * 10 + u64::from(digit - b'0');
    }
    Some(number)
}
