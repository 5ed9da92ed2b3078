//! The words of a line.

ghost use Rattle.std.specs.Prelude.{◌≡◌, Some, None, MatchOption};
ghost use Rattle.std.specs.Str.{bytes_eq};
ghost use Rattle.text_lines.specs.Words.{cut, either_word};

/// The line's first word, and what stands behind the space that ends it, if there is one.
pub fn cut(line: &[u8]) -> (&[u8], Option<&[u8]>)
    ensures word { result.0.now ≡ (cut line.now).word }
    ensures rest { MatchOption result.1 ((cut line.now).rest ≡ None)
        (λ rest. (cut line.now).rest ≡ Some rest.now) }
{
    for place in 0..line.len() {
        if line[place] == b' ' {
            let (_, behind) = line.split_at(place + 1);
            return (&line[..place], Some(behind));
        }
    }
    (line, None)
}

/// The words are the same.
pub fn is_word(word: &[u8], wanted: &[u8]) -> bool
    ensures { result ≡ bytes_eq word.now wanted.now }
{
    word == wanted
}

/// Which of two words it is: `on` is true.
pub fn either(word: &[u8], off: &[u8], on: &[u8]) -> Option<bool>
    ensures { result ≡ either_word off.now on.now word.now }
{
    if is_word(word, off) {
        Some(false)
    } else if is_word(word, on) {
        Some(true)
    } else {
        None
    }
}
