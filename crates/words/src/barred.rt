//! Words that are refused before the parse, since `clap` takes them.
//!
//! An option's empty value isn't among them: its range refuses it.

ghost use Rattle.std.specs.Prelude.{◌≡◌, string_bytes, map};
ghost use Rattle.std.specs.List.{list_any};
ghost use Rattle.words.specs.Barred.{begins_with_plus, has_equals_plus, is_barred_word};

/// The text begins with `+`.
fn begins_with_plus(text: &[u8]) -> bool
    ensures { result ≡ begins_with_plus text.now }
{
    matches!(text, [b'+', ..])
}

/// `=+` stands in the text.
fn has_equals_plus(text: &[u8]) -> bool
    ensures { result ≡ has_equals_plus text.now }
{
    for (place, byte) in text.iter().enumerate() {
        if *byte == b'=' && begins_with_plus(&text[place + 1..]) {
            return true;
        }
    }
    false
}

/// The word begins with `+`, has `=+` in it or is `--`.
fn is_barred_word(word: &str) -> bool
    ensures { result ≡ is_barred_word word.now }
{
    let text = word.as_bytes();
    begins_with_plus(text) || has_equals_plus(text) || word == "--"
}

/// Such a word is among them.
pub fn some_barred(words: &[String]) -> bool
    ensures { result ≡ list_any is_barred_word (map string_bytes words.now) }
{
    for word in words {
        if is_barred_word(word.as_str()) {
            return true;
        }
    }
    false
}
