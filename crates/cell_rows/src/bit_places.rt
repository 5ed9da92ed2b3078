//! The places of bits that are set.

ghost use Rattle.std.specs.Prelude.{◌≡◌, ◌≤◌, ◌<◌, ◌*◌, ◌^◌, ℕ, false, length, IsTrue};
ghost use Rattle.lemmas.specs.Bits.{is_set, bit_of};

/// A bit of a word is set.
pub fn has_bit(word: u64, bit: usize) -> bool
    requires { bit < 64 }
    ensures { result ≡ is_set word bit }
{
    (word >> bit) & 1 == 1
}

/// The number of the lowest bit that is set, 64 where none is.
fn lowest(word: u64) -> usize
    ensures few { result ≤ 64 }
    ensures none { (k : ℕ) → k < result → is_set word k ≡ false }
    ensures found { result < 64 → IsTrue (is_set word result) }
{
    word.trailing_zeros() as usize
}

/// The first place, from the beginning of a word on, whose bit is set; where none is, the end.
fn next_from_word(words: &[u64], from: usize) -> usize
    requires few { length words.now ≤ 2 ^ 32 }
    requires from { from ≤ length words.now }
    ensures later { from * 64 ≤ result }
    ensures within { result ≤ length words.now * 64 }
    ensures none { (k : ℕ) → from * 64 ≤ k → k < result → bit_of words.now k ≡ false }
    ensures found { result < length words.now * 64 → IsTrue (bit_of words.now result) }
{
    for number in from..words.len() {
        let bit = lowest(words[number]);
        if bit < 64 {
            return number * 64 + bit;
        }
    }
    words.len() * 64
}

/// The first place from a place on whose bit is set, where bit k % 64 of word k / 64 stands at
/// place k; where none is, the end of the words.
pub fn next_place(words: &[u64], from: usize) -> usize
    requires few { length words.now ≤ 2 ^ 32 }
    requires from { from ≤ length words.now * 64 }
    ensures later { from ≤ result }
    ensures within { result ≤ length words.now * 64 }
    ensures none { (k : ℕ) → from ≤ k → k < result → bit_of words.now k ≡ false }
    ensures found { result < length words.now * 64 → IsTrue (bit_of words.now result) }
{
    let number = from / 64;
    if number >= words.len() {
        return from;
    }
    let bit = lowest(words[number] >> (from % 64));
    if bit < 64 {
        return from + bit;
    }
    next_from_word(words, number + 1)
}
