//! Places of a list, told by the bits of one number: those that are 64 apart share a bit.
//!
//! Deciding notes which lines may force something: of each line that touches the block and can be
//! met it asks `are_free`, while the masks are at hand. Their places stand with the decision as the
//! bits of one word. Places that are 64 apart share a bit, so a set one may stand for a line that
//! is free, which costs a look. What was told needs no mending: a later decision that touches the
//! line has a word of its own. A list of such lines would have to be cut back with each decision
//! taken back.

ghost use Rattle.std.specs.Prelude.{◌≡◌, ◌%◌, ◌==◌, ◌||◌, ◌&&◌, ℕ};
ghost use Rattle.lemmas.specs.Bits.{is_set};

/// The place is told, or one that shares its bit.
pub fn has_place(places: u64, place: usize) -> bool
    ensures { result ≡ is_set places (place % 64) }
{
    places >> (place % 64) & 1 == 1
}

/// The place is told as well, if it is to be.
pub fn with_place(places: u64, place: usize, told: bool) -> u64
    ensures { (k : ℕ) → is_set result k ≡ (is_set places k || (told && (place % 64 == k))) }
{
    if told {
        places | 1 << (place % 64)
    } else {
        places
    }
}
