//! Choices for the first blocks.
//!
//! `resize` serves to make a prefix out of another one that begins alike: only what differs is
//! told.

ghost use Rattle.std.specs.Prelude.{◌≡◌, ◌≢◌, ◌≤◌, ◌<◌, ◌+◌, ℕ, false, length, take, slice_index_or};
ghost use Rattle.lemmas.specs.Bits.{is_set};
ghost use Rattle.lemmas.specs.Truth.{agree};

use crate::choice::Choice;
use crate::memory::Memory;
use std::alloc::Global;
use std::marker::Model;

/// A prefix says for each of the first blocks whether it is full, in the order of the blocks: of
/// block k bit k % 64 of word k / 64 does. Contracts see it as that list.
#[derive(Debug, Drop)]
pub struct Prefix {
    words: Vec<u64>,
    count: usize,
}

impl Model for Prefix {
    ghost use Rattle.std.specs.Prelude.{Bool, ◌*◌, ◌≤◌, List, length};
    ghost use Rattle.lemmas.specs.Bits.{first_bits};

    ghost Value = { List Bool };

    ghost view = { λ s. first_bits s.words.items s.count };

    ghost invariant = { λ s. s.count ≤ 64 * length s.words.items };
}

/// The value at a place, false beyond the end.
fn value_at(values: &[bool], place: usize) -> bool
    ensures { result ≡ slice_index_or values.now place false }
{
    values.get(place).copied().unwrap_or(false)
}

/// The word of the 64 values from a place on.
fn word_of(values: &[bool], from: usize) -> u64
    requires { from ≤ length values.now }
    ensures { (k : ℕ) → k < 64 → is_set result k ≡ slice_index_or values.now (from + k) false }
{
    let mut word: u64 = 0;
    for bit in 0..64 {
        if value_at(values, from + bit) {
            word |= 1 << bit;
        }
    }
    word
}

/// How many of the first words, of which so many are looked at, are the same.
fn same_words(left: &[u64], right: &[u64], most: usize) -> usize
    requires left { most ≤ length left.now }
    requires right { most ≤ length right.now }
    ensures within { result ≤ most }
    ensures same { take result left.now ≡ take result right.now }
    ensures differ { result < most
        → slice_index_or left.now result 0 ≢ slice_index_or right.now result 0 }
{
    for at in 0..most {
        if left[at] != right[at] {
            return at;
        }
    }
    most
}

/// How many of the first bits of two words are the same.
fn same_bits(left: u64, right: u64) -> usize
    requires { left ≢ right }
    ensures within { result < 64 }
    ensures same { (k : ℕ) → k < result → is_set left k ≡ is_set right k }
    ensures differ { agree (is_set left result) (is_set right result) ≡ false }
{
    (left ^ right).trailing_zeros() as usize
}

impl Prefix {
    ghost use Rattle.std.specs.Prelude.{◌≡◌, ◌≤◌, ◌<◌, ℕ, false, length, take, slice_index_or, slice_set, IfOk, MatchResult};
    ghost use Rattle.std.specs.List.{common_prefix_len};
    ghost use Rattle.lemmas.specs.Truth.{agree};

    /// The prefix with these values, block by block. An `Err` is out of memory.
    pub fn from_bools(alloc: Global, values: &[bool]) -> Result<Prefix, Memory>
        ensures { IfOk result (λ prefix. prefix ≡ values.now) }
    {
        let mut words = Vec::new(alloc);
        for number in 0..values.len().div_ceil(64) {
            words.push(word_of(values, number * 64))?;
        }
        Ok(Prefix {
            words,
            count: values.len(),
        })
    }

    /// The same prefix once more. An `Err` is out of memory.
    pub fn try_clone(&self) -> Result<Prefix, Memory>
        ensures { IfOk result (λ prefix. prefix ≡ self.now) }
    {
        Ok(Prefix {
            words: self.words.clone()?,
            count: self.count,
        })
    }

    /// Becomes the same as the other. An `Err` is out of memory, and leaves it as it is.
    pub fn try_clone_from(&mut self, other: &Prefix) -> Result<(), Memory>
        ensures { MatchResult result (λ _. self.new ≡ other.now) (λ _. self.new ≡ self.old) }
    {
        self.words.resize(other.words.len(), 0)?;
        self.words.copy_from_slice(other.words.as_slice());
        self.count = other.count;
        Ok(())
    }

    /// Says something of so many of the first blocks: the same as it said, as far as it is left,
    /// and nothing is known of more. An `Err` is out of memory, and leaves it as it is.
    pub fn resize(&mut self, count: usize) -> Result<(), Memory>
        ensures length { MatchResult result (λ _. length self.new ≡ count)
            (λ _. self.new ≡ self.old) }
        ensures kept { (k : ℕ) → k ≤ length self.old → k ≤ length self.new
            → take k self.new ≡ take k self.old }
    {
        self.words.resize(count.div_ceil(64), 0)?;
        self.count = count;
        Ok(())
    }

    /// What it says of the first blocks, so many. An `Err` is out of memory.
    pub fn first(&self, count: usize) -> Result<Prefix, Memory>
        requires { count ≤ length self.now }
        ensures { IfOk result (λ prefix. prefix ≡ take count self.now) }
    {
        let words = &self.words[..count.div_ceil(64)];
        Ok(Prefix {
            words: Vec::from_slice(*self.words.allocator(), words)?,
            count,
        })
    }

    /// Of how many of the first blocks both say the same.
    pub fn shared(&self, other: &Prefix) -> usize
        ensures { result ≡ common_prefix_len agree self.now other.now }
    {
        let most = self.count.min(other.count);
        let words = most.div_ceil(64);
        let same = same_words(self.words.as_slice(), other.words.as_slice(), words);
        if same == words {
            return most;
        }
        let begun = same * 64;
        begun + (most - begun).min(same_bits(self.words[same], other.words[same]))
    }

    /// Says something else of the block of this number.
    pub fn set(&mut self, at: usize, full: bool)
        requires { at < length self.old }
        ensures { self.new ≡ slice_set self.old at full }
    {
        let bit = 1 << (at % 64);
        let word = self.words[at / 64];
        self.words[at / 64] = if full { word | bit } else { word & !bit };
    }

    /// The choice that says the same.
    pub fn into_choice(self) -> Choice
        ensures { result ≡ self }
    {
        Choice::of(self)
    }

    /// Of how many blocks it says whether they are full.
    pub fn len(&self) -> usize
        ensures { result ≡ length self.now }
    {
        self.count
    }

    /// Whether the block of this number is full.
    pub fn get(&self, at: usize) -> bool
        requires { at < length self.now }
        ensures { result ≡ slice_index_or self.now at false }
    {
        (self.words[at / 64] >> (at % 64)) & 1 == 1
    }
}
