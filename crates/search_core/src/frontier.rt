//! The frontier of a search, by places.
//!
//! A count takes four bytes, since memory that is touched for the first time is dear under the
//! lock. That more would be put than 32 bits count is told as out of memory.

ghost use Rattle.std.specs.Prelude.{◌≡◌, ◌<◌, ◌≤◌, ℕ, length, drop, slice_index_or, OnOk};
ghost use Rattle.search_core.specs.Frontier.{count_of, count_without, first_or, passed};

use solid_model::Memory;
use std::alloc::Global;
use std::marker::Model;

/// How often a place is counted.
fn count_at(counts: &[u32], place: u32) -> u32
    ensures { result ≡ count_of counts.now place }
{
    counts.get(place as usize).copied().unwrap_or(0)
}

/// The first one of a list, or else this one.
pub fn first_of(list: &[u32], other: u32) -> u32
    ensures { result ≡ first_or other list.now }
{
    list.first().copied().unwrap_or(other)
}

/// How often a place is counted once this piece is taken.
fn count_without(counts: &[u32], piece: u32, place: u32) -> u32
    ensures { result ≡ count_without counts.now piece place }
{
    let count = count_at(counts, place);
    if place == piece {
        count.saturating_sub(1)
    } else {
        count
    }
}

/// Where the first place from here on stands that is counted once this piece is taken, of those
/// that were put.
fn first_without(put: &[u32], counts: &[u32], piece: u32, from: usize) -> usize
    requires { from ≤ length put.now }
    ensures from { from ≤ result }
    ensures within { result ≤ length put.now }
    ensures passed { passed (count_without counts.now piece) (drop from put.now)
        ≡ drop result put.now }
    ensures counted { result < length put.now
        → 0 < count_without counts.now piece (slice_index_or put.now result 0) }
{
    for at in from..put.len() {
        if count_without(counts, piece, put[at]) > 0 {
            return at;
        }
    }
    put.len()
}

/// So many places are counted, or more. An `Err` is out of memory.
fn count_more(counts: &mut Vec<u32>, places: usize) -> Result<(), Memory>
    ensures counts { (k : ℕ) → count_of counts.new.items k ≡ count_of counts.old.items k }
    ensures places { OnOk result (places ≤ length counts.new.items) }
{
    if counts.len() < places {
        counts.resize(places, 0)?;
    }
    Ok(())
}

/// The frontier of a search, by the places of its prefixes: which stand in it, and how often each.
/// Whether one does is looked up by its place. The first one is the one that was put first; what no
/// longer stands in it is passed over once.
#[derive(Drop)]
pub struct Frontier {
    put: Vec<u32>,
    counts: Vec<u32>,
    first: usize,
}

impl Model for Frontier {
    ghost use Rattle.std.specs.Prelude.{vec_capacity, drop, min};
    ghost use Rattle.search_core.specs.Frontier.{FrontierParts, IsFrontier, most_puts};

    ghost Value = { FrontierParts };

    ghost view = { λ s. record {
      put = s.put.items;
      counts = s.counts.items;
      ahead = drop s.first s.put.items;
      capacity = min (vec_capacity s.put) most_puts;
    } };

    ghost invariant = { λ s. IsFrontier s.put.items s.counts.items s.first };
}

impl Frontier {
    ghost use Rattle.std.specs.Prelude.{◌≡◌, ◌==◌, ◌<◌, ◌≤◌, ◌+◌, ◌++◌, ◌∷◌, ◌↔◌, [], ℕ, length, IsTrue, OnOk, MatchOption, if◌then◌else◌};
    ghost use Rattle.search_core.specs.Frontier.{count_of, count_without, first_or, passed, most_puts, IsFirstPut};

    /// None.
    pub fn new(alloc: Global) -> Frontier
        ensures put { result.put ≡ [] }
        ensures counts { result.counts ≡ [] }
        ensures ahead { result.ahead ≡ [] }
    {
        Frontier {
            put: Vec::new(alloc),
            counts: Vec::new(alloc),
            first: 0,
        }
    }

    /// Makes room for so many places, and for putting so many more. An `Err` is out of memory, or
    /// of 32-bit numbers for how often a place stands in it.
    pub fn reserve(&mut self, places: usize, more: usize) -> Result<(), Memory>
        ensures put { self.new.put ≡ self.old.put }
        ensures counts { (k : ℕ) → count_of self.new.counts k ≡ count_of self.old.counts k }
        ensures ahead { self.new.ahead ≡ self.old.ahead }
        ensures places { OnOk result (places ≤ length self.new.counts) }
        ensures capacity { OnOk result (length self.new.put + more ≤ self.new.capacity) }
    {
        if self.put.len().saturating_add(more) > u32::MAX as usize {
            return Err(Memory);
        }
        count_more(&mut self.counts, places)?;
        self.put.reserve(more)?;
        Ok(())
    }

    /// Whether a place stands in it.
    pub fn holds(&self, place: u32) -> bool
        ensures { IsTrue result ↔ (0 < count_of self.now.counts place) }
    {
        match self.counts.get(place as usize) {
            Some(count) => *count > 0,
            None => false,
        }
    }

    /// The place that was put first of those in it, if there is one.
    pub fn first(&self) -> Option<u32>
        ensures first { MatchOption result ((k : ℕ) → count_of self.now.counts k ≡ 0)
            (IsFirstPut self.now.put self.now.counts) }
        ensures ahead { MatchOption result (self.now.ahead ≡ [])
            (λ place. (d : ℕ) → first_or d self.now.ahead ≡ place) }
    {
        if self.first < self.put.len() {
            Some(self.put[self.first])
        } else {
            None
        }
    }

    /// The place that will be the first once this piece is taken, or else this one.
    pub fn next(&self, piece: u32, other: u32) -> u32
        ensures { result
            ≡ first_or other (passed (count_without self.now.counts piece) self.now.ahead) }
    {
        let next = first_without(
            self.put.as_slice(),
            self.counts.as_slice(),
            piece,
            self.first,
        );
        first_of(&self.put[next..], other)
    }

    /// A place stands in it once more.
    pub fn put(&mut self, place: u32)
        requires place { place < length self.old.counts }
        requires capacity { length self.old.put < self.old.capacity }
        ensures put { self.new.put ≡ self.old.put ++ place ∷ [] }
        ensures ahead { self.new.ahead ≡ self.old.ahead ++ place ∷ [] }
        ensures counts { (k : ℕ) → count_of self.new.counts k
            ≡ (if k == place then count_of self.old.counts k + 1 else count_of self.old.counts k) }
        ensures places { length self.new.counts ≡ length self.old.counts }
        ensures capacity { self.new.capacity ≡ self.old.capacity }
    {
        self.put.push_reserved(place);
        self.counts[place as usize] += 1;
    }

    /// A place stands in it once less.
    pub fn take(&mut self, place: u32)
        requires { 0 < count_of self.old.counts place }
        ensures put { self.new.put ≡ self.old.put }
        ensures ahead { self.new.ahead ≡ passed (count_without self.old.counts place)
            self.old.ahead }
        ensures counts { (k : ℕ) → count_of self.new.counts k
            ≡ count_without self.old.counts place k }
        ensures places { length self.new.counts ≡ length self.old.counts }
        ensures capacity { self.new.capacity ≡ self.old.capacity }
    {
        self.first = first_without(
            self.put.as_slice(),
            self.counts.as_slice(),
            place,
            self.first,
        );
        self.counts[place as usize] -= 1;
    }
}
