//! The ledger of a desk.
//!
//! All memory that a report needs is taken before anything of it stands in the ledger, so that a
//! report that is handed back has changed nothing; prefixes that got places for it keep them, and
//! no clause sees them. No prefix is kept whole but the first piece: a copy of each would take a
//! request for memory each. It is made while memory is taken, of the one before it, since pieces
//! that were put one after another begin alike: so `first_piece` takes no memory.

ghost use Rattle.std.specs.Prelude.{◌≡◌, ◌<◌, ◌≤◌, ◌+◌, ◌++◌, ℕ, length, IfOk, IfSome, MatchOption};
ghost use Rattle.lemmas.specs.Lists.{Each};
ghost use Rattle.lemmas.specs.Counts.{times_listed};
ghost use Rattle.search_core.specs.Ledger.{ledger_of, next_first, IsBegun, HasGrown, HasPosted, KnowsFirst};
ghost use Rattle.search_core.specs.Copies.{AreCopies};
ghost use Rattle.search_core.specs.Postings.{HasCapacity, IsPosting, placed_or};
ghost use Rattle.prefix_tree.specs.Places.{StandsAt};
ghost use Rattle.search_core.specs.Frontier.{count_of};

use crate::copies::Copies;
use crate::frontier::{Frontier, first_of};
use crate::note::Note;
use prefix_tree::Prefixes;
use solid_model::{Choice, Memory, Prefix};
use std::alloc::Global;

/// A prefix and its place.
#[derive(Drop)]
pub struct Placed {
    pub prefix: Prefix,
    pub place: u32,
}

/// The ledger of a desk. Each prefix is named by its place, in the frontier and in the history too.
/// The places that were put into the frontier are the empty prefix's and then those of the rests,
/// report by report, as the choices found stand report by report: with the notes they are the
/// history. The first piece of the frontier is kept whole, or, where there is none, some prefix.
#[derive(Drop)]
pub struct Ledger {
    pub prefixes: Prefixes,
    pub frontier: Frontier,
    pub first: Placed,
    pub notes: Vec<Note>,
    pub found: Vec<Choice>,
}

/// What a report puts into the ledger: its choices, the places of its rest, and what will be the
/// first piece, if that is another one.
#[derive(Drop)]
pub struct Posting {
    pub found: Vec<Choice>,
    pub rest: Vec<u32>,
    pub first: Option<Placed>,
}

/// The copies that are there, or else new ones. An `Err` is out of memory.
fn copies_of(
    alloc: Global,
    found: &[Choice],
    rest: &[Prefix],
    ready: Option<Copies>,
) -> Result<Copies, Memory>
    requires { IfSome ready (AreCopies found.now rest.now) }
    ensures { IfOk result (AreCopies found.now rest.now) }
{
    match ready {
        Some(copies) => Ok(copies),
        None => Copies::new(alloc, found, rest),
    }
}

/// Becomes the other one, if there is one.
fn renew(placed: &mut Placed, other: Option<Placed>)
    ensures { placed.new ≡ placed_or placed.old other }
{
    if let Some(other) = other {
        *placed = other;
    }
}

/// Puts all these places.
fn put_all(frontier: &mut Frontier, rest: &[u32])
    requires places { Each (λ k. k < length frontier.old.counts) rest.now }
    requires capacity { length frontier.old.put + length rest.now ≤ frontier.old.capacity }
    ensures put { frontier.new.put ≡ frontier.old.put ++ rest.now }
    ensures ahead { frontier.new.ahead ≡ frontier.old.ahead ++ rest.now }
    ensures counts { (k : ℕ) → count_of frontier.new.counts k
        ≡ count_of frontier.old.counts k + times_listed k rest.now }
{
    for place in rest {
        frontier.put(*place);
    }
}

impl Ledger {
    /// A ledger in which nothing is noted; the empty prefix is in the frontier if it is live. An
    /// `Err` is out of memory.
    pub fn new(alloc: Global, live: bool) -> Result<Ledger, Memory>
        ensures begun { IfOk result (λ ledger. IsBegun (ledger_of ledger) live) }
        ensures first { IfOk result KnowsFirst }
    {
        let prefixes = Prefixes::new(alloc)?;
        let mut frontier = Frontier::new(alloc);
        frontier.reserve(prefixes.len(), 1)?;
        frontier.put(0);
        if !live {
            frontier.take(0);
        }
        let root = Prefix::from_bools(alloc, &[])?;
        Ok(Ledger {
            prefixes,
            frontier,
            first: Placed {
                prefix: root,
                place: 0,
            },
            notes: Vec::new(alloc),
            found: Vec::new(alloc),
        })
    }

    /// The place of a piece of the frontier. It is led to by the way of this number.
    pub fn frontier_place(&self, piece: &Prefix, by: usize) -> Option<u32>
        ensures { MatchOption result
            ((k : ℕ) → StandsAt self.now.prefixes piece.now k
            → count_of self.now.frontier.counts k ≡ 0)
            (λ k. StandsAt self.now.prefixes piece.now k
            × (0 < count_of self.now.frontier.counts k)) }
    {
        self.prefixes.known();
        let place = self.prefixes.place(piece, by)?;
        if self.frontier.holds(place) {
            Some(place)
        } else {
            None
        }
    }

    /// The place that will be the first of the frontier once this piece is taken and this rest put,
    /// or, where there will be none, that of the first piece now.
    fn next_first(&self, piece: u32, rest: &[u32]) -> u32
        ensures { result ≡ next_first self.now piece rest.now }
    {
        self.frontier.next(piece, first_of(rest, self.first.place))
    }

    /// What will be the first piece once this one is taken and this rest put, if that is another
    /// one than now. An `Err` is out of memory.
    fn placed_first(&self, piece: u32, rest: &[u32]) -> Result<Option<Placed>, Memory>
        requires first { KnowsFirst self.now }
        requires rest { Each (λ k. k < length self.now.prefixes) rest.now }
        ensures place { IfOk result (λ r.
            (placed_or self.now.first r).place ≡ next_first self.now piece rest.now) }
        ensures prefix { IfOk result (λ r. StandsAt self.now.prefixes
            (placed_or self.now.first r).prefix (placed_or self.now.first r).place) }
    {
        let place = self.next_first(piece, rest);
        if place == self.first.place {
            return Ok(None);
        }
        let prefix = self
            .prefixes
            .led(&self.first.prefix, self.first.place, place)?;
        Ok(Some(Placed { prefix, place }))
    }

    /// Takes all the memory that a report of this piece needs, and keeps copies of its choices:
    /// those that are ready, or else new ones. Its rest is led to by the way of this number. An
    /// `Err` is out of memory. What the ledger tells stays the same.
    pub fn prepare(
        &mut self,
        piece: u32,
        found: &[Choice],
        rest: &[Prefix],
        ready: Option<Copies>,
        by: usize,
    ) -> Result<Posting, Memory>
        requires copies { IfSome ready (AreCopies found.now rest.now) }
        requires first { KnowsFirst self.old }
        ensures grown { HasGrown (ledger_of self.old) (ledger_of self.new) }
        ensures first { KnowsFirst self.new }
        ensures posting { IfOk result (IsPosting self.new piece found.now rest.now) }
    {
        self.prefixes.known();
        let alloc = *self.notes.allocator();
        let Copies {
            found,
            places,
            alike,
        } = copies_of(alloc, found, rest, ready)?;
        let rest = self.prefixes.keep_all(rest, alike.as_slice(), places, by);
        let places = self.prefixes.len();
        let rest = rest?;
        self.frontier.reserve(places, rest.len())?;
        self.notes.reserve(1)?;
        self.found.reserve(found.len())?;
        let first = self.placed_first(piece, rest.as_slice())?;
        Ok(Posting { found, rest, first })
    }

    /// Notes a report of a piece of the frontier.
    pub fn post(&mut self, piece: u32, opened: u32, posting: Posting)
        requires piece { 0 < count_of self.old.frontier.counts piece }
        requires capacity { HasCapacity self.old posting }
        requires known { KnowsFirst self.old }
        requires rest { Each (λ k. k < length self.old.prefixes) posting.rest.items }
        requires first { StandsAt self.old.prefixes
            (placed_or self.old.first posting.first).prefix
            (placed_or self.old.first posting.first).place }
        requires next { (placed_or self.old.first posting.first).place
            ≡ next_first self.old piece posting.rest.items }
        ensures posted { HasPosted (ledger_of self.old) (ledger_of self.new) piece opened
            posting.found.items posting.rest.items }
        ensures first { KnowsFirst self.new }
    {
        let Posting {
            found: mut choices,
            rest,
            first,
        } = posting;
        renew(&mut self.first, first);
        self.notes.push_reserved(Note {
            piece,
            opened,
            found: choices.len(),
            rest: rest.len(),
        });
        self.frontier.take(piece);
        put_all(&mut self.frontier, rest.as_slice());
        // There is room, so this doesn't fail.
        let _moved = self.found.append(&mut choices);
    }
}
