//! Prefixes, each of which is named by its place.
//!
//! Each worker has a way of its own. Were there one for all, each worker would find it where
//! another one left it, in another part of the tree, and walk down to its own piece over nodes that
//! another processor has written, under the lock. No clause speaks of the ways: each leads to the
//! same places.

ghost use Rattle.std.specs.Prelude.{◌≡◌, ◌<◌, ◌≤◌, ◌+◌, ◌++◌, ◌∷◌, [], Bool, List, length, map, take, slice_index_or, IfOk};
ghost use Rattle.lemmas.specs.Lists.{Each};
ghost use Rattle.prefix_tree.specs.Alike.{BeginAlike};
ghost use Rattle.prefix_tree.specs.Nodes.{IsWay, AreWays};
ghost use Rattle.prefix_tree.specs.Places.{prefix_at, StandsAt};

use crate::beginnings::told;
use crate::nodes::Nodes;
use crate::way::Way;
use solid_model::{Memory, Prefix};
use std::alloc::Global;
use std::marker::Model;

/// Prefixes, no two of them equal: those that lead to the nodes of a binary tree, value by value,
/// with the empty one first. The place of one is the number of its node, which is found in as many
/// steps as the prefix is long, however many there are. Ways are kept as they were led last: a
/// prefix that begins as such a way does is led from there, where it leaves it, and its values
/// until then are compared by words. Who asks names a way by a number, so that those who ask by
/// turns, of different parts of the tree, don't lose each other's.
#[derive(Drop)]
pub struct Prefixes {
    nodes: Nodes,
    ways: Vec<Way>,
}

/// How many ways are kept: one for each worker that there may be. Greater numbers begin anew with
/// the first.
const WAYS: usize = 64;

/// So many ways that stand at the root. An `Err` is out of memory.
fn ways_at_root(alloc: Global, count: usize) -> Result<Vec<Way>, Memory>
    requires { 0 < count }
    ensures { IfOk result (λ ways. AreWays ([] ∷ []) ways.items) }
{
    let mut ways = Vec::with_capacity(alloc, count)?;
    for _ in 0..count {
        ways.push(Way::new(alloc)?)?;
    }
    Ok(ways)
}

/// Leads a way on along a prefix, from where its first values lead, so many: there the way is left.
/// An `Err` is out of memory, or of 31-bit numbers for nodes.
fn lead(nodes: &mut Nodes, way: &mut Way, prefix: &Prefix, led: usize) -> Result<u32, Memory>
    requires led { led < length way.old.nodes }
    requires within { led ≤ length prefix.now }
    requires way { IsWay nodes.old
        record { values = prefix.now; nodes = take (led + 1) way.old.nodes } }
    ensures grown { (more : List (List Bool)) × (nodes.new ≡ nodes.old ++ more) }
    ensures way { IsWay nodes.new record { values = prefix.now; nodes = way.new.nodes } }
    ensures some { 0 < length way.new.nodes }
    ensures count { IfOk result (λ _. length way.new.nodes ≡ length prefix.now + 1) }
    ensures place { IfOk result (StandsAt nodes.new prefix.now) }
{
    way.leave(led);
    let mut at = way.node(led);
    for block in led..prefix.len() {
        at = nodes.step(at, prefix.get(block))?;
        way.push(at)?;
    }
    Ok(at)
}

/// Leads a way on along prefixes, one after another, the first of them from where its first values
/// lead, so many, and puts their places into a list that is empty yet. An `Err` is out of memory,
/// or of 31-bit numbers for nodes.
fn lead_all(
    nodes: &mut Nodes,
    way: &mut Way,
    prefixes: &[Prefix],
    alike: &[usize],
    led: usize,
    places: Vec<u32>,
) -> Result<Vec<u32>, Memory>
    requires some { 0 < length prefixes.now }
    requires led { led < length way.old.nodes }
    requires within { led ≤ length (prefix_at prefixes.now 0) }
    requires way { IsWay nodes.old
        record { values = prefix_at prefixes.now 0; nodes = take (led + 1) way.old.nodes } }
    requires alike { BeginAlike prefixes.now alike.now }
    requires none { places.items ≡ [] }
    ensures grown { (more : List (List Bool)) × (nodes.new ≡ nodes.old ++ more) }
    ensures way { IfOk result (λ _. IsWay nodes.new way.new) }
    ensures some { 0 < length way.new.nodes }
    ensures root { StandsAt nodes.new [] (slice_index_or way.new.nodes 0 0) }
    ensures below { IfOk result (λ places. Each (λ k. k < length nodes.new) places.items) }
    ensures places { IfOk result (λ places.
        map (prefix_at nodes.new) places.items ≡ prefixes.now) }
{
    let mut places = places;
    let mut led = led;
    for at in 0..prefixes.len() {
        places.push(lead(nodes, way, &prefixes[at], led)?)?;
        led = told(alike, at);
    }
    way.say(&prefixes[prefixes.len() - 1])?;
    Ok(places)
}

/// Leads a way along prefixes, one after another, and puts their places into a list that is empty
/// yet. An `Err` is out of memory, or of 31-bit numbers for nodes, and leaves the way at the root.
fn lead_along(
    nodes: &mut Nodes,
    way: &mut Way,
    prefixes: &[Prefix],
    alike: &[usize],
    places: Vec<u32>,
) -> Result<Vec<u32>, Memory>
    requires some { 0 < length prefixes.now }
    requires way { IsWay nodes.old way.old }
    requires alike { BeginAlike prefixes.now alike.now }
    requires none { places.items ≡ [] }
    ensures grown { (more : List (List Bool)) × (nodes.new ≡ nodes.old ++ more) }
    ensures way { IsWay nodes.new way.new }
    ensures below { IfOk result (λ places. Each (λ k. k < length nodes.new) places.items) }
    ensures places { IfOk result (λ places.
        map (prefix_at nodes.new) places.items ≡ prefixes.now) }
{
    let led = way.shared(&prefixes[0]);
    match lead_all(nodes, way, prefixes, alike, led, places) {
        Ok(places) => Ok(places),
        Err(_) => {
            way.leave(0);
            Err(Memory)
        }
    }
}

impl Model for Prefixes {
    ghost use Rattle.std.specs.Prelude.{List, Bool};
    ghost use Rattle.prefix_tree.specs.Nodes.{AreWays};

    ghost Value = { List (List Bool) };

    ghost view = { λ s. s.nodes };

    ghost invariant = { λ s. AreWays s.nodes s.ways.items };
}

impl Prefixes {
    ghost use Rattle.std.specs.Prelude.{◌≡◌, ◌<◌, ◌++◌, ◌∷◌, [], ℕ, Bool, List, length, map, IfOk, MatchOption};
    ghost use Rattle.lemmas.specs.Lists.{Each};
    ghost use Rattle.prefix_tree.specs.Alike.{BeginAlike};
    ghost use Rattle.prefix_tree.specs.Places.{prefix_at, AreDistinct, StandsAt};
    ghost use Rattle.prefix_tree.specs.Nodes.{IsMeeting};

    /// The empty prefix alone. An `Err` is out of memory.
    pub fn new(alloc: Global) -> Result<Prefixes, Memory>
        ensures { IfOk result (λ prefixes. prefixes ≡ [] ∷ []) }
    {
        Ok(Prefixes {
            nodes: Nodes::new(alloc)?,
            ways: ways_at_root(alloc, WAYS)?,
        })
    }

    /// Each stands once.
    pub fn known(&self)
        ensures { AreDistinct self.now }
    {
        self.nodes.known();
    }

    /// How many there are. Each stands once.
    pub fn len(&self) -> usize
        ensures count { result ≡ length self.now }
        ensures distinct { AreDistinct self.now }
    {
        self.nodes.known();
        self.nodes.len()
    }

    /// The place of a prefix, if it has one. It is led to by the way of this number.
    pub fn place(&self, prefix: &Prefix, by: usize) -> Option<u32>
        ensures { MatchOption result ((k : ℕ) → ¬ StandsAt self.now prefix.now k)
            (StandsAt self.now prefix.now) }
    {
        let way = &self.ways[by % self.ways.len()];
        let led = way.shared(prefix);
        let mut at = way.node(led);
        for block in led..prefix.len() {
            match self.nodes.child(at, prefix.get(block)) {
                Some(next) => at = next,
                None => return None,
            }
        }
        Some(at)
    }

    /// The places of prefixes, in a list that is empty yet. A prefix that has none comes behind the
    /// others, after those that it begins with and that have none. It is told with how many same
    /// values each prefix and the next one begin, at least. They are led to by the way of this
    /// number. An `Err` is out of memory, or of 31-bit numbers for places.
    pub fn keep_all(
        &mut self,
        prefixes: &[Prefix],
        alike: &[usize],
        places: Vec<u32>,
        by: usize,
    ) -> Result<Vec<u32>, Memory>
        requires alike { BeginAlike prefixes.now alike.now }
        requires none { places.items ≡ [] }
        ensures grown { (more : List (List Bool)) × (self.new ≡ self.old ++ more) }
        ensures below { IfOk result (λ places. Each (λ k. k < length self.new) places.items) }
        ensures places { IfOk result (λ places.
            map (prefix_at self.new) places.items ≡ prefixes.now) }
    {
        if prefixes.is_empty() {
            return Ok(places);
        }
        let which = by % self.ways.len();
        lead_along(
            &mut self.nodes,
            &mut self.ways[which],
            prefixes,
            alike,
            places,
        )
    }

    /// How many values the ways to two places share, and how many more lead to the second one.
    fn meeting(&self, count: usize, from: u32, to: u32) -> (usize, usize)
        requires from { from < length self.now }
        requires to { to < length self.now }
        requires count { count ≡ length (prefix_at self.now from) }
        ensures { IsMeeting (prefix_at self.now from) (prefix_at self.now to) result.0 result.1 }
    {
        self.nodes.known();
        let mut from = from;
        let mut to = to;
        let mut shared = count;
        let mut more = 0;
        while from != to {
            if from > to {
                from = self.nodes.before(from).0;
                shared -= 1;
            } else {
                to = self.nodes.before(to).0;
                more += 1;
            }
        }
        (shared, more)
    }

    /// The prefix at a place, made of that at another one, which it may begin like. An `Err` is out
    /// of memory.
    pub fn led(&self, prefix: &Prefix, from: u32, to: u32) -> Result<Prefix, Memory>
        requires from { StandsAt self.now prefix.now from }
        requires to { to < length self.now }
        ensures { IfOk result (λ led. led ≡ prefix_at self.now to) }
    {
        self.nodes.known();
        let (shared, more) = self.meeting(prefix.len(), from, to);
        let mut led = prefix.try_clone()?;
        led.resize(shared + more)?;
        let mut at = to;
        for back in 0..more {
            let (before, value) = self.nodes.before(at);
            led.set(shared + more - back - 1, value);
            at = before;
        }
        Ok(led)
    }
}
