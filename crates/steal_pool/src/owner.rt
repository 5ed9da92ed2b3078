//! The seat that owns a deque: it puts pieces in, and takes them out again.
//!
//! At most 16,384 pieces wait in a deque, some 2 MB: its owner puts in what others are to take, and
//! what comes back it keeps.

ghost use Rattle.std.specs.Prelude.{◌≡◌, ◌<◌, ◌≤◌, ◌+◌, ◌-◌, ◌++◌, ◌∷◌, [], ℕ, length, vec_len, vec_capacity, IfOk, MatchOption, MatchResult};
ghost use Rattle.crossbeam_deque.specs.Handles.{stealer_deque};
ghost use Rattle.steal_pool.specs.Accounts.{Piece, Held, WasFirst};
ghost use Rattle.steal_pool.specs.Seats.{owner_account, opened_owner, new_thief, absorbed};
ghost use Rattle.lemmas.specs.Counts.{total};

use crate::rule::{Account, Balance, Counted, Puts, Shares, Takes, Whole};
use crate::thief::ThiefSeat;
use crossbeam_deque::{Stealer, Worker};
use solid_model::{Memory, Prefix};
use std::alloc::Global;
use std::marker::Model;

/// The most pieces that wait in a deque, unless more are sure.
const MOST_WAITING: usize = 16_384;

/// The seat that owns a deque, first in, first out. It waits for nobody. Contracts see which deque
/// it is, and what the seat has put and taken, in order.
#[derive(Drop)]
pub struct OwnerSeat {
    worker: Worker<Prefix, Global, Account, Balance>,
    /// How many first puts are sure.
    capacity: usize,
    /// How many pieces were put.
    count: usize,
}

impl Model for OwnerSeat {
    ghost use Rattle.std.specs.Prelude.{◌≡◌, ◌<◌, ◌≤◌, length};
    ghost use Rattle.crossbeam_deque.specs.Handles.{worker_deque, worker_flavor, worker_port, worker_view, worker_capacity, worker_index};
    ghost use Rattle.steal_pool.specs.Seats.{OwnerState};

    ghost Value = { OwnerState };

    ghost view = { λ s. record {
      deque = worker_deque s.worker;
      capacity = s.capacity;
      parts = (worker_view s.worker).parts;
      put = (worker_view s.worker).put;
      taken = (worker_view s.worker).taken;
    } };

    ghost invariant = { λ s. (worker_flavor s.worker ≡ 0)
        × (0 < (worker_view s.worker).parts)
        × (s.count ≡ length (worker_view s.worker).put)
        × (worker_index s.worker ≤ s.count)
        × (s.capacity ≤ worker_capacity s.worker)
        × (worker_port s.worker ≡ 0) };
}

impl OwnerSeat {
    /// The owner of a new deque, with memory for `capacity` pieces. An `Err` is out of memory.
    pub(crate) fn open(alloc: Global, capacity: usize) -> Result<OwnerSeat, Memory>
        ensures { IfOk result
            (λ s. (s.capacity ≡ capacity) × (s.parts ≡ 64) × (s.put ≡ []) × (s.taken ≡ [])) }
    {
        let worker = Worker::fifo_as(alloc, capacity)?;
        Ok(OwnerSeat {
            worker,
            capacity,
            count: 0,
        })
    }

    /// Puts a piece at the end of the deque. The piece comes back only where this seat has already
    /// put as many as the pool's capacity; the deque is then unchanged. There it does so where
    /// 16,384 pieces wait, or the deque can't grow: no clause says that.
    pub fn put(&mut self, piece: Prefix) -> Result<(), Prefix>
        ensures put { MatchResult result
            (λ _. self.new ≡ record self.old { put = self.old.put ++ piece ∷ [] })
            (λ back. (back ≡ piece) × (self.new ≡ self.old)
            × (self.old.capacity ≤ length self.old.put)) }
        ensures seat { opened_owner self.new ≡ opened_owner self.old }
    {
        if self.count == usize::MAX {
            return Err(piece);
        }
        let waiting = self.worker.len_as::<Counted>();
        if self.count >= self.capacity && waiting >= MOST_WAITING {
            return Err(piece);
        }
        match self.worker.push_as::<Puts>(piece) {
            Ok(()) => {
                self.count += 1;
                Ok(())
            }
            Err(back) => Err(back),
        }
    }

    /// Takes the deque's first piece. `None` only where the deque was empty at a step of the call:
    /// the clause tells that of a seat with all parts, at whose deque nobody else is; of others
    /// tests do.
    pub fn take(&mut self) -> Option<Prefix>
        ensures taken { MatchOption result
            ((self.new ≡ self.old) × Held [] (owner_account self.old))
            (λ piece. (self.new ≡ record self.old { taken = self.old.taken ++ piece ∷ [] })
            × WasFirst (piece ∷ []) (owner_account self.old)) }
        ensures seat { opened_owner self.new ≡ opened_owner self.old }
    {
        self.worker.pop_as::<Takes>()
    }

    /// How many pieces it has put.
    pub(crate) fn put_count(&self) -> usize
        ensures { result ≡ length self.now.put }
    {
        self.count
    }

    /// A handle of the deque, by which it can be told from others. An `Err` is out of memory.
    pub(crate) fn stealer(&self) -> Result<Stealer<Prefix, Global, Account, Balance>, Memory>
        ensures { IfOk result (λ s. stealer_deque s ≡ self.now.deque) }
    {
        Ok(self.worker.stealer()?)
    }

    /// A new seat that steals from this deque. An `Err` is out of memory.
    pub(crate) fn admit(&mut self) -> Result<ThiefSeat, Memory>
        requires { 1 < self.old.parts }
        ensures { IfOk result (λ t. (self.new ≡ record self.old { parts = self.old.parts - 1 })
            × (t ≡ new_thief self.old.deque)) }
    {
        let stealer = self.worker.stealer()?;
        let pass = self.worker.another::<Shares>();
        Ok(ThiefSeat { stealer, pass })
    }

    /// Takes in a seat that stole from this deque, with what it has stolen.
    pub(crate) fn absorb(&mut self, thief: ThiefSeat)
        requires { thief.deque ≡ self.old.deque }
        ensures { self.new ≡ absorbed self.old thief }
    {
        let ThiefSeat { stealer, pass } = thief;
        drop(stealer);
        self.worker.absorb::<Shares>(pass);
    }

    /// Takes what is left into reserved memory, once all that stole from this deque have come back.
    pub(crate) fn drain(&mut self, left: &mut Vec<Prefix>)
        requires whole { self.old.parts ≡ 64 }
        requires capacity { vec_len left.old + length self.old.put ≤ vec_capacity left.old }
        ensures capacity { vec_capacity left.new ≡ vec_capacity left.old }
        ensures left { (more : _) × (left.new.items ≡ left.old.items ++ more)
            × (self.new ≡ record self.old { taken = self.old.taken ++ more })
            × ((h : Piece → ℕ) → total h self.old.put ≡ total h self.old.taken + total h more) }
    {
        while self.worker.len_as::<Whole>() > 0 {
            match self.worker.pop_as::<Takes>() {
                Some(piece) => left.push_reserved(piece),
                None => break,
            }
        }
    }
}
