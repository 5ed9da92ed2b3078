//! A seat that steals from another worker's deque.
//!
//! `steal` alone takes the runtime, since it tries again where others were quicker.

ghost use Rattle.std.specs.Prelude.{◌≡◌, ◌++◌, ◌∷◌, [], MatchOption};
ghost use Rattle.steal_pool.specs.Accounts.{Held, WasFirst};
ghost use Rattle.steal_pool.specs.Seats.{thief_account, opened_thief};

use crate::rule::{Account, Balance, Takes};
use crossbeam_deque::{Pass, Steal, Stealer};
use solid_model::Prefix;
use std::alloc::Global;
use std::marker::Model;
use std::sync::Wait;

/// A seat that steals from another worker's deque. Contracts see which deque it is, and what the
/// seat has stolen, in order.
#[derive(Drop)]
pub struct ThiefSeat {
    pub(crate) stealer: Stealer<Prefix, Global, Account, Balance>,
    pub(crate) pass: Pass<Prefix, Account>,
}

impl Model for ThiefSeat {
    ghost use Rattle.std.specs.Prelude.{◌≡◌, ◌<◌, []};
    ghost use Rattle.crossbeam_deque.specs.Handles.{view as knows, IsPassOf, stealer_deque, stealer_flavor};
    ghost use Rattle.steal_pool.specs.Seats.{ThiefState};

    ghost Value = { ThiefState };

    ghost view = { λ s. record {
      deque = stealer_deque s.stealer;
      parts = (knows s.pass).parts;
      taken = (knows s.pass).taken;
    } };

    ghost invariant = { λ s. IsPassOf (stealer_deque s.stealer) s.pass
        × (stealer_flavor s.stealer ≡ 0)
        × (0 < (knows s.pass).parts)
        × ((knows s.pass).put ≡ []) };
}

impl ThiefSeat {
    /// Steals the deque's first piece. `None` only where the deque was empty at a step of the call:
    /// the clause can't tell that of a seat that has a part of 64, and tests do. Where others were
    /// quicker it tries again, so it may wait.
    pub fn steal<R: Wait>(&mut self, rt: &R) -> Option<Prefix>
        ensures stolen { MatchOption result
            ((self.new ≡ self.old) × Held [] (thief_account self.old))
            (λ piece. (self.new ≡ record self.old { taken = self.old.taken ++ piece ∷ [] })
            × WasFirst (piece ∷ []) (thief_account self.old)) }
        ensures seat { opened_thief self.new ≡ opened_thief self.old }
    {
        for _ in rt.forever() {
            match self.stealer.steal_as::<Takes>(&mut self.pass) {
                Steal::Success(piece) => return Some(piece),
                Steal::Empty => return None,
                Steal::Retry => {}
            }
        }
        unreachable!()
    }
}
