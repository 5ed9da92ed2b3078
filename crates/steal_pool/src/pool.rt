//! The pool: how it is opened and closed.
//!
//! A pool keeps a handle of each deque, by which its seats are told from another pool's. `Memory`
//! of `open` stands also for a capacity above 2^39, for which no deque is made. It grows by one
//! worker's seat at a time, which meets all earlier ones, and is closed from the last one on.

ghost use Rattle.std.specs.Prelude.{◌≡◌, ◌<◌, ◌≤◌, ◌+◌, ◌++◌, List, ℕ, length, map, vec_len, vec_capacity, IfOk, OnOk, MatchResult};
ghost use Rattle.crossbeam_deque.specs.Handles.{stealer_deque};
ghost use Rattle.steal_pool.specs.Accounts.{Piece};
ghost use Rattle.steal_pool.specs.Seats.{Deque, SeatState, new_seats, as_opened, AreMet, parted_seats, parted_owner, put_by, taken_by, times_put, times_taken};
ghost use Rattle.steal_pool.specs.WorkerSeats.{state_of, seat_of};
ghost use Rattle.lemmas.specs.Counts.{total, times_among};

use crate::owner::OwnerSeat;
use crate::rule::{Account, Balance};
use crate::seat::{WorkerSeat, leave_all, meet_all, put_count};
use crossbeam_deque::Stealer;
use solid_model::{Memory, Prefix};
use std::alloc::Global;
use std::marker::Model;

/// What stays with the opener of a pool while its workers are at work. Contracts see it as the list
/// of its seats, as they were when it was opened.
#[derive(Drop)]
pub struct Pool {
    capacity: usize,
    /// A handle of each deque.
    stealers: Vec<Stealer<Prefix, Global, Account, Balance>>,
}

impl Model for Pool {
    ghost use Rattle.std.specs.Prelude.{List, ◌≤◌, map, length};
    ghost use Rattle.crossbeam_deque.specs.Handles.{stealer_deque};
    ghost use Rattle.steal_pool.specs.Seats.{SeatState, new_seats};

    ghost Value = { List SeatState };

    ghost view = { λ s. new_seats s.capacity (map stealer_deque s.stealers.items) };

    ghost invariant = { λ s. length s.stealers.items ≤ 64 };
}

/// What a closed pool leaves: the pieces that nobody took.
#[derive(Drop)]
pub struct Remains {
    pub left: Vec<Prefix>,
}

/// Adds a deque and its worker's seat. An `Err` is out of memory.
fn add(
    alloc: Global,
    capacity: usize,
    seats: &mut Vec<WorkerSeat>,
    stealers: &mut Vec<Stealer<Prefix, Global, Account, Balance>>,
) -> Result<(), Memory>
    requires seats { map state_of seats.old.items
        ≡ new_seats capacity (map stealer_deque stealers.old.items) }
    requires few { length stealers.old.items < 64 }
    ensures seats { OnOk result
        (map state_of seats.new.items ≡ new_seats capacity (map stealer_deque stealers.new.items)) }
    ensures one_more { OnOk result (length stealers.new.items ≡ length stealers.old.items + 1) }
{
    let mut owner = OwnerSeat::open(alloc, capacity)?;
    let stealer = owner.stealer()?;
    let thieves = meet_all(alloc, seats.as_mut_slice(), &mut owner)?;
    stealers.push(stealer)?;
    seats.push(WorkerSeat { owner, thieves })?;
    Ok(())
}

/// Takes back the last seat, and what is left in its deque.
fn take_last(seats: &mut [WorkerSeat], last: WorkerSeat, left: &mut Vec<Prefix>)
    requires met { AreMet last.owner.deque (map state_of seats.old) last.thieves.items }
    requires parts { last.owner.parts + length seats.old ≡ 64 }
    requires capacity { vec_len left.old + length last.owner.put ≤ vec_capacity left.old }
    ensures seats { map state_of seats.new
        ≡ parted_seats (map state_of seats.old) last.thieves.items }
    ensures capacity { vec_capacity left.new ≡ vec_capacity left.old }
    ensures left { (more : List Piece) × (left.new.items ≡ left.old.items ++ more)
        × ((h : Piece → ℕ) → total h last.owner.put
        ≡ total h (parted_owner last.owner (map state_of seats.old)).taken + total h more) }
{
    let WorkerSeat { mut owner, thieves } = last;
    leave_all(seats, &mut owner, thieves);
    owner.drain(left);
}

/// Takes back all seats, and what is left in their deques, into reserved memory.
fn take_all(seats: Vec<WorkerSeat>, left: &mut Vec<Prefix>)
    requires seats { (capacity : ℕ) × (deques : List Deque) × (length deques ≤ 64)
        × (map as_opened (map state_of seats.items) ≡ new_seats capacity deques) }
    requires capacity { vec_len left.old
        + total (λ s. length s.owner.put) (map state_of seats.items) ≤ vec_capacity left.old }
    ensures { (h : Piece → ℕ) → total (put_by h) (map state_of seats.items) + total h left.old.items
        ≡ total (taken_by h) (map state_of seats.items) + total h left.new.items }
{
    let mut seats = seats;
    while let Some(last) = seats.pop() {
        take_last(seats.as_mut_slice(), last, left);
    }
}

impl Pool {
    /// Opens a pool of so many deques, each sure of `capacity` puts, with the seats of its workers;
    /// the one at place k, from 0, owns deque k. An `Err` is out of memory.
    pub fn open(
        alloc: Global,
        workers: u32,
        capacity: usize,
    ) -> Result<(Pool, Vec<WorkerSeat>), Memory>
        requires { (0 < workers) × (workers ≤ 64) }
        ensures new { IfOk result (λ r. (deques : List Deque) × (length deques ≡ workers)
            × (map state_of r.1.items ≡ new_seats capacity deques)) }
        ensures seats { IfOk result (λ r. map seat_of r.1.items ≡ r.0) }
    {
        let mut seats = Vec::new(alloc);
        let mut stealers = Vec::new(alloc);
        for _ in 0..workers {
            add(alloc, capacity, &mut seats, &mut stealers)?;
        }
        Ok((Pool { capacity, stealers }, seats))
    }

    /// Closes a pool, given all its seats in their order. Over all seats, what was put is what was
    /// taken or stolen and what is left, each piece as often. It waits for nobody. An `Err` is out
    /// of memory, and hands all back as it was.
    pub fn close(self, seats: Vec<WorkerSeat>) -> Result<Remains, (Pool, Vec<WorkerSeat>)>
        requires { map seat_of seats.items ≡ self }
        ensures { MatchResult result
            (λ remains. (piece : Piece) → times_put piece (map state_of seats.items)
            ≡ times_taken piece (map state_of seats.items) + times_among piece remains.left.items)
            (λ back. (back.0 ≡ self) × (back.1 ≡ seats)) }
    {
        let Some(count) = put_count(seats.as_slice()) else {
            return Err((self, seats));
        };
        let mut left = Vec::new(*self.stealers.allocator());
        if left.reserve(count).is_err() {
            return Err((self, seats));
        }
        take_all(seats, &mut left);
        Ok(Remains { left })
    }
}
