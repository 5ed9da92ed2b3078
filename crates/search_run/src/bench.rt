//! A worker's seats in the pool, where it finds its pieces and leaves others.

ghost use Rattle.search_run.specs.Worked.{StealsOn, WorksOn};
ghost use Rattle.steal_pool.specs.WorkerSeats.{state_of};

use solid_model::Prefix;
use std::collections::VecDeque;
use std::marker::Model;
use std::sync::Wait;
use steal_pool::{ThiefSeat, WorkerSeat};

/// Steals a piece, and looks at the thief with this number first, so that not all begin at the same
/// deque.
fn steal<R: Wait>(rt: &R, thieves: &mut [ThiefSeat], first: usize) -> Option<Prefix>
    ensures { StealsOn thieves.old thieves.new }
{
    let count = thieves.len();
    for step in 0..count {
        let at = (first % count + step) % count;
        if let Some(piece) = thieves[at].steal(rt) {
            return Some(piece);
        }
    }
    None
}

/// Takes a piece of a seat's own deque.
fn take(seat: &mut WorkerSeat) -> Option<Prefix>
    ensures { WorksOn (state_of seat.old) (state_of seat.new) }
{
    seat.owner.take()
}

/// Puts a piece into a seat's own deque, unless it comes back.
fn put(seat: &mut WorkerSeat, piece: Prefix) -> Result<(), Prefix>
    ensures { WorksOn (state_of seat.old) (state_of seat.new) }
{
    seat.owner.put(piece)
}

/// Steals a piece from the others' deques, from that with this number on.
fn steal_one<R: Wait>(rt: &R, seat: &mut WorkerSeat, first: usize) -> Option<Prefix>
    ensures { WorksOn (state_of seat.old) (state_of seat.new) }
{
    steal(rt, seat.thieves.as_mut_slice(), first)
}

/// A worker's seats. Contracts see what was put, taken and stolen there.
#[derive(Drop)]
pub struct Bench {
    seat: WorkerSeat,
    /// Which deque it looks at first where it steals.
    first: usize,
}

impl Model for Bench {
    ghost use Rattle.steal_pool.specs.Seats.{SeatState};
    ghost use Rattle.steal_pool.specs.WorkerSeats.{state_of};

    ghost Value = { SeatState };

    ghost view = { λ s. state_of s.seat };
}

impl Bench {
    ghost use Rattle.std.specs.Prelude.{◌≡◌};
    ghost use Rattle.search_run.specs.Worked.{WorksOn};
    ghost use Rattle.steal_pool.specs.WorkerSeats.{state_of};

    /// The seats of the worker of this number.
    pub fn new(number: u32, seat: WorkerSeat) -> Bench
        ensures { result ≡ state_of seat }
    {
        Bench {
            seat,
            first: number as usize,
        }
    }

    /// The seats, handed back.
    pub fn into_seat(self) -> WorkerSeat
        ensures { state_of result ≡ self }
    {
        self.seat
    }

    /// A piece of the worker's deque, or one that it steals.
    pub fn find<R: Wait>(&mut self, rt: &R) -> Option<Prefix>
        ensures { WorksOn self.old self.new }
    {
        if let Some(piece) = take(&mut self.seat) {
            return Some(piece);
        }
        steal_one(rt, &mut self.seat, self.first)
    }

    /// Puts so many of the pieces that are kept into the deque, the shallowest ones first, until
    /// one comes back. Tells how many were put.
    pub fn give(&mut self, kept: &mut VecDeque<Prefix>, count: usize) -> usize
        ensures { WorksOn self.old self.new }
    {
        for given in 0..count {
            let Some(piece) = kept.pop_front() else {
                return given;
            };
            if let Err(piece) = put(&mut self.seat, piece) {
                // There is room where it stood.
                let _kept = kept.push_front(piece);
                return given;
            }
        }
        count
    }
}
