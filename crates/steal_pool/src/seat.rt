//! The seats of a worker, and how the seats of a pool come to know each other and part again.

ghost use Rattle.std.specs.Prelude.{◌≡◌, ◌<◌, ◌-◌, length, map, IfOk, IfSome, OnOk};
ghost use Rattle.lemmas.specs.Lists.{Each};
ghost use Rattle.lemmas.specs.Counts.{total};
ghost use Rattle.steal_pool.specs.Seats.{grown, new_thief, absorbed_last, shrunk, EndsAt, AreMet, parted_seats, parted_owner, new_thieves};
ghost use Rattle.steal_pool.specs.WorkerSeats.{state_of};

use crate::owner::OwnerSeat;
use crate::thief::ThiefSeat;
use solid_model::Memory;
use std::alloc::Global;

/// The seats of a worker: the owner of its deque, and one that steals from each other deque, in the
/// order of the deques.
#[derive(Drop)]
pub struct WorkerSeat {
    pub owner: OwnerSeat,
    pub thieves: Vec<ThiefSeat>,
}

/// A seat gets a thief at a newcomer's deque, and the newcomer the one at the seat's that is
/// answered. An `Err` is out of memory.
fn meet(seat: &mut WorkerSeat, owner: &mut OwnerSeat) -> Result<ThiefSeat, Memory>
    requires seat { 1 < seat.old.owner.parts }
    requires owner { 1 < owner.old.parts }
    ensures { IfOk result (λ t. (state_of seat.new ≡ grown owner.old.deque (state_of seat.old))
        × (owner.new ≡ record owner.old { parts = owner.old.parts - 1 })
        × (t ≡ new_thief seat.old.owner.deque)) }
{
    let thief = owner.admit()?;
    seat.thieves.push(thief)?;
    seat.owner.admit()
}

/// A seat's thief at the last owner's deque comes back to that, and the given one, which stole from
/// the seat, to the seat.
fn leave(seat: &mut WorkerSeat, owner: &mut OwnerSeat, thief: ThiefSeat)
    requires thief { thief.deque ≡ seat.old.owner.deque }
    requires last { EndsAt owner.old.deque seat.old.thieves.items }
    ensures seat { state_of seat.new ≡ shrunk (state_of seat.old) thief }
    ensures owner { owner.new ≡ absorbed_last owner.old seat.old.thieves.items }
{
    let Some(own) = seat.thieves.pop() else {
        return;
    };
    owner.absorb(own);
    seat.owner.absorb(thief);
}

/// All seats meet a newcomer. The answer steals from each of them. An `Err` is out of memory.
pub(crate) fn meet_all(
    alloc: Global,
    seats: &mut [WorkerSeat],
    owner: &mut OwnerSeat,
) -> Result<Vec<ThiefSeat>, Memory>
    requires seats { Each (λ s. 1 < s.owner.parts) (map state_of seats.old) }
    requires owner { length seats.old < owner.old.parts }
    ensures seats { OnOk result
        (map state_of seats.new ≡ map (grown owner.old.deque) (map state_of seats.old)) }
    ensures owner { OnOk result
        (owner.new ≡ record owner.old { parts = owner.old.parts - length seats.old }) }
    ensures thieves { IfOk result (λ ts. ts.items ≡ new_thieves (map state_of seats.old)) }
{
    let mut thieves = Vec::new(alloc);
    for seat in seats.iter_mut() {
        let thief = meet(seat, owner)?;
        thieves.push(thief)?;
    }
    Ok(thieves)
}

/// All seats leave the last one, whose owner and thieves these are.
pub(crate) fn leave_all(seats: &mut [WorkerSeat], owner: &mut OwnerSeat, thieves: Vec<ThiefSeat>)
    requires { AreMet owner.old.deque (map state_of seats.old) thieves.items }
    ensures seats { map state_of seats.new ≡ parted_seats (map state_of seats.old) thieves.items }
    ensures owner { owner.new ≡ parted_owner owner.old (map state_of seats.old) }
{
    let mut thieves = thieves.into_iter();
    for seat in seats.iter_mut() {
        let Some(thief) = thieves.next() else {
            return;
        };
        leave(seat, owner, thief);
    }
}

/// How many pieces all seats have put, where that is a number of the machine's.
pub(crate) fn put_count(seats: &[WorkerSeat]) -> Option<usize>
    ensures { IfSome result (λ n. n ≡ total (λ s. length s.owner.put) (map state_of seats.now)) }
{
    let mut count: usize = 0;
    for seat in seats {
        count = count.checked_add(seat.owner.put_count())?;
    }
    Some(count)
}
