//! Small pools, call by call.

ghost use Rattle.std.specs.Prelude.{◌≡◌};
ghost use Rattle.steal_pool.specs.WorkerSeats.{seat_of};

use super::{number_of, piece};
use solid_model::Prefix;
use std::alloc::Global;
use std::sync::Wait;
use std::test::*;
use steal_pool::{Pool, WorkerSeat};

/// What the calls answered: whether the second deque was empty, and the numbers of pieces.
#[derive(Clone, Copy, Debug, PartialEq, Eq)]
struct Answers {
    empty: bool,
    stolen: u32,
    taken: u32,
    left: u32,
}

/// Three puts into the first deque, a take from the second one, a steal by the second seat, and a
/// take by the first.
fn play<R: Wait>(
    rt: &R,
    alloc: Global,
    first: &mut WorkerSeat,
    second: &mut WorkerSeat,
) -> Option<(bool, Prefix, Prefix)>
    ensures first { seat_of first.new ≡ seat_of first.old }
    ensures second { seat_of second.new ≡ seat_of second.old }
{
    for number in 5..8 {
        first.owner.put(piece(alloc, number).ok()?).ok()?;
    }
    let empty = second.owner.take().is_none();
    let stolen = second.thieves.get_mut(0)?.steal(rt)?;
    let taken = first.owner.take()?;
    Some((empty, stolen, taken))
}

/// A pool of two workers with capacity for two pieces each, played and closed. `None` where memory
/// was lacking, or a call answered otherwise than it should.
fn played_and_closed<R: Wait>(rt: &R, alloc: Global) -> Option<Answers> {
    let Ok((pool, mut seats)) = Pool::open(alloc, 2, 2) else {
        return None;
    };
    let mut second = seats.pop()?;
    let mut first = seats.pop()?;
    let (empty, stolen, taken) = play(rt, alloc, &mut first, &mut second)?;
    let Ok(()) = seats.push(first) else {
        return None;
    };
    let Ok(()) = seats.push(second) else {
        return None;
    };
    let mut left = pool.close(seats).ok()?.left;
    let last = left.pop()?;
    left.is_empty().then_some(Answers {
        empty,
        stolen: number_of(&stolen),
        taken: number_of(&taken),
        left: number_of(&last),
    })
}

/// Puts five pieces into the deque of a seat.
fn put_five(alloc: Global, seat: &mut WorkerSeat) -> Option<()>
    ensures { seat_of seat.new ≡ seat_of seat.old }
{
    for number in 0..5 {
        seat.owner.put(piece(alloc, number).ok()?).ok()?;
    }
    Some(())
}

/// How many of five pieces are left in the only deque of a pool, of which none was taken. `None`
/// where memory was lacking.
fn left_of_five(alloc: Global) -> Option<usize> {
    let Ok((pool, mut seats)) = Pool::open(alloc, 1, 2) else {
        return None;
    };
    let mut only = seats.pop()?;
    put_five(alloc, &mut only)?;
    let Ok(()) = seats.push(only) else {
        return None;
    };
    Some(pool.close(seats).ok()?.left.len())
}

/// How many pieces the only deque of a pool with capacity for two takes in before one comes back,
/// where at most so many are put. `None` where none comes back, or memory was lacking.
fn taken_in(alloc: Global, most: u32) -> Option<u32> {
    let Ok((_, mut seats)) = Pool::open(alloc, 1, 2) else {
        return None;
    };
    let mut only = seats.pop()?;
    for number in 0..most {
        if only.owner.put(piece(alloc, number).ok()?).is_err() {
            return Some(number);
        }
    }
    None
}

#[test]
fn a_deque_hands_back_what_is_put_behind_16_384_pieces(rt: HostRuntime) -> Result<(), Fail> {
    assert_eq!(rt; taken_in(rt.alloc(), 16_400), Some(16_384));
    Ok(())
}

#[test]
fn a_closed_pool_leaves_all_that_nobody_took(rt: HostRuntime) -> Result<(), Fail> {
    assert_eq!(rt; left_of_five(rt.alloc()), Some(5));
    Ok(())
}

#[test]
fn pieces_come_in_the_order_in_which_they_were_put(rt: HostRuntime) -> Result<(), Fail> {
    let played = played_and_closed(&rt, rt.alloc()).ok_or("a call failed")?;
    assert_eq!(rt;
        played,
        Answers {
            empty: true,
            stolen: 5,
            taken: 6,
            left: 7
        }
    );
    Ok(())
}
