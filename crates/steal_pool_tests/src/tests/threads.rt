//! Four workers in threads of their own put, take and steal at random until all is gone.

ghost use Rattle.std.specs.Prelude.{◌≡◌, map, IfSome};
ghost use Rattle.steal_pool.specs.WorkerSeats.{seat_of};

use super::{number_of, piece};
use rand_core::utils::NextWord;
use rand_pcg::Lcg64Xsh32;
use solid_model::{Memory, Prefix};
use std::alloc::Global;
use std::ops::Range;
use std::snapshot::Snapshot;
use std::sync::Wait;
use std::test::*;
use std::thread;
use std::thread::{Promise, PromisedHandle, Scope, Threads};
use steal_pool::{Pool, WorkerSeat};

const WORKERS: u32 = 4;

/// How many pieces each of them puts.
const EACH: u32 = 25_000;

/// A worker: its seat, the numbers of the pieces that it has still to put, the pieces that it got,
/// and what it decides by.
#[derive(Drop)]
pub struct Worker {
    seat: WorkerSeat,
    numbers: Range<u32>,
    got: Vec<Prefix>,
    chance: Lcg64Xsh32,
}

/// Steals from the other worker that a number says.
fn steal<R: Wait>(rt: &R, seat: &mut WorkerSeat, number: u32) -> Option<Prefix>
    ensures { seat_of seat.new ≡ seat_of seat.old }
{
    let others = seat.thieves.len();
    if others == 0 {
        return None;
    }
    seat.thieves.get_mut(number as usize % others)?.steal(rt)
}

/// Puts the next piece, if there is one; a piece that comes back counts as got.
fn put_next(alloc: Global, worker: &mut Worker) -> Result<(), Memory>
    ensures { seat_of worker.new.seat ≡ seat_of worker.old.seat }
{
    if let Some(number) = worker.numbers.next() {
        if let Err(back) = worker.seat.owner.put(piece(alloc, number)?) {
            worker.got.push(back)?;
        }
    }
    Ok(())
}

/// Puts, steals or takes a piece. The answer is whether the worker goes on: it doesn't where it has
/// put all its pieces and finds its own deque empty.
fn turn<R: Wait>(rt: &R, alloc: Global, worker: &mut Worker) -> Result<bool, Memory>
    ensures { seat_of worker.new.seat ≡ seat_of worker.old.seat }
{
    let word = worker.chance.next_word();
    let found = match word % 4 {
        0 | 1 => {
            put_next(alloc, worker)?;
            return Ok(true);
        }
        2 => steal(rt, &mut worker.seat, word / 4),
        _ => worker.seat.owner.take(),
    };
    match found {
        Some(piece) => worker.got.push(piece)?,
        None => return Ok(word % 4 == 2 || !worker.numbers.is_empty()),
    }
    Ok(true)
}

/// Works until all pieces are gone from its own deque, or memory is.
fn work<R: Wait>(rt: &R, alloc: Global, worker: Worker) -> Worker
    ensures { seat_of result.seat ≡ seat_of worker.seat }
{
    let mut worker = worker;
    for _ in rt.forever() {
        match turn(rt, alloc, &mut worker) {
            Ok(true) => {}
            _ => return worker,
        }
    }
    unreachable!()
}

/// What a thread promises: it gives back the seat that it was given.
#[derive(Drop)]
pub struct SameSeat(Snapshot<WorkerSeat>);

impl Promise<Worker> for SameSeat {
    ghost kept_by = { λ p r. seat_of r.seat ≡ seat_of p.0.value };
}

type Running = PromisedHandle<Worker, SameSeat>;

/// A worker in a thread of its own. `None` where no thread can be had.
fn start<'s, E, R: Wait + Sync>(
    scope: &Scope<'s, E>,
    rt: &'s R,
    alloc: Global,
    worker: Worker,
) -> Option<Running>
    ensures { IfSome result (λ h. seat_of h.promise.0.value ≡ seat_of worker.seat) }
{
    let promise = SameSeat(Snapshot::of(&worker.seat));
    let running = scope.spawn_with(
        promise,
        move ||
            ensures { seat_of result.seat ≡ seat_of worker.seat }
        { work(rt, alloc, worker) },
    );
    running.ok()
}

/// Starts a worker on each seat.
fn start_all<'s, E, R: Wait + Sync>(
    scope: &Scope<'s, E>,
    rt: &'s R,
    alloc: Global,
    seats: Vec<WorkerSeat>,
) -> Option<Vec<Running>>
    ensures { IfSome result (λ all. map (λ h. seat_of h.promise.0.value) all.items
        ≡ map seat_of seats.items) }
{
    let mut all = Vec::new(alloc);
    let mut number: u32 = 0;
    for seat in seats {
        let first = number.saturating_mul(EACH);
        let worker = Worker {
            seat,
            numbers: first..first.saturating_add(EACH),
            got: Vec::new(alloc),
            chance: Lcg64Xsh32::new(u64::from(number), 1),
        };
        all.push(start(scope, rt, alloc, worker)?).ok()?;
        number = number.saturating_add(1);
    }
    Some(all)
}

/// Counts each piece.
fn count(pieces: &[Prefix], counts: &mut [u8]) {
    for piece in pieces {
        if let Some(count) = counts.get_mut(number_of(piece) as usize) {
            *count = count.saturating_add(1);
        }
    }
}

/// The seats of all workers, once they have ended; what they got is counted.
fn end_all<R: Threads>(
    rt: &R,
    alloc: Global,
    all: Vec<Running>,
    counts: &mut [u8],
) -> Option<Vec<WorkerSeat>>
    ensures { IfSome result (λ seats. map seat_of seats.items
        ≡ map (λ h. seat_of h.promise.0.value) all.items) }
{
    let mut seats = Vec::new(alloc);
    for running in all {
        let worker = running.join(rt);
        count(&worker.got, counts);
        seats.push(worker.seat).ok()?;
    }
    Some(seats)
}

/// How often each piece came out of a pool that was opened, worked with and closed.
fn counts<R: Threads + Wait + Sync>(rt: &R, alloc: Global) -> Option<Vec<u8>> {
    let Ok((pool, seats)) = Pool::open(alloc, WORKERS, 1024) else {
        return None;
    };
    let mut counts = Vec::new(alloc);
    counts.resize((WORKERS * EACH) as usize, 0).ok()?;
    let all = thread::scope(thread::scope_env(), rt, move |scope| {
        start_all(scope, rt, alloc, seats)
    })?;
    let seats = end_all(rt, alloc, all, counts.as_mut_slice())?;
    let remains = pool.close(seats).ok()?;
    count(&remains.left, counts.as_mut_slice());
    Some(counts)
}

#[test]
fn each_piece_comes_out_once(rt: HostRuntime) -> Result<(), Fail> {
    let counts = counts(&rt, rt.alloc()).ok_or("no memory or no thread")?;
    assert!(rt; counts.iter().all(|count| *count == 1));
    Ok(())
}
