//! Workers: each starts in a thread of its own, goes on deep first with the pieces that it keeps, and
//! gives some of them to others while these have none.

ghost use Rattle.std.specs.Prelude.{IfOk, IfSome};
ghost use Rattle.std.specs.Arc.{arc_value};
ghost use Rattle.search_run.specs.Worked.{HasWorked, WorksOn};
ghost use Rattle.search_tree.specs.BlockPaths.{IsWayOf};
ghost use Rattle.steal_pool.specs.WorkerSeats.{state_of};

use crate::bench::Bench;
use crate::monitor::Monitor;
use crate::workshop::Workshop;
use search_core::ReadyReport;
use search_end::{QUANTUM, keep_all};
use search_tree::{BlockPath, expand_from};
use solid_model::{Memory, Prefix, Problem};
use std::alloc::Global;
use std::collections::VecDeque;
use std::marker::Model;
use std::sync::{Arc, Wait};
use std::thread::Scope;
use steal_pool::WorkerSeat;
use tv_base::{Gate, Point};

/// A worker: its number, its seats in the pool, and the pieces that it keeps, the last put at the
/// end. These stand in the desk's frontier too, so that none is lost with it. Contracts see what
/// was put, taken and stolen at its seats.
#[derive(Drop)]
pub struct Worker {
    number: u32,
    /// The number of its turn: what it does from a piece of the pool on until it takes another one.
    turn: u32,
    bench: Bench,
    kept: VecDeque<Prefix>,
}

/// A piece, once there is one: an idle worker waits. It is told how many changes were signalled
/// before it looks. `None`: nothing is left to be done or nobody is at work, and it leaves.
fn find_or_wait<B: Wait + Drop, R: Wait>(
    rt: &R,
    monitor: &Monitor<B>,
    bench: &mut Bench,
) -> Option<Prefix>
    ensures { WorksOn bench.old bench.new }
{
    let mut seen = monitor.changes(rt);
    for _ in rt.forever() {
        if let Some(piece) = bench.find(rt) {
            return Some(piece);
        }
        seen = monitor.wait(rt, seen)?;
    }
    unreachable!()
}

/// The same, where the worker looks first before it is idle.
fn find_or_idle<B: Wait + Drop, R: Wait>(
    rt: &R,
    monitor: &Monitor<B>,
    bench: &mut Bench,
) -> Option<Prefix>
    ensures { WorksOn bench.old bench.new }
{
    if let Some(piece) = bench.find(rt) {
        return Some(piece);
    }
    monitor.begin_idle();
    let piece = find_or_wait(rt, monitor, bench);
    monitor.end_idle();
    piece
}

impl Model for Worker {
    ghost use Rattle.steal_pool.specs.Seats.{SeatState};

    ghost Value = { SeatState };

    ghost view = { λ s. s.bench };
}

impl Worker {
    ghost use Rattle.std.specs.Prelude.{◌≡◌};
    ghost use Rattle.std.specs.Arc.{arc_value};
    ghost use Rattle.search_run.specs.Worked.{WorksOn};
    ghost use Rattle.search_tree.specs.BlockPaths.{IsWayOf};
    ghost use Rattle.steal_pool.specs.WorkerSeats.{state_of};

    /// The worker of this number at its seats, which keeps no piece.
    pub fn new(alloc: Global, number: u32, seat: WorkerSeat) -> Worker
        ensures { result ≡ state_of seat }
    {
        Worker {
            number,
            turn: 0,
            bench: Bench::new(number, seat),
            kept: VecDeque::new(alloc),
        }
    }

    /// Its seats, handed back.
    pub fn into_seat(self) -> WorkerSeat
        ensures { state_of result ≡ self }
    {
        self.bench.into_seat()
    }

    /// The piece with which it goes on: the last one that it keeps, or else one of the pool.
    /// `None`: nothing is left to be done or nobody is at work, and it leaves.
    pub fn next_piece<B: Wait + Drop, R: Wait>(
        &mut self,
        rt: &R,
        monitor: &Monitor<B>,
    ) -> Option<Prefix>
        ensures { WorksOn self.old self.new }
    {
        match self.kept.pop_back() {
            Some(piece) => Some(piece),
            None => {
                self.turn = monitor.begin_turn();
                find_or_idle(rt, monitor, &mut self.bench)
            }
        }
    }

    /// Keeps a piece. One for which there is no memory stays in the frontier alone, for the caller.
    pub fn keep(&mut self, piece: Prefix)
        ensures { self.new ≡ self.old }
    {
        let _kept = self.kept.push_back(piece);
    }

    /// Keeps a rest, of which the first piece comes next. Then gives a piece to each idle worker, as
    /// long as it keeps as many itself: the shallowest ones, which have most below them.
    pub fn share<B: Wait + Drop, R: Wait>(
        &mut self,
        rt: &R,
        monitor: &Monitor<B>,
        rest: Vec<Prefix>,
    )
        ensures { WorksOn self.old self.new }
    {
        keep_all(&mut self.kept, rest);
        let wanted = monitor.idle().min(self.kept.len() / 2);
        let given = self.bench.give(&mut self.kept, wanted);
        if given > 0 {
            monitor.signal(rt, given);
        }
    }

    /// Leaves this piece and all that it keeps to the others, and stops counting.
    pub fn leave_to_others<B: Wait + Drop, R: Wait>(
        &mut self,
        rt: &R,
        monitor: &Monitor<B>,
        piece: Prefix,
    )
        ensures { WorksOn self.old self.new }
    {
        self.keep(piece);
        let count = self.kept.len();
        self.bench.give(&mut self.kept, count);
        monitor.leave(rt);
    }

    /// Expands a piece by a way down the tree of the problem's prefixes and reports it in its turn.
    /// The rest is handed over; `None`: the worker is to leave. An `Err` is out of memory before the
    /// report is taken.
    fn work_at<B: Wait + Drop, R: Wait, G: Gate>(
        &self,
        rt: &R,
        alloc: Global,
        shop: &Workshop<'_, B, G>,
        path: &mut BlockPath,
        piece: &Prefix,
    ) -> Result<Option<Vec<Prefix>>, Memory>
        requires way { IsWayOf (arc_value shop.now.problem.now) path.old }
        ensures way { IsWayOf (arc_value shop.now.problem.now) path.new }
    {
        shop.gate.pass(self.number, Point::BeforeExpand);
        let Some(expansion) = expand_from(alloc, path, shop.problem, piece, QUANTUM)? else {
            return Ok(Some(Vec::new(alloc)));
        };
        let Ok(report) = ReadyReport::new(alloc, expansion, self.number as usize) else {
            return Err(Memory);
        };
        let rest = shop.monitor.report(rt, alloc, report, self.turn)?;
        shop.gate.pass(self.number, Point::AfterReport);
        Ok(rest)
    }
}

/// The rounds of a worker, by a way down the tree of the problem's prefixes, until it leaves. What
/// it is refused memory for it leaves to the others.
fn go_round<B: Wait + Drop, R: Wait, G: Gate>(
    rt: &R,
    alloc: Global,
    shop: &Workshop<'_, B, G>,
    path: &mut BlockPath,
    worker: &mut Worker,
)
    requires way { IsWayOf (arc_value shop.now.problem.now) path.old }
    ensures worked { WorksOn worker.old worker.new }
{
    for _ in rt.forever() {
        let Some(piece) = worker.next_piece(rt, shop.monitor) else {
            return;
        };
        match worker.work_at(rt, alloc, shop, path, &piece) {
            Ok(Some(rest)) => worker.share(rt, shop.monitor, rest),
            Ok(None) => return shop.monitor.leave(rt),
            Err(_) => return worker.leave_to_others(rt, shop.monitor, piece),
        }
    }
}

/// This way down the tree of a problem's prefixes, or else a new one. An `Err` is out of memory.
fn own_path<'a>(
    alloc: Global,
    problem: &'a Arc<Problem>,
    path: Option<BlockPath<'a>>,
) -> Result<BlockPath<'a>, Memory>
    requires { IfSome path (IsWayOf (arc_value problem.now)) }
    ensures { IfOk result (IsWayOf (arc_value problem.now)) }
{
    match path {
        Some(path) => Ok(path),
        None => BlockPath::new(alloc, problem),
    }
}

/// The work of one worker at these seats, from its start until it leaves, by this way down the tree
/// of the problem's prefixes, or else by one that it makes at its first piece: where it is refused
/// memory for that, it has done nothing, and leaves the piece to the others. It hands its seats
/// back, where what it put, took and stole is added.
pub fn work_at_seat<'a, B: Wait + Drop, R: Wait, G: Gate>(
    rt: &R,
    alloc: Global,
    shop: &Workshop<'a, B, G>,
    path: Option<BlockPath<'a>>,
    number: u32,
    seat: WorkerSeat,
) -> WorkerSeat
    requires way { IfSome path (IsWayOf (arc_value shop.now.problem.now)) }
    ensures worked { HasWorked (state_of seat) (state_of result) }
{
    let mut worker = Worker::new(alloc, number, seat);
    let Some(piece) = worker.next_piece(rt, shop.monitor) else {
        return worker.into_seat();
    };
    let Ok(mut path) = own_path(alloc, shop.problem, path) else {
        worker.leave_to_others(rt, shop.monitor, piece);
        return worker.into_seat();
    };
    worker.keep(piece);
    go_round(rt, alloc, shop, &mut path, &mut worker);
    worker.into_seat()
}

/// Starts a worker at each seat, of which the first goes by this way down the tree of the problem's
/// prefixes. A worker whose start is refused stops counting; its work is done by others.
pub fn start_workers<'t, 'e, 's, R: Wait + Sync, B: Wait + Drop + Send, G: Gate>(
    scope: &Scope<'t, &'e ()>,
    rt: &'e R,
    alloc: Global,
    shop: &'e Workshop<'s, B, G>,
    path: BlockPath<'s>,
    seats: Vec<WorkerSeat>,
)
    requires way { IsWayOf (arc_value shop.now.problem.now) path }
{
    let mut number: u32 = 0;
    let mut path = Some(path);
    for seat in seats {
        let own = path.take();
        let started = scope.spawn(
            move ||
                requires way { IfSome own (IsWayOf (arc_value shop.now.problem.now)) }
            { drop(work_at_seat(rt, alloc, shop, own, number, seat)) },
        );
        if started.is_err() {
            shop.monitor.leave(rt);
        }
        number = number.saturating_add(1);
    }
}
