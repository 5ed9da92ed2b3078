//! Where the workers of a search meet: the lock, and where they wait for a change.
//!
//! The lock is tried a thousand times before a thread sleeps for it, with another thread let run
//! after each: the toolchain's lock looks a hundred times in a row and then sleeps, a report holds
//! it for a few microseconds, and who sleeps wakes up later than that, by a call of the thread that
//! leaves it.
//!
//! How many workers are idle is an atomic number beside the lock, so that a round takes the lock
//! once while all are at work.

use crate::shared::{Answered, Shared};
use query_session::Waiter;
use search_core::{Desk, ReadyReport};
use search_end::Mark;
use solid_model::{Memory, Prefix};
use std::alloc::Global;
use std::sync::atomic::{AtomicU32, Ordering};
use std::sync::{Condvar, Mutex, MutexGuard, Wait};
use std::thread;

/// How often a thread tries the lock, and lets another one run after each try, before it sleeps for
/// it.
const TRIES: u32 = 1000;

/// What the workers share, under its lock; where they wait for a change; and where the caller waits
/// for solids. Nothing is known of the value but what its type keeps.
#[derive(Drop)]
pub struct Monitor<B: Wait + Drop> {
    shared: Mutex<Shared<B>>,
    changed: Condvar,
    news: Condvar,
    /// How many workers have found no piece: they look once more, or wait.
    idle: AtomicU32,
    /// How many turns were begun. It goes on from 0 after the greatest `u32`.
    turns: AtomicU32,
}

/// What the caller is told of a search: how many solids are published, and whether there will be no
/// more.
#[derive(Clone, Copy, Drop)]
pub struct News {
    pub published: usize,
    pub last: bool,
}

impl<B: Wait + Drop> Monitor<B> {
    /// A monitor for what is shared.
    pub fn new(shared: Shared<B>) -> Monitor<B> {
        Monitor {
            shared: Mutex::new(shared),
            changed: Condvar::new(),
            news: Condvar::new(),
            idle: AtomicU32::new(0),
            turns: AtomicU32::new(0),
        }
    }

    /// Takes the lock. It is held for some microseconds at a time, longer where memory is touched
    /// for the first time, and who sleeps for it is woken by the one who leaves it, and later than
    /// that: so it is tried for about a millisecond before.
    fn enter<R: Wait>(&self, rt: &R) -> MutexGuard<'_, Shared<B>> {
        for _ in 0..TRIES {
            if let Some(shared) = self.shared.try_lock() {
                return shared;
            }
            thread::yield_now();
        }
        self.shared.lock(rt)
    }

    /// How many changes were signalled.
    pub fn changes<R: Wait>(&self, rt: &R) -> u64 {
        self.enter(rt).changes()
    }

    /// A worker has found no piece: it looks once more, or waits.
    pub fn begin_idle(&self) {
        self.idle.fetch_add(1, Ordering::SeqCst);
    }

    /// It has found one, or leaves.
    pub fn end_idle(&self) {
        self.idle.fetch_sub(1, Ordering::SeqCst);
    }

    /// A worker begins a turn with a piece of the pool: the number of the turn.
    pub fn begin_turn(&self) -> u32 {
        self.turns.fetch_add(1, Ordering::SeqCst)
    }

    /// How many workers are idle.
    pub fn idle(&self) -> usize {
        self.idle.load(Ordering::SeqCst) as usize
    }

    /// A worker has put so many pieces: signals a change and wakes as many of those that wait.
    /// Nobody misses a piece: each puts before it signals, and who is idle asks for the number of
    /// changes before it looks.
    pub fn signal<R: Wait>(&self, rt: &R, pieces: usize) {
        self.enter(rt).change();
        for _ in 0..pieces {
            self.changed.notify_one();
        }
    }

    /// An idle worker stops counting, and waits while no more changes are signalled than it has
    /// seen. It is told how many were signalled then. `None`: nothing is left to be done or nobody
    /// is at work, and it leaves.
    pub fn wait<R: Wait>(&self, rt: &R, seen: u64) -> Option<u64> {
        let mut shared = self.enter(rt);
        if shared.rest() {
            drop(shared);
            self.wake_all();
            return None;
        }
        let mut shared = self
            .changed
            .wait_while(rt, shared, |shared| shared.changes() == seen);
        Some(shared.resume())
    }

    /// A worker that is at work stops counting and leaves.
    pub fn leave<R: Wait>(&self, rt: &R) {
        self.enter(rt).leave();
        self.wake_all();
    }

    /// All are to stop.
    pub fn halt<R: Wait>(&self, rt: &R) {
        self.enter(rt).halt();
        self.wake_all();
    }

    /// Reports in a turn. The rest is handed over; `None`: the worker is to leave. An `Err` is out
    /// of memory before the report is taken.
    pub fn report<R: Wait>(
        &self,
        rt: &R,
        alloc: Global,
        report: ReadyReport,
        turn: u32,
    ) -> Result<Option<Vec<Prefix>>, Memory> {
        let Answered { rest, news } = self.enter(rt).report(alloc, report, turn);
        if news {
            self.news.notify_all();
        }
        rest
    }

    /// The caller waits while no more solids are published than it has seen, and more may come.
    pub fn wait_for_news<R: Wait>(&self, rt: &R, seen: usize) -> News {
        let shared = self.enter(rt);
        let shared = self.news.wait_while(rt, shared, |shared| {
            shared.published() == seen && !shared.is_still()
        });
        News {
            published: shared.published(),
            last: shared.is_still(),
        }
    }

    /// Wakes all that wait.
    fn wake_all(&self) {
        self.changed.notify_all();
        self.news.notify_all();
    }

    /// The desk, once all workers have left, and the marks of its reports.
    pub fn into_desk(self) -> (Desk, Vec<Mark>) {
        let Monitor { shared, .. } = self;
        let (desk, book, marks) = shared.into_inner().into_parts();
        book.end();
        (desk, marks)
    }
}

impl<B: Wait + Drop> Waiter for Monitor<B> {
    /// Returns once so many solids are published, or no more will be.
    fn wait_for<R: Wait>(&self, rt: &R, count: usize) {
        let shared = self.enter(rt);
        let _shared = self.news.wait_while(rt, shared, |shared| {
            shared.published() < count && !shared.is_still()
        });
    }

    /// All are to stop. The desk stays as it is, so that the search may go on at its end.
    fn stop<R: Wait>(&self, rt: &R) {
        self.halt(rt);
    }
}
