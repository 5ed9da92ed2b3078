//! A search that begins: the way down its tree, the pool of its pieces, where its workers meet, and
//! the readers of its book.

ghost use Rattle.std.specs.Prelude.{◌≡◌, ◌≤◌, length, IfOk, IsTrue};
ghost use Rattle.std.specs.Arc.{arc_value};
ghost use Rattle.lemmas.specs.Lists.{Each};
ghost use Rattle.query_session.specs.Tales.{IsReaderOf};
ghost use Rattle.search_tree.specs.BlockPaths.{IsWayOf};

use crate::monitor::Monitor;
use crate::shared::Shared;
use search_core::Desk;
use search_end::set_up;
use search_tree::BlockPath;
use solid_model::{Limits, Memory, Problem};
use solution_book::{Book, BookReader};
use std::alloc::Global;
use std::sync::{Arc, Wait};
use steal_pool::{Pool, WorkerSeat};

/// How many pieces each worker is sure to put into its deque.
const PIECES: usize = 1024;

/// Puts a desk's first piece, if it has one, into the first deque. An `Err` is out of memory.
fn put_first(desk: &Desk, seats: &mut [WorkerSeat]) -> Result<(), Memory> {
    if let Some(piece) = desk.first_piece() {
        let piece = piece.try_clone()?;
        if let Some(first) = seats.first_mut() {
            let _back = first.owner.put(piece);
        }
    }
    Ok(())
}

/// The seats of so many workers in a pool that holds the desk's first piece, if it has one, in the
/// first deque. An `Err` is out of memory.
fn seats_at(alloc: Global, workers: u32, desk: &Desk) -> Result<Vec<WorkerSeat>, Memory>
    requires some { 1 ≤ workers }
    requires few { workers ≤ 64 }
    ensures { IfOk result (λ seats. length seats.items ≡ workers) }
{
    let (_, mut seats) = Pool::open(alloc, workers, PIECES)?;
    put_first(desk, seats.as_mut_slice())?;
    Ok(seats)
}

/// Whether a reader is of a book of this problem.
fn is_reader_of<B: Wait + Drop>(reader: &mut BookReader<B>, problem: &Problem) -> bool
    ensures { IsTrue result → IsReaderOf problem.now reader.new }
{
    reader.is_of(problem)
}

/// Readers of a book of this problem, which have looked at it. An `Err`, also where one isn't, is
/// out of memory.
pub fn readers_of<B: Wait + Drop>(
    alloc: Global,
    problem: &Problem,
    readers: Vec<BookReader<B>>,
) -> Result<Vec<BookReader<B>>, Memory>
    ensures each { IfOk result (λ own. Each (IsReaderOf problem.now) own.items) }
    ensures count { IfOk result (λ own. length own.items ≡ length readers.items) }
{
    let mut own = Vec::new(alloc);
    let mut left = readers.into_iter();
    while let Some(next) = left.next() {
        let mut reader = next;
        if !is_reader_of(&mut reader, problem) {
            return Err(Memory);
        }
        own.push(reader)?;
    }
    Ok(own)
}

/// A monitor for so many workers at a desk, with its book, and so many readers of that, who read it
/// or don't. An `Err` is out of memory.
fn monitor_for<'a, R: Wait>(
    rt: &'a R,
    alloc: Global,
    problem: &Arc<Problem>,
    workers: u32,
    readers: u32,
    is_read: bool,
    desk: Desk,
) -> Result<(Monitor<&'a R>, Vec<BookReader<&'a R>>), Memory>
    requires problem { desk.problem ≡ arc_value problem.now }
    requires readers { (1 ≤ readers) × (readers ≤ 16) }
    ensures { IfOk result (λ r. length r.1.items ≡ readers) }
{
    let (book, others) = Book::begin(rt, alloc, Arc::try_clone(problem)?, readers)?;
    Ok((
        Monitor::new(Shared::new(alloc, desk, book, is_read, workers)),
        others,
    ))
}

/// A search that begins, of which nobody is at work yet.
#[derive(Drop)]
pub struct Opened<'p, 'a, R: Wait> {
    /// A way down the tree of the problem's prefixes, for the first worker: another one would take
    /// as long as a short search.
    pub path: BlockPath<'p>,
    /// A seat for each worker.
    pub seats: Vec<WorkerSeat>,
    /// Where all meet.
    pub monitor: Monitor<&'a R>,
    /// Readers of its book.
    pub readers: Vec<BookReader<&'a R>>,
    /// Whether its desk has no end yet: else nobody needs to start.
    pub goes_on: bool,
}

/// Opens a search of a problem within limits by so many workers, all of whom count as at work, with
/// so many readers of its book, who read it or don't. An `Err` is out of memory.
pub fn open_at<'p, 'a, R: Wait>(
    rt: &'a R,
    alloc: Global,
    problem: &'p Arc<Problem>,
    limits: Limits,
    workers: u32,
    readers: u32,
    is_read: bool,
) -> Result<Opened<'p, 'a, R>, Memory>
    requires workers { (1 ≤ workers) × (workers ≤ 64) }
    requires readers { (1 ≤ readers) × (readers ≤ 16) }
    ensures way { IfOk result (λ o. IsWayOf (arc_value problem.now) o.path) }
    ensures seats { IfOk result (λ o. length o.seats.items ≡ workers) }
    ensures readers { IfOk result (λ o. length o.readers.items ≡ readers) }
{
    let (path, desk) = set_up(alloc, problem, limits)?;
    let seats = seats_at(alloc, workers, &desk)?;
    let goes_on = desk.end().is_none();
    let (monitor, readers) = monitor_for(rt, alloc, problem, workers, readers, is_read, desk)?;
    Ok(Opened {
        path,
        seats,
        monitor,
        readers,
        goes_on,
    })
}
