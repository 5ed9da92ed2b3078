//! Workers search while readers are asked.

ghost use Rattle.std.specs.Prelude.{◌≡◌, ◌<◌, length, map, IfOk};
ghost use Rattle.std.specs.Arc.{arc_value};
ghost use Rattle.solid_model.specs.Blocks.{ProblemParts};
ghost use Rattle.lemmas.specs.Lists.{Each};
ghost use Rattle.query_session.specs.Tales.{AreTales, IsReaderOf};
ghost use Rattle.search_tree.specs.BlockPaths.{IsWayOf};
ghost use Rattle.session_run.specs.Players.{HaveAllPlayed};

use crate::players::{Player, play_all, players_of};
use crate::tales::tales_by;
use query_session::{Ask, ReaderTale};
use search_run::{Workshop, start_workers};
use search_tree::BlockPath;
use solid_model::Memory;
use solution_book::BookReader;
use std::alloc::Global;
use std::sync::Wait;
use std::thread;
use std::thread::Threads;
use steal_pool::WorkerSeat;
use tv_base::Gate;

/// Starts a worker at each seat, the first by this way down the tree of the problem's prefixes, and
/// lets each reader do meanwhile what its script asks, until all have returned.
fn play_together<'a, 's, R: Threads + Wait + Sync, G: Gate>(
    rt: &'a R,
    alloc: Global,
    shop: &Workshop<'s, &'a R, G>,
    path: BlockPath<'s>,
    seats: Vec<WorkerSeat>,
    scripts: &[Vec<Ask>],
    players: Vec<Player<&'a R>>,
) -> Vec<Player<&'a R>>
    requires way { IsWayOf (arc_value shop.now.problem.now) path }
    requires some { 0 < length players.items }
    requires one_each { length players.items ≡ length scripts.now }
    ensures { (p : ProblemParts) → Each (λ x. IsReaderOf p x.reader) players.entry.items
        → HaveAllPlayed p (map (λ v. v.items) scripts.now) result.items }
{
    thread::scope(
        thread::scope_env(),
        rt,
        move |scope| -> Vec<Player<&R>>
            requires way { IsWayOf (arc_value shop.now.problem.now) path }
            requires some { 0 < length players.items }
            requires one_each { length players.items ≡ length scripts.now }
            ensures { (p : ProblemParts) → Each (λ x. IsReaderOf p x.reader) players.entry.items
                → HaveAllPlayed p (map (λ v. v.items) scripts.entry.now) result.items }
        {
            start_workers(scope, rt, alloc, shop, path, seats);
            let mut players = players;
            play_all(rt, alloc, scripts, players.as_mut_slice(), shop.monitor);
            players
        },
    )
}

/// The same, and what each reader tells then. It may wait. An `Err` is out of memory.
pub fn tell_together<'a, 's, R: Threads + Wait + Sync, G: Gate>(
    rt: &'a R,
    alloc: Global,
    shop: &Workshop<'s, &'a R, G>,
    path: BlockPath<'s>,
    seats: Vec<WorkerSeat>,
    scripts: &[Vec<Ask>],
    readers: Vec<BookReader<&'a R>>,
) -> Result<Vec<ReaderTale>, Memory>
    requires way { IsWayOf (arc_value shop.now.problem.now) path }
    requires some { 0 < length readers.items }
    requires one_each { length readers.items ≡ length scripts.now }
    ensures { IfOk result (λ tales. (p : ProblemParts) → Each (IsReaderOf p) readers.entry.items
        → AreTales p (map (λ v. v.items) scripts.now) tales.items) }
{
    let players = players_of(alloc, readers)?;
    let players = play_together(rt, alloc, shop, path, seats, scripts, players);
    tales_by(alloc, players)
}
