//! Readers do what they are asked, beside each other.

ghost use Rattle.std.specs.Prelude.{◌≡◌, ◌<◌, ◌≤◌, [], length, map, slice_index_or, IfOk};
ghost use Rattle.solid_model.specs.Blocks.{ProblemParts};
ghost use Rattle.lemmas.specs.Lists.{Each};
ghost use Rattle.query_session.specs.Tales.{IsReaderOf};
ghost use Rattle.session_run.specs.Players.{HasPlayed, HaveAllPlayed};

use query_session::{Ask, Waiter, play};
use solid_model::Memory;
use solution_book::{BookReader, Page};
use std::alloc::Global;
use std::marker::Model;
use std::sync::Wait;
use std::thread;
use std::thread::Threads;

/// A reader, and the pages that it has taken: none before it has done what it is asked, or where it
/// ran out of memory.
#[derive(Drop)]
pub struct Player<B: Wait + Drop> {
    pub reader: BookReader<B>,
    pub pages: Option<Vec<Page>>,
}

impl<B: Wait + Drop> Model for Player<B> {
    ghost use Rattle.std.specs.Prelude.{option_map};
    ghost use Rattle.session_run.specs.Players.{PlayerParts};

    ghost Value = { PlayerParts };

    ghost view = { λ s. record { reader = s.reader; pages = option_map (λ v. v.items) s.pages } };
}

/// Readers that haven't been asked yet. An `Err` is out of memory.
pub fn players_of<B: Wait + Drop>(
    alloc: Global,
    readers: Vec<BookReader<B>>,
) -> Result<Vec<Player<B>>, Memory>
    ensures readers { IfOk result (λ players. map (λ x. x.reader) players.items ≡ readers.items) }
    ensures count { IfOk result (λ players. length players.items ≡ length readers.items) }
{
    let mut players = Vec::new(alloc);
    let mut left = readers.into_iter();
    while let Some(reader) = left.next() {
        players.push(Player {
            reader,
            pages: None,
        })?;
    }
    Ok(players)
}

/// A reader does what its script asks.
fn play_one<R: Wait, B: Wait + Drop, W: Waiter>(
    rt: &R,
    alloc: Global,
    player: &mut Player<B>,
    script: &[Ask],
    waiter: &W,
)
    ensures { (p : ProblemParts) → IsReaderOf p player.old.reader
        → HasPlayed p script.now player.new }
{
    player.pages = play(rt, alloc, &mut player.reader, script, waiter).ok();
}

/// Each reader does what its script asks, in a thread of its own where there is one to be had; else
/// another reader's thread does it before or after its own.
pub fn play_all<R: Threads + Wait + Sync, B: Wait + Drop + Send, W: Waiter + Sync>(
    rt: &R,
    alloc: Global,
    scripts: &[Vec<Ask>],
    players: &mut [Player<B>],
    waiter: &W,
)
    requires some { 0 < length players.old }
    requires one_each { length players.old ≡ length scripts.now }
    ensures { (p : ProblemParts) → Each (λ x. IsReaderOf p x.reader) players.old
        → HaveAllPlayed p (map (λ v. v.items) scripts.now) players.new }
{
    let count = players.len();
    thread::for_each_mut(
        rt,
        players,
        count,
        &|k: usize, player: &mut Player<B>|
            requires { k < length scripts.now }
            ensures { (p : ProblemParts) → IsReaderOf p player.entry.now.reader
                → HasPlayed p (slice_index_or (map (λ v. v.items) scripts.entry.now) k [])
                player.exit.now }
        { play_one(rt, alloc, player, scripts[k].as_slice(), waiter) },
    );
}
