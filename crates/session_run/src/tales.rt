//! What readers tell at last, and the choices that they were told.

ghost use Rattle.std.specs.Prelude.{◌≡◌, ◌⊎◌, ◌≤◌, List, length, IfOk};
ghost use Rattle.lemmas.specs.Lists.{Each, Member};
ghost use Rattle.solid_model.specs.Blocks.{ProblemParts};
ghost use Rattle.solid_model.specs.Solutions.{AreSolutions};
ghost use Rattle.query_session.specs.declared.ask.Ask.{Ask};
ghost use Rattle.query_session.specs.Tales.{AreTales, IsTale};
ghost use Rattle.search_end.specs.Handed.{AreFewSolutions};
ghost use Rattle.session_run.specs.Players.{HasPlayed, HaveAllPlayed};
ghost use Rattle.session_run.specs.Session.{AreAmong};

use crate::players::Player;
use query_session::{ReaderTale, tale_of};
use search_end::join_choices;
use solid_model::{Choice, Memory};
use std::alloc::Global;
use std::sync::Wait;

/// The tale of a reader that has done what it was asked. An `Err`, also where it ran out of memory
/// then, is out of memory.
fn tale_by<B: Wait + Drop>(alloc: Global, player: Player<B>) -> Result<ReaderTale, Memory>
    ensures { IfOk result (λ tale. (p : ProblemParts) (script : List Ask)
        → HasPlayed p script player → IsTale p script tale) }
{
    let Player { mut reader, pages } = player;
    match pages {
        Some(pages) => tale_of(alloc, &mut reader, pages),
        None => Err(Memory),
    }
}

/// The tale of each reader. It may wait. An `Err` is out of memory.
pub fn tales_by<B: Wait + Drop>(
    alloc: Global,
    players: Vec<Player<B>>,
) -> Result<Vec<ReaderTale>, Memory>
    ensures { IfOk result (λ tales. (p : ProblemParts) (scripts : List (List Ask))
        → HaveAllPlayed p scripts players.items → AreTales p scripts tales.items) }
{
    let mut tales = Vec::new(alloc);
    let mut left = players.into_iter();
    while let Some(player) = left.next() {
        let tale = tale_by(alloc, player)?;
        tales.push(tale)?;
    }
    Ok(tales)
}

/// The choices that readers saw at last, each once, as far as there is room. An `Err` is out of
/// memory.
pub fn told_choices(alloc: Global, most: usize, tales: &[ReaderTale]) -> Result<Vec<Choice>, Memory>
    requires { (p : ProblemParts) × Each (λ tale. AreSolutions p tale.last.items) tales.now }
    ensures solutions { IfOk result (λ told. (p : ProblemParts)
        → Each (λ tale. AreSolutions p tale.last.items) tales.now
        → AreFewSolutions p most told.items) }
    ensures all { IfOk result (λ told.
        Each (λ tale. AreAmong most told.items tale.last.items) tales.now) }
{
    let mut told = Vec::new(alloc);
    for tale in tales {
        told = join_choices(alloc, told, tale.last.as_slice(), most)?;
    }
    Ok(told)
}
