//! The expansion of a piece.
//!
//! The list of a rest takes its room at once. Grown step by step, it went on in whatever part of
//! the C library's memory its first small piece came from; where that was the main thread's, all
//! workers met at that part's lock.

ghost use Rattle.std.specs.Prelude.{◌≡◌, ◌≤◌, false, length, IsTrue, IfOk, IfSome, MatchOption};
ghost use Rattle.std.specs.Arc.{arc_value};
ghost use Rattle.solid_model.specs.Forcing.{is_live};
ghost use Rattle.solid_model.specs.Tree.{opened_of, found_of, rest_of, IsAllowed, IsTree};
ghost use Rattle.search_tree.specs.BlockPaths.{IsWayOf};

use crate::block_path::BlockPath;
use crate::going::go_to;
use crate::opened::open_first;
use crate::path::Path;
use crate::rest::keep_rest;
use solid_model::{Choice, Expansion, Memory, Prefix, Problem};
use std::alloc::Global;
use std::sync::Arc;

/// What expanding a piece gave: how many live prefixes were opened, the choices among them, and the
/// rest.
#[derive(Debug, Drop)]
pub struct Expanded {
    pub opened: u32,
    pub found: Vec<Choice>,
    pub rest: Vec<Prefix>,
}

/// Opens the first live prefixes that begin with the present one, a live one: as many as the
/// quantum says, or all if they are fewer. An `Err` is out of memory.
pub fn expand_path<P: Path>(alloc: Global, path: &mut P, quantum: u32) -> Result<Expanded, Memory>
    requires live { IsTrue (P.live path.old (P.prefix path.old)) }
    requires tree { IsTree (P.live path.old) (P.blocks path.old) }
    requires quantum { 1 ≤ quantum }
    ensures opened { IfOk result (λ parts. parts.opened ≡ length (opened_of
        (P.live path.old) (P.blocks path.old) (P.prefix path.old) quantum)) }
    ensures found { IfOk result (λ parts. parts.found.items
        ≡ found_of (P.live path.old) (P.blocks path.old) (P.prefix path.old) quantum) }
    ensures rest { IfOk result (λ parts. parts.rest.items
        ≡ rest_of (P.live path.old) (P.blocks path.old) (P.prefix path.old) quantum) }
    ensures live { P.live path.new ≡ P.live path.old }
    ensures blocks { P.blocks path.new ≡ P.blocks path.old }
    ensures allowed { IfOk result (λ parts. IsAllowed (P.live path.old) (P.blocks path.old)
        (P.prefix path.old) parts.opened parts.found.items parts.rest.items) }
{
    let floor = path.depth();
    let mut found = Vec::new(alloc);
    let mut rest = Vec::new(alloc);
    let opened = open_first(path, quantum, &mut found)?;
    if opened == quantum {
        // The last prefix that was opened has two sides at most, and each one above it another one.
        rest.reserve(path.depth().saturating_sub(floor).saturating_add(2))?;
        keep_rest(path, floor, &mut rest)?;
    }
    Ok(Expanded {
        opened,
        found,
        rest,
    })
}

/// The report of a piece of a problem, as [`expand`] gives it, by a way down the tree of the
/// problem's prefixes, wherever it stands: it goes to the piece from there. At an `Err`, which is
/// out of memory, the way stands somewhere else.
pub fn expand_from(
    alloc: Global,
    path: &mut BlockPath,
    problem: &Arc<Problem>,
    piece: &Prefix,
    quantum: u32,
) -> Result<Option<Expansion>, Memory>
    requires way { IsWayOf (arc_value problem.now) path.old }
    requires quantum { 1 ≤ quantum }
    ensures way { IsWayOf (arc_value problem.now) path.new }
    ensures live { IfOk result (λ answer. MatchOption answer
        (is_live (arc_value problem.now) piece.now ≡ false)
        (λ _. IsTrue (is_live (arc_value problem.now) piece.now))) }
    ensures report { IfOk result (λ answer. IfSome answer (λ expansion. expansion ≡ record {
      problem = arc_value problem.now;
      piece = piece.now;
      opened = length (opened_of (is_live (arc_value problem.now))
          (arc_value problem.now).blocks.count piece.now quantum);
      found = found_of (is_live (arc_value problem.now))
          (arc_value problem.now).blocks.count piece.now quantum;
      rest = rest_of (is_live (arc_value problem.now))
          (arc_value problem.now).blocks.count piece.now quantum;
    })) }
{
    if piece.len() > path.block_count() {
        return Ok(None);
    }
    go_to(path, piece);
    if !path.is_live() {
        return Ok(None);
    }
    let parts = expand_path(alloc, path, quantum)?;
    let problem = Arc::try_clone(problem)?;
    let piece = piece.try_clone()?;
    let expansion = Expansion::new(problem, piece, parts.opened, parts.found, parts.rest);
    Ok(Some(expansion))
}

/// The report of a piece of a problem: opens the first live prefixes that begin with the piece, in
/// the stated order (a prefix before its extensions, and a full block before an empty one), as many
/// as the quantum says, or all if they are fewer. The rest are the live prefixes behind them that
/// are one of them with one value more. `None`: the piece isn't live. An `Err` is out of memory.
pub fn expand(
    alloc: Global,
    problem: &Arc<Problem>,
    piece: &Prefix,
    quantum: u32,
) -> Result<Option<Expansion>, Memory>
    requires { 1 ≤ quantum }
    ensures live { IfOk result (λ answer. MatchOption answer
        (is_live (arc_value problem.now) piece.now ≡ false)
        (λ _. IsTrue (is_live (arc_value problem.now) piece.now))) }
    ensures report { IfOk result (λ answer. IfSome answer (λ expansion. expansion ≡ record {
      problem = arc_value problem.now;
      piece = piece.now;
      opened = length (opened_of (is_live (arc_value problem.now))
          (arc_value problem.now).blocks.count piece.now quantum);
      found = found_of (is_live (arc_value problem.now))
          (arc_value problem.now).blocks.count piece.now quantum;
      rest = rest_of (is_live (arc_value problem.now))
          (arc_value problem.now).blocks.count piece.now quantum;
    })) }
{
    let mut path = BlockPath::new(alloc, problem)?;
    expand_from(alloc, &mut path, problem, piece, quantum)
}
