//! A search that begins.

ghost use Rattle.std.specs.Prelude.{◌≡◌, [], IfOk};
ghost use Rattle.std.specs.Arc.{arc_value};
ghost use Rattle.search_core.specs.Desk.{IsDesk};
ghost use Rattle.search_tree.specs.BlockPaths.{IsWayOf};

use search_core::Desk;
use search_tree::{BlockPath, Path};
use solid_model::{Limits, Memory, Problem};
use std::alloc::Global;
use std::sync::Arc;

/// A way down the tree of a problem's prefixes, and the desk of a search of it within limits that
/// begins. An `Err` is out of memory.
pub fn set_up<'a>(
    alloc: Global,
    problem: &'a Arc<Problem>,
    limits: Limits,
) -> Result<(BlockPath<'a>, Desk), Memory>
    ensures way { IfOk result (λ r. IsWayOf (arc_value problem.now) r.0) }
    ensures problem { IfOk result (λ r. r.1.problem ≡ arc_value problem.now) }
    ensures limits { IfOk result (λ r. r.1.limits ≡ limits) }
    ensures begun { IfOk result (λ r. r.1.history ≡ []) }
    ensures kept { IfOk result (λ r. IsDesk r.1) }
{
    let mut path = BlockPath::new(alloc, problem)?;
    // Any prefix is live where the empty one is, at which the way stands.
    let live = path.is_live();
    let desk = Desk::new(alloc, Arc::try_clone(problem)?, limits, live)?;
    Ok((path, desk))
}

/// The desk alone.
pub fn begin(alloc: Global, problem: &Arc<Problem>, limits: Limits) -> Result<Desk, Memory>
    ensures problem { IfOk result (λ desk. desk.problem ≡ arc_value problem.now) }
    ensures limits { IfOk result (λ desk. desk.limits ≡ limits) }
    ensures begun { IfOk result (λ desk. desk.history ≡ []) }
    ensures kept { IfOk result IsDesk }
{
    let (_, desk) = set_up(alloc, problem, limits)?;
    Ok(desk)
}
