//! The search of a whole tree.

ghost use Rattle.std.specs.Prelude.{◌≡◌, [], IfOk};
ghost use Rattle.std.specs.Arc.{arc_value};
ghost use Rattle.solid_model.specs.Forcing.{is_live};
ghost use Rattle.solid_model.specs.SearchEnds.{EndsSearch};

use crate::block_path::BlockPath;
use crate::opened::{is_whole, keep_whole};
use crate::path::Path;
use crate::walk::go_on;
use solid_model::{EndKind, Ended, Limits, Memory, Problem};
use std::alloc::Global;
use std::sync::Arc;

/// Searches the tree, from the empty prefix on, within limits. An `Err` is out of memory.
pub fn search_path<P: Path>(alloc: Global, path: &mut P, limits: Limits) -> Result<Ended, Memory>
    requires { P.prefix path.old ≡ [] }
    ensures { IfOk result (EndsSearch (P.live path.old) (P.blocks path.old) limits) }
{
    let mut solids = Vec::new(alloc);
    let mut opened: u64 = 0;
    let mut more = path.is_live();
    while more {
        opened += 1;
        if opened > limits.nodes {
            return Ok(Ended {
                kind: EndKind::CutNodes,
                opened,
                solids,
            });
        }
        if is_whole(path) && solids.len() == limits.solids as usize {
            return Ok(Ended {
                kind: EndKind::CutSolids,
                opened,
                solids,
            });
        }
        keep_whole(path, &mut solids)?;
        more = go_on(path, 0);
    }
    Ok(Ended {
        kind: EndKind::Whole,
        opened,
        solids,
    })
}

/// The search of all prefixes of a problem on one thread, within limits, and how it ended. An `Err`
/// is out of memory.
pub fn solve_alone(alloc: Global, problem: &Arc<Problem>, limits: Limits) -> Result<Ended, Memory>
    ensures { IfOk result (EndsSearch (is_live (arc_value problem.now))
        (arc_value problem.now).blocks.count limits) }
{
    let mut path = BlockPath::new(alloc, problem)?;
    search_path(alloc, &mut path, limits)
}
