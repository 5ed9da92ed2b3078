//! The caller alone goes on deep first too.

use crate::searches::{limits, problem, search_by_desk};
use solid_model::EndKind;
use std::alloc::Global;
use std::test::Fail;

/// A cube with 512 voids: 513 blocks.
const VOIDS: [&str; 3] = ["lattice 8 8"; 3];

/// How a search of it by a desk ends, where one solid may be listed: level by level, at its limit
/// of nodes.
fn end_of_voids(alloc: Global) -> Result<EndKind, Fail> {
    let problem = problem(alloc, VOIDS)?;
    let ended = search_by_desk(alloc, &problem, limits("1000000", "1")?)?;
    Ok(ended.kind)
}

#[test]
fn a_desk_finds_two(rt: HostRuntime) -> Result<(), Fail> {
    let kind = end_of_voids(rt.alloc())?;
    assert!(rt; kind == EndKind::CutSolids);
    Ok(())
}
