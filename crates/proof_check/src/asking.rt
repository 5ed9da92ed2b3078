//! What a problem, some of whose blocks are decided, is asked at the lines of a log.

ghost use Rattle.std.specs.Prelude.{◌≡◌, ◌≢◌, ◌↔◌, ◌<◌, ℕ, None, IsTrue, IfOk, IfSome};
ghost use Rattle.solid_model.specs.Decisions.{decided_by};
ghost use Rattle.solid_model.specs.Demands.{has_line, AllMet};
ghost use Rattle.completeness_logs.specs.Logs.{choice_known, known_full, line_placed};

use completeness_logs::LinePlace;
use line_demands::Partial;
use solid_model::{Choice, LineId, Memory, Problem};
use std::alloc::Global;

/// How many blocks there are.
pub fn block_count(partial: &Partial<'_>) -> u16
    ensures { result ≡ partial.now.problem.blocks.count }
{
    partial.problem().blocks().count()
}

/// The line of the problem's grid that stands there, if one does.
pub fn line_at(problem: &Problem, place: LinePlace) -> Option<LineId>
    ensures some { IfSome result
        (λ l. IsTrue (has_line problem.now.grid l) × (l ≡ line_placed place)) }
    ensures none { result ≡ None → IsTrue (has_line problem.now.grid (line_placed place)) → ⊥ }
{
    let grid = problem.grid();
    grid.known();
    if place.at > 255 {
        return None;
    }
    if place.cell > 255 {
        return None;
    }
    let line = LineId {
        view: place.view,
        upright: place.upright,
        at: place.at as u8,
        cell: place.cell as u8,
    };
    if grid.has(line) {
        return Some(line);
    }
    None
}

/// Every block is decided.
pub fn all_decided(partial: &Partial<'_>) -> bool
    ensures { IsTrue result ↔ ((block : ℕ) → block < partial.now.problem.blocks.count
        → decided_by partial.now.decisions block ≢ None) }
{
    for block in 0..partial.problem().blocks().count() {
        if partial.value(block).is_none() {
            return false;
        }
    }
    true
}

/// Every line of the grid can be met.
pub fn all_met(partial: &Partial<'_>) -> bool
    ensures { IsTrue result ↔ AllMet partial.now.problem (decided_by partial.now.decisions) }
{
    match partial.broken_line() {
        None => true,
        Some(_line) => false,
    }
}

/// Whether what is known is that it is full.
fn known_full(value: Option<bool>) -> bool
    ensures { result ≡ known_full value }
{
    match value {
        None => false,
        Some(full) => full,
    }
}

/// The choice of all blocks that the decisions make, where each of them is decided.
pub fn choice_known(alloc: Global, partial: &Partial<'_>) -> Result<Choice, Memory>
    ensures { IfOk result
        (λ c. c ≡ choice_known partial.now.problem (decided_by partial.now.decisions)) }
{
    let count = partial.problem().blocks().count();
    let mut values = Vec::with_capacity(alloc, usize::from(count))?;
    for block in 0..count {
        values.push(known_full(partial.value(block)))?;
    }
    Choice::from_bools(alloc, values.as_slice())
}
