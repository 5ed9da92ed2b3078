//! What the cells of a column beside a line force.

ghost use Rattle.std.specs.Prelude.{◌≡◌, ◌↔◌, ◌<◌, ℕ, ℤ, pos, Some, None, IsTrue};
ghost use Rattle.solid_model.specs.Known.{known_bits, LiesWithin};
ghost use Rattle.line_demands.specs.Doubted.{CanDrawWith};
ghost use Rattle.line_demands.specs.Excluding.{CellExcludes};
ghost use Rattle.propagate.specs.Looking.{TellsLeast, decision_on, lesser_decision};
ghost use Rattle.solid_model.specs.Forcing.{with_value};

use line_demands::{KnownColumn, can_draw_with};
use solid_model::{Decision, Style};

/// Of two decisions the one on the lesser block. Of two on one block: full, if one of them is.
pub fn lesser(one: Option<Decision>, other: Option<Decision>) -> Option<Decision>
    ensures { result ≡ lesser_decision one other }
{
    match one {
        None => other,
        Some(first) => match other {
            None => one,
            Some(second) => {
                if first.block == second.block {
                    Some(Decision {
                        block: first.block,
                        full: first.full || second.full,
                    })
                } else if first.block < second.block {
                    one
                } else {
                    other
                }
            }
        },
    }
}

/// The value that an undecided cell has to have: the opposite of one that it can't have, and full
/// where it can have neither.
pub fn forced_value(
    style: Style,
    column: KnownColumn,
    beside: KnownColumn,
    depth: usize,
) -> Option<bool>
    requires depth { depth < 64 }
    requires within { LiesWithin column.full column.may }
    requires beside { LiesWithin beside.full beside.may }
    requires undecided { known_bits column.full column.may (pos depth) ≡ None }
    ensures { (block : ℕ) → TellsLeast (CellExcludes (known_bits column.full column.may)
        (known_bits beside.full beside.may) style depth (Some block)) (decision_on block result) }
{
    if !can_draw_with(style, column, beside, depth, false) {
        return Some(true);
    }
    if !can_draw_with(style, column, beside, depth, true) {
        return Some(false);
    }
    None
}
