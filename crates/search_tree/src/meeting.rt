//! Whether the lines of a grid can be met.

ghost use Rattle.std.specs.Prelude.{◌≡◌, ◌↔◌, true, IsTrue};
ghost use Rattle.solid_model.specs.Decisions.{decided_by, AreOnAll};
ghost use Rattle.solid_model.specs.declared.line_id.LineId.{LineId};
ghost use Rattle.solid_model.specs.Demands.{has_line, CanBeMet};

use line_demands::Partial;

/// Whether each line can be met, which is known at a look. Where the whole solid is decided, what
/// it draws is looked at as well.
pub fn meets_all(partial: &mut Partial<'_>, whole: bool) -> bool
    requires { whole ≡ true → AreOnAll partial.old.problem.blocks.count partial.old.decisions }
    ensures same { partial.new ≡ partial.old }
    ensures met { IsTrue result ↔ ((l : LineId) → IsTrue (has_line partial.old.problem.grid l)
        → CanBeMet partial.old.problem (decided_by partial.old.decisions) l) }
{
    if partial.broken_line().is_some() {
        return false;
    }
    !whole || partial.whole_fits()
}
