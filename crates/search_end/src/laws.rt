//! What follows for a search that was stopped.

ghost use Rattle.std.specs.Prelude.{◌≡◌, ◌<◌, ◌≤◌, None, []};
ghost use Rattle.search_core.specs.Desk.{DeskParts, IsDesk};
ghost use Rattle.solid_model.specs.Blocks.{IsBlocksOf};
ghost use Rattle.solid_model.specs.Forcing.{is_live};
ghost use Rattle.solid_model.specs.Tree.{live_count};

/// A desk without an end has opened fewer prefixes than are live, so that there are some, and no
/// more than its limit.
pub fn stopped_searches_are_open()
    ensures { (d : DeskParts) → IsDesk d → IsBlocksOf d.problem.grid d.problem.blocks → d.end ≡ None
        → (d.opened < live_count (is_live d.problem) d.problem.blocks.count [])
        × (d.opened ≤ d.limits.nodes) }
{}
