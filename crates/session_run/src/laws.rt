//! What follows for sessions.

ghost use Rattle.std.specs.Prelude.{◌≡◌, ◌≤◌, List, length};
ghost use Rattle.lemmas.specs.Lists.{Each, Ascends};
ghost use Rattle.solid_model.specs.Blocks.{ProblemParts, IsBlocksOf};
ghost use Rattle.solid_model.specs.Choices.{ChoicePrecedes};
ghost use Rattle.solid_model.specs.Search.{SearchLimits};
ghost use Rattle.solid_model.specs.Solutions.{AreSolutions};
ghost use Rattle.query_session.specs.declared.ask.Ask.{Ask};
ghost use Rattle.search_end.specs.Stopped.{end_found, end_solids};
ghost use Rattle.session_run.specs.declared.session.Session.{Session};
ghost use Rattle.session_run.specs.Session.{AreAmong, IsSession};

/// Each choice of a page is listed at the end, or as many solids are listed as the limit.
pub fn sessions_list_pages()
    ensures { (p : ProblemParts) (limits : SearchLimits) (scripts : List (List Ask)) (s : Session)
        → IsSession p limits scripts s
        → Each (λ tale. Each (λ page. AreAmong limits.solids (end_solids s.end) page.solids.items)
        tale.pages.items) s.tales.items }
{}

/// What is listed at the end are different solutions in the stated order, at most as many as the
/// limit; and each choice that the desk found is listed, or as many are listed as the limit.
pub fn sessions_list_solutions()
    ensures { (p : ProblemParts) (limits : SearchLimits) (scripts : List (List Ask)) (s : Session)
        → IsBlocksOf p.grid p.blocks → IsSession p limits scripts s
        → AreSolutions p (end_solids s.end) × Ascends ChoicePrecedes (end_solids s.end)
        × (length (end_solids s.end) ≤ limits.solids)
        × AreAmong limits.solids (end_solids s.end) (end_found s.end) }
{}
