//! Laws of logs that are written.

ghost use Rattle.std.specs.Prelude.{◌≡◌, ◌≢◌, ◌↔◌, ◌≤◌, Bool, List, ℕ, length};
ghost use Rattle.completeness_logs.specs.LogTexts.{IsLog};
ghost use Rattle.lemmas.specs.Lists.{Ascends, Member};
ghost use Rattle.proof_log.specs.Few.{HasFewMatching};
ghost use Rattle.solid_model.specs.declared.segment.Segment.{Segment};
ghost use Rattle.solid_model.specs.declared.segment.Style.{Style};
ghost use Rattle.solid_model.specs.Blocks.{ProblemParts, IsBlocksOf};
ghost use Rattle.solid_model.specs.Choices.{IsMatchingChoice};
ghost use Rattle.solid_model.specs.Panels.{coordinates_of, IsGrid, IsGridOf};
ghost use Rattle.solid_model.specs.Runs.{IsDrawing};

/// Every problem has a log, as far as its solids are few enough: so what is asked of the writing
/// can be given.
pub fn every_problem_has_a_log()
    ensures { (p : ProblemParts) → IsGrid p.grid → IsBlocksOf p.grid p.blocks
        → p.blocks.count ≤ 65535 → HasFewMatching p
        → (text : List ℕ) × (choices : List (List Bool)) × IsLog p text choices }
{}

/// Completeness: a problem whose solids are few enough has a log that lists exactly the choices of
/// its blocks which match the drawing, each once; and a problem that has a log has no more solids.
pub fn logs_are_complete()
    ensures exactly { (drawing : Segment → Style) → IsDrawing drawing
        → (p : ProblemParts) → IsGridOf drawing p.grid → IsBlocksOf p.grid p.blocks
        → p.blocks.count ≤ 65535 → HasFewMatching p
        → (text : List ℕ) × (choices : List (List Bool)) × IsLog p text choices
        × Ascends ◌≢◌ choices
        × ((choice : List Bool) → Member choices choice ↔ ((length choice ≡ p.blocks.count)
        × IsMatchingChoice drawing (coordinates_of p.grid) p.blocks.numbers choice)) }
    ensures few { (p : ProblemParts) → IsBlocksOf p.grid p.blocks
        → (text : List ℕ) (choices : List (List Bool)) → IsLog p text choices → HasFewMatching p }
{}
