//! Laws of what is demanded of blocks, and of live prefixes.

ghost use Rattle.std.specs.Prelude.{◌≡◌, ◌↔◌, Bool, true, false, ℕ, List, [], ◌∷◌, Option, IsTrue};
ghost use Rattle.solid_model.specs.declared.frame.View.TheVariants.{Front, Top, Side};
ghost use Rattle.solid_model.specs.declared.cell.Cell.{Cell};
ghost use Rattle.solid_model.specs.declared.line_id.LineId.{LineId};
ghost use Rattle.solid_model.specs.declared.segment.Segment.{Segment};
ghost use Rattle.solid_model.specs.declared.segment.Style.{Style};
ghost use Rattle.solid_model.specs.Blocks.{ProblemParts, IsBlocksOf};
ghost use Rattle.solid_model.specs.Choices.{IsMatchingChoice};
ghost use Rattle.solid_model.specs.Demands.{said_by, AllMet, CanBeMet, can_be_met, lines_in, lines_of};
ghost use Rattle.solid_model.specs.Forcing.{IsForced, IsLive, is_live};
ghost use Rattle.solid_model.specs.Panels.{coordinates_of, IsGridOf};
ghost use Rattle.solid_model.specs.Runs.{IsDrawing};
ghost use Rattle.solid_model.specs.SmallLines.{two_cells, told_first, missing, line};
ghost use Rattle.solid_model.specs.Tree.{KeepsMatching};
ghost use Rattle.column_laws.specs.DrawnDemands.{Meets};
ghost use Rattle.column_laws.specs.SmallForcing.{quartered_half_hidden, upper_cells};

/// Whether a line of a problem can still be met, and whether a prefix is live, can be computed: no
/// pair of columns has to be tried, and of all forcing chains only one.
pub fn demands_are_computed()
    ensures met { (p : ProblemParts) → IsBlocksOf p.grid p.blocks
        → (known : ℕ → Option Bool) (l : LineId)
        → IsTrue (can_be_met p known l) ↔ CanBeMet p known l }
    ensures live { (p : ProblemParts) → IsBlocksOf p.grid p.blocks → (prefix : List Bool)
        → IsTrue (is_live p prefix) ↔ IsLive p prefix }
{}

/// The lines of a grid of two cells along x and one along y and z, in their order: by view, the
/// level ones before the upright ones, then by position and by cell. And those of the side view, of
/// a grid of one cell along x and two along y and z. A view that shows nothing has no line.
pub fn lines_in_order()
    ensures all { lines_of two_cells ≡
        line Front false 0 0 ∷ line Front false 0 1 ∷ line Front false 1 0 ∷ line Front false 1 1
        ∷ line Front true 0 0 ∷ line Front true 1 0 ∷ line Front true 2 0
        ∷ line Top false 0 0 ∷ line Top false 0 1 ∷ line Top false 1 0 ∷ line Top false 1 1
        ∷ line Top true 0 0 ∷ line Top true 1 0 ∷ line Top true 2 0
        ∷ line Side false 0 0 ∷ line Side false 1 0
        ∷ line Side true 0 0 ∷ line Side true 1 0 ∷ [] }
    ensures side { lines_in
        (record two_cells { xs = two_cells.ys; ys = two_cells.xs; zs = two_cells.xs }) Side ≡
        line Side false 0 0 ∷ line Side false 0 1 ∷ line Side false 1 0 ∷ line Side false 1 1
        ∷ line Side false 2 0 ∷ line Side false 2 1
        ∷ line Side true 0 0 ∷ line Side true 0 1 ∷ line Side true 1 0 ∷ line Side true 1 1
        ∷ line Side true 2 0 ∷ line Side true 2 1 ∷ [] }
    ensures two_views { lines_of (record two_cells
        { panels = record { front = told_first; top = missing; side = told_first } }) ≡
        line Front false 0 0 ∷ line Front false 0 1 ∷ line Front false 1 0 ∷ line Front false 1 1
        ∷ line Front true 0 0 ∷ line Front true 1 0 ∷ line Front true 2 0
        ∷ line Side false 0 0 ∷ line Side false 1 0
        ∷ line Side true 0 0 ∷ line Side true 1 0 ∷ [] }
{}

/// A line can be met exactly where some cells that agree with what is known draw it: so that two
/// columns tell it, as the definition has it, is a fact of drawings and no convention.
pub fn lines_are_met_by_drawings()
    ensures { (p : ProblemParts) → IsBlocksOf p.grid p.blocks → (known : ℕ → Option Bool)
        → (l : LineId) → CanBeMet p known l ↔ ((s : List Cell) × Meets p known l s) }
{}

/// Live prefixes are closed downwards and end in matching solids: what a live prefix begins with is
/// live; so is whatever the choice of a matching solid begins with; and a live prefix of full
/// length is the choice of a matching solid.
pub fn live_prefixes_end_in_matching_solids()
    ensures { (drawing : Segment → Style) → IsDrawing drawing
        → (p : ProblemParts) → IsGridOf drawing p.grid → IsBlocksOf p.grid p.blocks
        → KeepsMatching (is_live p) p.blocks.count
        (IsMatchingChoice drawing (coordinates_of p.grid) p.blocks.numbers) }
{}

/// A live prefix leaves every line able to be met: forcing decisions only ever makes fewer prefixes
/// live than looking at each line alone.
pub fn live_prefixes_leave_all_lines_met()
    ensures { (p : ProblemParts) (prefix : List Bool) → IsLive p prefix
        → AllMet p (said_by prefix) }
{}

/// The quartered cube of which half a stroke is hidden from above, which no solid shows: while
/// nothing is decided each of its lines can be met; but the lines force its upper cells, and with
/// these a line of the front can't be met. So none of its prefixes is live.
pub fn quartered_cube_half_hidden()
    ensures met { AllMet quartered_half_hidden (said_by []) }
    ensures forced { IsForced quartered_half_hidden (said_by []) upper_cells }
    ensures none { (prefix : List Bool) → IsLive quartered_half_hidden prefix → ⊥ }
{}
