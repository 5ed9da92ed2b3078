//! Laws of the stated orders: there is one list of all matching solids, and one stated form of each
//! solid.

ghost use Rattle.std.specs.Prelude.{◌≡◌, ◌⊎◌, Bool, List, [], ◌∷◌};
ghost use Rattle.solid_model.specs.declared.cell.Cell.{Cell};
ghost use Rattle.solid_model.specs.declared.segment.Segment.{Segment};
ghost use Rattle.solid_model.specs.declared.segment.Style.{Style};
ghost use Rattle.solid_model.specs.Cells.{SameCells};
ghost use Rattle.solid_model.specs.Matching.{AreSolidsOf};
ghost use Rattle.solid_model.specs.Orders.{ComesBefore, IsInStatedForm, Precedes, SolidPrecedes};
ghost use Rattle.lemmas.specs.Lists.{Each, Ascends};
ghost use Rattle.solid_model.specs.SmallSolids.{eight_cells, five_of_eight, four_of_eight, other_four_of_eight};

/// A drawing has one list of all matching solids: whoever finds them all, in the stated form and
/// order, finds this list.
pub fn all_matching_solids_are_one_list()
    ensures { (drawing : Segment → Style) (ss ts : List (List Cell)) → AreSolidsOf drawing ss
        → AreSolidsOf drawing ts → ss ≡ ts }
{}

/// The stated order of solids is an order, and of two solids that differ one comes first: at the
/// first cell in which they differ.
pub fn solids_are_ordered()
    ensures one { (full other : Cell → Bool) → Precedes full other → Precedes other full → ⊥ }
    ensures onward { (full other third : Cell → Bool) → Precedes full other → Precedes other third
        → Precedes full third }
    ensures some { (s t : List Cell) → SameCells s t ⊎ (SolidPrecedes s t ⊎ SolidPrecedes t s) }
{}

/// Each solid has one stated form.
pub fn one_stated_form()
    ensures one { (s t : List Cell) → IsInStatedForm s → IsInStatedForm t → SameCells s t → s ≡ t }
    ensures some { (s : List Cell) → (t : List Cell) × IsInStatedForm t × SameCells s t }
{}

/// The stated orders on what is written out: the eight cells of a cube, and the three solids of the
/// quartered cube, each in its stated form.
pub fn small_orders()
    ensures cells { Ascends ComesBefore eight_cells }
    ensures forms { Each IsInStatedForm (five_of_eight ∷ four_of_eight ∷ other_four_of_eight ∷ []) }
    ensures solids { Ascends SolidPrecedes (five_of_eight ∷ four_of_eight ∷ other_four_of_eight
        ∷ []) }
{}
