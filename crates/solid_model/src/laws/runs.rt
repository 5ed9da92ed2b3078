//! Laws of lists of runs. Each is the contract of a function that does nothing.

ghost use Rattle.std.specs.Prelude.{◌≡◌, List, [], ◌∷◌, ℤ, pos};
ghost use Rattle.solid_model.specs.declared.runs.Run.{Run};
ghost use Rattle.solid_model.specs.declared.segment.Style.TheVariants.{Blank, Dashed, Solid};
ghost use Rattle.solid_model.specs.Drawings.{same_style};
ghost use Rattle.lemmas.specs.Lists.{Each};
ghost use Rattle.solid_model.specs.Runs.{run_style, AreRuns};
ghost use Rattle.solid_model.specs.SmallRuns.{four_runs, two_halves, styles_on, first_places};
ghost use Rattle.solid_model.specs.Stretches.{IsStretch};

/// Each run is a maximal stretch of its style on its line: every unit length from its beginning to
/// its end has that style, and neither the one before its beginning nor the one at its end has it.
pub fn runs_are_maximal_stretches()
    ensures { (rs : List Run) → AreRuns rs
        → Each (λ r. IsStretch (λ z. same_style r.style (run_style rs r.at z)) r.from r.to) rs }
{}

/// A drawing has one list of runs: two lists that give each unit length of each line the same style
/// are one.
pub fn one_list_of_runs()
    ensures { (rs ss : List Run) → AreRuns rs → AreRuns ss
        → ((j z : ℤ) → run_style rs j z ≡ run_style ss j z) → rs ≡ ss }
{}

/// Small lists of runs, written out by hand. On line 0 a solid piece from 1 to 3 lies between a
/// dashed one from 0 and a dashed one to 4, and on line 2 a dashed run goes from 1 to 3: this is a
/// list of runs, and shows what it lists, at the places from -1 to 4, and nothing on the line
/// between. A solid run in two halves is no list of runs, since neither half is maximal.
pub fn small_runs()
    ensures are_runs { AreRuns four_runs }
    ensures on_line_0 { styles_on four_runs (pos 0) first_places ≡ Blank ∷ Dashed ∷ Solid ∷ Solid
        ∷ Dashed ∷ Blank ∷ [] }
    ensures on_line_1 { styles_on four_runs (pos 1) first_places ≡ Blank ∷ Blank ∷ Blank ∷ Blank
        ∷ Blank ∷ Blank ∷ [] }
    ensures on_line_2 { styles_on four_runs (pos 2) first_places ≡ Blank ∷ Blank ∷ Dashed ∷ Dashed
        ∷ Blank ∷ Blank ∷ [] }
    ensures halved { AreRuns two_halves → ⊥ }
{}
