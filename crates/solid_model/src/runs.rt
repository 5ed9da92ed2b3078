//! Maximal runs of one style.
//!
//! A small type of their own keeps that they are runs; it is made from a `Vec` and gives it back
//! for nothing. So the lists of a view are `Runs` and not `Vec<Run>`.

use crate::segment::Style;
use std::marker::Model;

/// A maximal stretch of one style that isn't Blank, on the line `at` across it, from `from` to `to`
/// along it.
#[derive(Clone, Copy, Debug, PartialEq, Eq)]
pub struct Run {
    pub at: i64,
    pub from: i64,
    pub to: i64,
    pub style: Style,
}

/// The level or the upright runs of a view, sorted by line and then start; contracts see them as
/// their list. Each has some length and isn't blank, no two overlap, and each is maximal.
#[derive(Debug, Drop)]
pub struct Runs {
    items: Vec<Run>,
}

impl Model for Runs {
    ghost use Rattle.std.specs.Prelude.{List};
    ghost use Rattle.solid_model.specs.declared.runs.Run.{Run};
    ghost use Rattle.solid_model.specs.Runs.{AreRuns};

    ghost Value = { List Run };

    ghost view = { λ s. s.items.items };

    ghost invariant = { λ s. AreRuns s.items.items };
}

impl Runs {
    ghost use Rattle.std.specs.Prelude.{◌≡◌};
    ghost use Rattle.solid_model.specs.Runs.{AreRuns};

    /// These runs, for nothing.
    pub fn new(items: Vec<Run>) -> Runs
        requires { AreRuns items.items }
        ensures { result ≡ items.items }
    {
        Runs { items }
    }

    /// The runs.
    pub fn as_slice(&self) -> &[Run]
        ensures same { result.now ≡ self.now }
        ensures kept { AreRuns self.now }
    {
        self.items.as_slice()
    }
}
