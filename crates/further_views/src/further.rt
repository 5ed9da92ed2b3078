//! The views and sections that are asked for.

use dxf_entities::Layer;
use solid_model::ViewLines;
use std::marker::Model;

/// What a layer shows: the runs of its view, shifted so that its least right and its least up
/// coordinate are 0.
#[derive(Debug, Drop)]
pub struct AskedView {
    pub layer: Layer,
    pub lines: ViewLines,
}

impl Model for AskedView {
    ghost use Rattle.further_views.specs.Further.{AskedRuns};

    ghost Value = { AskedRuns };

    ghost view = { λ s. record { layer = s.layer; runs = s.lines } };
}

impl AskedView {
    ghost use Rattle.std.specs.Prelude.{Bool};
    ghost use Rattle.solid_model.specs.Runs.{AreRuns, runs_along};

    /// Its lists are lists of runs.
    pub fn known(&self)
        ensures { (upright : Bool) → AreRuns (runs_along upright self.now.runs) }
    {
        let _ = self.lines.level.as_slice();
        let _ = self.lines.upright.as_slice();
    }
}

/// The layers that ask for something, each once, in the order of their first lines.
#[derive(Debug, Drop)]
pub struct Further {
    views: Vec<AskedView>,
}

impl Model for Further {
    ghost use Rattle.further_views.specs.Further.{FurtherRuns};

    ghost Value = { FurtherRuns };

    ghost view = { λ s. s.views.items };
}

impl Further {
    ghost use Rattle.std.specs.Prelude.{◌≡◌, false};
    ghost use Rattle.further_views.specs.Further.{AsksForNone, HasRuns};

    /// These, for nothing.
    pub fn new(views: Vec<AskedView>) -> Further
        ensures { result ≡ views.items }
    {
        Further { views }
    }

    /// What is asked for.
    pub fn as_slice(&self) -> &[AskedView]
        ensures { result.now ≡ self.now }
    {
        self.views.as_slice()
    }

    /// Each view has lists of runs.
    pub fn known(&self)
        ensures { HasRuns self.now }
    {
        for view in self.views.as_slice() {
            view.known();
        }
    }

    /// Whether something is asked for.
    pub fn asks(&self) -> bool
        ensures { result ≡ false → AsksForNone self.now }
    {
        !self.views.is_empty()
    }
}
