//! What a publishing answers.

use crate::edition::Edition;
use std::marker::Model;
use std::sync::Arc;

/// What was published when it was given, for a reader to learn. Contracts see it as that edition.
#[derive(Drop)]
pub struct Receipt {
    pub(crate) edition: Arc<Edition>,
}

impl Model for Receipt {
    ghost use Rattle.std.specs.Arc.{arc_value};
    ghost use Rattle.solution_book.specs.Editions.{EditionParts};

    ghost Value = { EditionParts };

    ghost view = { λ s. arc_value s.edition };
}

impl Receipt {
    ghost use Rattle.std.specs.Prelude.{◌≡◌, length};

    /// The number of solids that were published.
    pub fn length(&self) -> usize
        ensures { result ≡ length self.now.solids }
    {
        self.edition.solids().len()
    }
}
