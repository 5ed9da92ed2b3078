//! What left_right keeps two copies of.

use crate::edition::Edition;
use left_right::Absorb;
use std::alloc::{AllocError, Global};
use std::marker::Model;
use std::sync::Arc;

/// The edition that is shown. As an operation it takes the place of the one before.
#[derive(Drop)]
pub struct Shown {
    edition: Arc<Edition>,
}

impl Model for Shown {
    ghost use Rattle.std.specs.Arc.{arc_value};
    ghost use Rattle.solution_book.specs.Editions.{EditionParts};

    ghost Value = { EditionParts };

    ghost view = { λ s. arc_value s.edition };
}

impl Absorb<Shown> for Shown {
    type State = Shown;

    ghost state = { λ s. s };

    ghost applied = { λ _ operation. operation };

    fn absorb_first(&mut self, operation: &Shown, _other: &Shown) -> Result<(), AllocError> {
        self.edition = Arc::try_clone(&operation.edition)?;
        Ok(())
    }
}

impl Shown {
    ghost use Rattle.std.specs.Prelude.{◌≡◌, IfOk};
    ghost use Rattle.std.specs.Arc.{arc_value};

    /// Shows this edition.
    pub fn new(edition: Arc<Edition>) -> Shown
        ensures { result ≡ arc_value edition }
    {
        Shown { edition }
    }

    /// The edition.
    pub fn edition(&self) -> &Arc<Edition>
        ensures { arc_value result.now ≡ self.now }
    {
        &self.edition
    }
}
