//! Choices of which those are kept that fit.

ghost use Rattle.std.specs.Prelude.{◌≡◌, ◌↔◌, Bool, List, IsTrue, IfOk};
ghost use Rattle.page_calls.specs.Those.{AreThose};

use solid_model::{Choice, Memory};
use std::alloc::Global;

/// Tells which choices fit.
pub trait Sieve {
    /// The choice fits.
    ghost fits: { Self → List Bool → Type 0 };

    /// Whether a choice fits. An `Err` is out of memory.
    fn fits(&mut self, alloc: Global, choice: &Choice) -> Result<bool, Memory>
        ensures told { IfOk result (λ yes. IsTrue yes ↔ fits self.old choice.now) }
        ensures same { self.new ≡ self.old };
}

/// Copies of those of the choices that fit, in their order. An `Err` is out of memory.
pub fn sift<S: Sieve>(
    alloc: Global,
    sieve: &mut S,
    choices: &[Choice],
) -> Result<Vec<Choice>, Memory>
    ensures those { IfOk result (λ kept.
        AreThose (S.fits sieve.old) choices.now kept.items) }
    ensures same { sieve.new ≡ sieve.old }
{
    let mut kept = Vec::new(alloc);
    for choice in choices {
        if sieve.fits(alloc, choice)? {
            kept.push(choice.try_clone()?)?;
        }
    }
    Ok(kept)
}
