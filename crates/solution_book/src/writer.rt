//! The writer of a book.
//!
//! What left_right has taken but couldn't show is shown with the next publishing. So a shut writer
//! answers before it asks left_right, and the type keeps that nothing waits where the mark isn't
//! set.

ghost use Rattle.std.specs.Prelude.{◌≡◌, [], drop, Some, MatchResult};
ghost use Rattle.solution_book.specs.Editions.{Begins};

use crate::receipt::Receipt;
use crate::rule::{Looks, Pen};
use crate::shown::Shown;
use core::mem::replace_with;
use solid_model::{Choice, Memory, Problem};
use std::alloc::{AllocError, Global};
use std::marker::Model;
use std::sync::{Arc, Wait};

/// Publishes an edition. At an `Err` what is published is as before, and this edition may wait to
/// be published with the next one.
fn publish_one<R: Wait>(rt: &R, pen: Pen, next: Shown) -> (Pen, Result<(), AllocError>)
    requires none { drop pen.behind pen.log.items ≡ [] }
    requires longer { Begins next (Some pen.desk.shown.value) }
    ensures { MatchResult result.1
        (λ _. (result.0.desk.shown.value ≡ next)
        × (drop result.0.behind result.0.log.items ≡ []))
        (λ _. result.0.desk.shown.value ≡ pen.desk.shown.value) }
{
    let mut pen = pen;
    match pen.append(next) {
        Ok(()) => pen.publish_as::<Looks, R>(rt),
        Err(_) => (pen, Err(AllocError)),
    }
}

/// Who publishes. Contracts see the edition that is published, and whether the writer is shut.
pub struct BookWriter<R: Wait + Drop> {
    pub(crate) pen: Pen,
    pub(crate) rt: R,
    /// Set before a publishing is tried and taken back once it is done, so that what waits after a
    /// refusal is never published.
    pub(crate) shut: bool,
}

impl<R: Wait + Drop> Drop for BookWriter<R> {
    fn drop(self) {
        let Self { pen, rt, shut: _ } = self;
        drop(pen.take(&rt));
    }
}

impl<R: Wait + Drop> Model for BookWriter<R> {
    ghost use Rattle.solution_book.specs.Editions.{BookParts};

    ghost Value = { BookParts };

    ghost use Rattle.std.specs.Prelude.{◌≡◌, false, [], drop};

    ghost view = { λ s. record { edition = s.pen.desk.shown.value; shut = s.shut } };

    ghost invariant = { λ s. s.shut ≡ false → drop s.pen.behind s.pen.log.items ≡ [] };
}

impl<R: Wait + Drop> BookWriter<R> {
    ghost use Rattle.std.specs.Prelude.{◌≡◌, ◌≢◌, ◌↔◌, ◌++◌, true, false, length, MatchResult, IsTrue};
    ghost use Rattle.lemmas.specs.Lists.{Each, Ascends};
    ghost use Rattle.solid_model.specs.Solutions.{IsSolutionOf};
    ghost use Rattle.solution_book.specs.Editions.{IsEdition};

    /// Publishes more solids, all at one step, in their order. It may wait for readers. At an
    /// `Err`, which is out of memory, nothing is published, and the writer is shut: it publishes
    /// nothing any more.
    pub fn publish(&mut self, alloc: Global, more: &[Choice]) -> Result<Receipt, Memory>
        requires each { Each (IsSolutionOf self.old.edition.problem) more.now }
        requires once { Ascends ◌≢◌ (self.old.edition.solids ++ more.now) }
        ensures { MatchResult result
            (λ receipt. (self.old.shut ≡ false) × (receipt ≡ self.new.edition)
            × (self.new ≡ record {
              edition = record {
                problem = self.old.edition.problem;
                solids = self.old.edition.solids ++ more.now;
              };
              shut = false;
            }))
            (λ _. self.new ≡ record { edition = self.old.edition; shut = true }) }
    {
        if self.shut {
            return Err(Memory);
        }
        self.shut = true;
        let next = Arc::new(alloc, self.pen.published().edition().with(alloc, more)?)?;
        let receipt = Receipt {
            edition: Arc::try_clone(&next)?,
        };
        let rt = &self.rt;
        replace_with(
            &mut self.pen,
            Shown::new(next),
            |pen, next| publish_one(rt, pen, next),
        )?;
        self.shut = false;
        Ok(receipt)
    }

    /// How many solids are published.
    pub fn published(&self) -> usize
        ensures published { result ≡ length self.now.edition.solids }
        ensures kept { IsEdition self.now.edition }
    {
        self.pen.published().edition().solids().len()
    }

    /// Whether the book is of this problem.
    pub fn is_of(&self, problem: &Problem) -> bool
        ensures { IsTrue result ↔ (self.now.edition.problem ≡ problem.now) }
    {
        self.pen.published().edition().problem().same(problem)
    }

    /// Ends the book, a shut writer's too. It takes no memory, and may wait for readers. What a
    /// reader calls afterwards may never return.
    pub fn end(self) {}
}
