//! Choices of a problem's blocks of which those are kept that fit further views and sections.

ghost use Rattle.std.specs.Prelude.{◌≡◌, IfOk, List, Bool};

use crate::layer_test::{LayerTest, show_all, tests_of};
use cell_rows::BlockRows;
use further_views::Further;
use page_calls::Sieve;
use solid_model::{Choice, Memory, Problem};
use std::alloc::Global;
use std::marker::Model;

/// Tells which choices of a problem's blocks fit further views and sections: those whose solids do.
/// Its buffers are made once; so no choice that matches asks for memory where no view is cut.
/// Contracts see the problem and what is asked for.
#[derive(Debug, Drop)]
pub struct FurtherSieve<'a> {
    problem: &'a Problem,
    further: &'a Further,
    tests: Vec<LayerTest<'a>>,
}

impl<'a> Model for FurtherSieve<'a> {
    ghost use Rattle.std.specs.Prelude.{◌≡◌};
    ghost use Rattle.six_views.specs.Further.{SieveParts};
    ghost use Rattle.fit_lanes.specs.Tests.{layers_asked};

    ghost Value = { SieveParts };

    ghost view = { λ s. record { problem = s.problem.now; further = s.further.now } };

    ghost invariant = { λ s. s.tests.items ≡ layers_asked s.problem.now s.further.now };
}

impl<'a> FurtherSieve<'a> {
    ghost use Rattle.std.specs.Prelude.{◌≡◌, IfOk};

    /// The test of choices of a problem's blocks. An `Err` is out of memory.
    pub fn of(
        alloc: Global,
        problem: &'a Problem,
        further: &'a Further,
    ) -> Result<FurtherSieve<'a>, Memory>
        ensures { IfOk result (λ test. test
            ≡ record { problem = problem.now; further = further.now }) }
    {
        let rows = BlockRows::of(alloc, problem)?;
        let tests = tests_of(alloc, problem, &rows, further.as_slice())?;
        Ok(FurtherSieve {
            problem,
            further,
            tests,
        })
    }
}

impl<'a> Sieve for FurtherSieve<'a> {
    ghost use Rattle.six_views.specs.Further.{FitsChoice};

    ghost fits = { λ s choice. FitsChoice s.problem s.further choice };

    fn fits(&mut self, alloc: Global, choice: &Choice) -> Result<bool, Memory> {
        show_all(alloc, self.tests.as_mut_slice(), choice)
    }
}
