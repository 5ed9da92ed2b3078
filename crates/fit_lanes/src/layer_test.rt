//! The test of one layer that is asked for.

ghost use Rattle.std.specs.Prelude.{◌≡◌, ◌↔◌, IsTrue, IfOk, IfSome};
ghost use Rattle.fit_lanes.specs.Tests.{ShowsIn, layers_asked};
ghost use Rattle.lemmas.specs.Lists.{Each};

use crate::cuts::kept_depths;
use crate::view_test::ViewTest;
use cell_rows::BlockRows;
use further_views::AskedView;
use six_views::shows;
use solid_model::{Choice, Memory, Problem};
use std::alloc::Global;
use std::marker::Model;

/// How many layers are tested fast: each takes memory that grows with its view's grid. The others
/// are tested without.
const FAST_TESTS: usize = 64;

/// A layer that is asked for, with a fast test of it if there is one. Contracts see the problem and
/// the layer with its runs.
#[derive(Debug, Drop)]
pub struct LayerTest<'a> {
    problem: &'a Problem,
    asked: &'a AskedView,
    fast: Option<ViewTest<'a>>,
}

impl<'a> Model for LayerTest<'a> {
    ghost use Rattle.std.specs.Prelude.{◌≡◌, IfSome};
    ghost use Rattle.fit_lanes.specs.Tests.{LayerAsked};

    ghost Value = { LayerAsked };

    ghost view = { λ s. record { problem = s.problem.now; asked = s.asked.now } };

    ghost invariant = { λ s. IfSome s.fast (λ test. test
        ≡ record { problem = s.problem.now; asked = s.asked.now }) };
}

/// The fast test of a layer; none where its cut leaves nothing of any solid. An `Err` is out of
/// memory.
fn fast_test<'a>(
    alloc: Global,
    problem: &'a Problem,
    rows: &BlockRows<'_>,
    asked: &'a AskedView,
) -> Result<Option<ViewTest<'a>>, Memory>
    requires { rows.now ≡ problem.now.blocks }
    ensures { IfOk result (λ fast. IfSome fast (λ test. test
        ≡ record { problem = problem.now; asked = asked.now })) }
{
    let Some(cut) = asked.layer.cut else {
        let test = ViewTest::of(alloc, problem, rows, asked, None)?;
        return Ok(Some(test));
    };
    let Some(kept) = kept_depths(problem.grid(), asked.layer, cut) else {
        return Ok(None);
    };
    let test = ViewTest::of(alloc, problem, rows, asked, Some(kept))?;
    Ok(Some(test))
}

impl<'a> LayerTest<'a> {
    ghost use Rattle.std.specs.Prelude.{◌≡◌, IfOk};

    /// The test of a layer, a fast one if asked for. An `Err` is out of memory.
    pub fn of(
        alloc: Global,
        problem: &'a Problem,
        rows: &BlockRows<'_>,
        asked: &'a AskedView,
        fast: bool,
    ) -> Result<LayerTest<'a>, Memory>
        requires { rows.now ≡ problem.now.blocks }
        ensures { IfOk result (λ test. test
            ≡ record { problem = problem.now; asked = asked.now }) }
    {
        let fast = if fast {
            fast_test(alloc, problem, rows, asked)?
        } else {
            None
        };
        Ok(LayerTest {
            problem,
            asked,
            fast,
        })
    }
}

impl LayerTest<'_> {
    ghost use Rattle.std.specs.Prelude.{◌≡◌, ◌↔◌, IsTrue, IfOk};
    ghost use Rattle.fit_lanes.specs.Tests.{ShowsIn};

    /// Whether the solid that a choice fills shows the layer. An `Err` is out of memory.
    fn shows(&mut self, alloc: Global, choice: &Choice) -> Result<bool, Memory>
        ensures same { self.new ≡ self.old }
        ensures told { IfOk result (λ yes. IsTrue yes ↔ ShowsIn self.old choice.now) }
    {
        let (problem, asked) = (self.problem, self.asked);
        let grid = problem.grid();
        grid.known();
        if let Some(test) = &mut self.fast {
            return test.shows(alloc, choice);
        }
        let cells = problem.cells(alloc, choice)?;
        shows(alloc, grid, asked.layer, &cells, &asked.lines)
    }
}

/// The tests of layers.
pub fn tests_of<'a>(
    alloc: Global,
    problem: &'a Problem,
    rows: &BlockRows<'_>,
    further: &'a [AskedView],
) -> Result<Vec<LayerTest<'a>>, Memory>
    requires { rows.now ≡ problem.now.blocks }
    ensures { IfOk result (λ tests.
        tests.items ≡ layers_asked problem.now further.now) }
{
    let mut tests = Vec::with_capacity(alloc, further.len())?;
    for asked in further {
        let fast = tests.len() < FAST_TESTS;
        tests.push(LayerTest::of(alloc, problem, rows, asked, fast)?)?;
    }
    Ok(tests)
}

/// Whether the solid that a choice fills shows all these layers. An `Err` is out of memory.
pub fn show_all(alloc: Global, tests: &mut [LayerTest<'_>], choice: &Choice) -> Result<bool, Memory>
    ensures same { tests.new ≡ tests.old }
    ensures told { IfOk result (λ yes. IsTrue yes
        ↔ Each (λ layer. ShowsIn layer choice.now) tests.old) }
{
    for test in tests.iter_mut() {
        if !test.shows(alloc, choice)? {
            return Ok(false);
        }
    }
    Ok(true)
}
