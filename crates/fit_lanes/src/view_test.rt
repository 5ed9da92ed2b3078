//! The fast test of one layer.

ghost use Rattle.std.specs.Prelude.{◌≡◌, IfOk};

use crate::drawn_view::DrawnView;
use crate::wanted_view::WantedView;
use cell_rows::BlockRows;
use further_views::AskedView;
use solid_model::{Choice, Memory, Problem};
use std::alloc::Global;
use std::marker::Model;

/// A layer that is asked for, with the buffers in which choices are drawn, and what is wanted of
/// them. Contracts see the problem and the layer with its runs.
#[derive(Debug, Drop)]
pub struct ViewTest<'a> {
    view: DrawnView<'a>,
    wanted: WantedView<'a>,
}

impl<'a> Model for ViewTest<'a> {
    ghost use Rattle.fit_lanes.specs.Drawn.{IsViewOf};
    ghost use Rattle.fit_lanes.specs.Tests.{AreRunsAsked, LayerAsked};

    ghost Value = { LayerAsked };

    ghost view = { λ s. s.wanted.asked };

    ghost invariant = { λ s. IsViewOf s.wanted.asked.problem s.wanted.asked.asked.layer s.view
        × AreRunsAsked s.wanted.asked };
}

impl<'a> ViewTest<'a> {
    ghost use Rattle.std.specs.Prelude.{◌≡◌, IfOk};
    ghost use Rattle.fit_lanes.specs.Cuts.{LayerKeeps};
    ghost use Rattle.solid_model.specs.Panels.{coordinates_of};

    /// The test of a layer, whole or of the depths that its cut keeps. An `Err` is out of memory.
    pub fn of(
        alloc: Global,
        problem: &'a Problem,
        rows: &BlockRows<'_>,
        asked: &'a AskedView,
        kept: Option<u64>,
    ) -> Result<ViewTest<'a>, Memory>
        requires rows { rows.now ≡ problem.now.blocks }
        requires kept { LayerKeeps (coordinates_of problem.now.grid) asked.now.layer kept }
        ensures { IfOk result (λ test. test
            ≡ record { problem = problem.now; asked = asked.now }) }
    {
        asked.known();
        let view = DrawnView::of(alloc, problem, rows, asked.layer, kept)?;
        let wanted = WantedView::at(alloc, problem, asked, 0, 0)?;
        Ok(ViewTest { view, wanted })
    }
}

impl ViewTest<'_> {
    ghost use Rattle.std.specs.Prelude.{◌≡◌, IfOk};
    ghost use Rattle.fit_lanes.specs.Tests.{TellsLayer};

    /// Whether the solid that a choice fills shows the layer. An `Err` is out of memory; none comes
    /// where the last choice was drawn from the same place on.
    pub fn shows(&mut self, alloc: Global, choice: &Choice) -> Result<bool, Memory>
        ensures same { self.new ≡ self.old }
        ensures told { IfOk result (λ yes. TellsLayer self.old choice.now yes) }
    {
        self.view.draw(choice);
        let Some(right) = self.view.first_line(true) else {
            return Ok(false);
        };
        let Some(up) = self.view.first_line(false) else {
            return Ok(false);
        };
        let (level, upright) = (self.view.bytes(false), self.view.bytes(true));
        self.wanted.is_told_at(alloc, right, up, level, upright)
    }
}
