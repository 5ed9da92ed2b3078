//! What a layer's view draws of choices.

use crate::busy_points::{busy_points, first_busy};
use crate::points::{draw, first_line};
use crate::sights::sights;
use cell_rows::{BlockRows, RowSpans};
use further_views::Layer;
use six_views::sight_frame;
use solid_model::{Choice, Memory, Problem};
use std::alloc::Global;
use std::marker::Model;

/// The view of a layer on a problem's grid, whole or of the depths that a cut keeps, and what was
/// drawn of a choice last. Contracts see the problem, the layer and the bytes that are drawn.
#[derive(Debug, Drop)]
pub struct DrawnView<'a> {
    problem: &'a Problem,
    layer: Layer,
    kept: Option<u64>,
    width: usize,
    height: usize,
    sights: RowSpans,
    busy: Vec<usize>,
    first_right: usize,
    first_up: usize,
    columns: Vec<u64>,
    level: Vec<u8>,
    upright: Vec<u8>,
}

impl<'a> Model for DrawnView<'a> {
    ghost use Rattle.fit_lanes.specs.Drawn.{DrawnParts};
    ghost use Rattle.fit_lanes.specs.Kept.{AreBuffersOf};

    ghost Value = { DrawnParts };

    ghost view = { λ s. record {
      problem = s.problem.now;
      layer = s.layer;
      level = s.level.items;
      upright = s.upright.items;
    } };

    ghost invariant = { λ s. AreBuffersOf s.problem.now s.layer s.kept s.width s.height s.sights
        s.busy.items s.first_right s.first_up s.columns.items s.level.items s.upright.items };
}

impl<'a> DrawnView<'a> {
    ghost use Rattle.std.specs.Prelude.{◌≡◌, IfOk};
    ghost use Rattle.fit_lanes.specs.Cuts.{LayerKeeps};
    ghost use Rattle.fit_lanes.specs.Drawn.{IsViewOf};
    ghost use Rattle.solid_model.specs.Panels.{coordinates_of};

    /// The view of a layer, of which no choice is drawn yet. An `Err` is out of memory.
    pub fn of(
        alloc: Global,
        problem: &'a Problem,
        rows: &BlockRows<'_>,
        layer: Layer,
        kept: Option<u64>,
    ) -> Result<DrawnView<'a>, Memory>
        requires rows { rows.now ≡ problem.now.blocks }
        requires kept { LayerKeeps (coordinates_of problem.now.grid) layer kept }
        ensures { IfOk result (IsViewOf problem.now layer) }
    {
        let grid = problem.grid();
        grid.known();
        let sizes = grid.sizes();
        let frame = sight_frame(layer);
        let (width, height) = (sizes.along(frame.right.axis), sizes.along(frame.up.axis));
        let points = (height + 1) * (width + 1);
        let sights = sights(alloc, rows, sizes, layer, kept)?;
        let busy = busy_points(alloc, &sights, width + 1)?;
        let first_right = first_busy(busy.as_slice(), width + 1, true);
        let first_up = first_busy(busy.as_slice(), width + 1, false);
        let columns = vec![in alloc; 0; sights.count()]?;
        let level = vec![in alloc; 0; points]?;
        let upright = vec![in alloc; 0; points]?;
        Ok(DrawnView {
            problem,
            layer,
            kept,
            width,
            height,
            sights,
            busy,
            first_right,
            first_up,
            columns,
            level,
            upright,
        })
    }
}

impl DrawnView<'_> {
    ghost use Rattle.std.specs.Prelude.{◌≡◌, MatchOption};
    ghost use Rattle.fit_lanes.specs.Drawn.{bytes_along, DrawsChoice, DrawsNoLine, IsFirstLine, IsViewOf};
    ghost use Rattle.fit_lanes.specs.Sights.{width, height};
    ghost use Rattle.solid_model.specs.GridBox.{grid_sizes};

    /// Draws what is seen of the solid that a choice fills.
    pub fn draw(&mut self, choice: &Choice)
        ensures same { IsViewOf self.old.problem self.old.layer self.new }
        ensures drawn { DrawsChoice self.new choice.now }
    {
        let columns = self.columns.as_mut_slice();
        self.sights.fill(choice, columns);
        let (columns, points) = (self.columns.as_slice(), self.busy.as_slice());
        let stride = self.width + 1;
        let level = self.level.as_mut_slice();
        draw(self.kept, columns, stride, false, points, level);
        let upright = self.upright.as_mut_slice();
        draw(self.kept, columns, stride, true, points, upright);
    }

    /// The bytes of the level, or the upright, segments that are drawn.
    pub fn bytes(&self, upright: bool) -> &[u8]
        ensures { result.now ≡ bytes_along upright self.now }
    {
        if upright {
            self.upright.as_slice()
        } else {
            self.level.as_slice()
        }
    }

    /// The first level, or upright, line of the grid on which something is drawn.
    pub fn first_line(&self, upright: bool) -> Option<usize>
        ensures { MatchOption result
            (DrawsNoLine (width self.now.layer (grid_sizes self.now.problem.grid))
            (height self.now.layer (grid_sizes self.now.problem.grid)) upright
            (bytes_along upright self.now))
            (IsFirstLine (width self.now.layer (grid_sizes self.now.problem.grid))
            (height self.now.layer (grid_sizes self.now.problem.grid)) upright
            (bytes_along upright self.now)) }
    {
        let from = if upright {
            self.first_right
        } else {
            self.first_up
        };
        first_line(self.bytes(upright), self.width, self.height, upright, from)
    }
}
