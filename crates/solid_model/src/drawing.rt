//! Drawings, kept as runs.

use crate::frame::View;
use crate::runs::Runs;
use std::marker::Model;

/// The runs of a view. Level runs lie on a line by its up coordinate and go to the right; upright
/// ones lie on a line by its right coordinate and go upwards.
#[derive(Debug, Drop)]
pub struct ViewLines {
    pub level: Runs,
    pub upright: Runs,
}

impl Model for ViewLines {
    ghost use Rattle.solid_model.specs.Runs.{ViewRuns};

    ghost Value = { ViewRuns };

    ghost view = { λ s. record { level = s.level; upright = s.upright } };
}

impl ViewLines {
    ghost use Rattle.std.specs.Prelude.{◌≡◌};
    ghost use Rattle.solid_model.specs.Runs.{runs_along};

    /// The level or the upright runs.
    pub fn along(&self, upright: bool) -> &Runs
        ensures { result.now ≡ runs_along upright self.now }
    {
        if upright { &self.upright } else { &self.level }
    }
}

/// The drawing of three views, each shifted so that its least right and its least up coordinate are
/// 0. At most one view shows nothing, and no coordinate is above 2,000,000,000.
#[derive(Debug, Drop)]
pub struct Drawing {
    pub front: ViewLines,
    pub top: ViewLines,
    pub side: ViewLines,
}

impl Model for Drawing {
    ghost use Rattle.solid_model.specs.Runs.{DrawingRuns, IsDrawing, style_in};

    ghost Value = { DrawingRuns };

    ghost view = { λ s. record { front = s.front; top = s.top; side = s.side } };

    ghost invariant = { λ s. IsDrawing (style_in record {
      front = s.front;
      top = s.top;
      side = s.side;
    }) };
}

impl Drawing {
    ghost use Rattle.std.specs.Prelude.{◌≡◌};
    ghost use Rattle.solid_model.specs.Runs.{IsDrawing, style_in};
    ghost use Rattle.solid_model.specs.PerView.{of_view};

    /// A view of the drawing.
    pub fn view(&self, view: View) -> &ViewLines
        ensures same { result.now ≡ of_view view self.now }
        ensures kept { IsDrawing (style_in self.now) }
    {
        match view {
            View::Front => &self.front,
            View::Top => &self.top,
            View::Side => &self.side,
        }
    }
}
