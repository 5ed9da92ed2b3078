//! The views, and how each stands in space.
//!
//! The names of the layers stand here, so that the texts of files and of faults have them from one
//! place.

ghost use Rattle.std.specs.Prelude.{◌≡◌};

use crate::cell::Axis;

/// A view of a drawing.
#[derive(Clone, Copy, Debug, PartialEq, Eq)]
pub enum View {
    /// Seen from the least y.
    Front,
    /// Seen from the greatest z.
    Top,
    /// The right side, seen from the greatest x.
    Side,
}

/// A direction along an axis: forward is that in which the axis' coordinate rises.
#[derive(Clone, Copy, Debug, PartialEq, Eq)]
pub struct Direction {
    pub axis: Axis,
    pub forward: bool,
}

/// How a view stands in space: which direction runs to the right, which upwards, and which away
/// from the viewer.
#[derive(Clone, Copy, Debug, PartialEq, Eq)]
pub struct Frame {
    pub right: Direction,
    pub up: Direction,
    pub away: Direction,
}

impl View {
    ghost use Rattle.solid_model.specs.Frames.{frame_of, layer_name};

    /// How the view stands in space: a third-angle view.
    pub fn frame(self) -> Frame
        ensures { result ≡ frame_of self }
    {
        let (right, up, away) = match self {
            View::Front => (Axis::X, Axis::Z, Direction::forward(Axis::Y)),
            View::Top => (Axis::X, Axis::Y, Direction::backward(Axis::Z)),
            View::Side => (Axis::Y, Axis::Z, Direction::backward(Axis::X)),
        };
        Frame {
            right: Direction::forward(right),
            up: Direction::forward(up),
            away,
        }
    }

    /// The name of the layer on which the view is drawn.
    pub fn layer(self) -> &'static str
        ensures { result.now ≡ layer_name self }
    {
        match self {
            View::Front => "FRONT",
            View::Top => "TOP",
            View::Side => "SIDE",
        }
    }
}

impl Frame {
    ghost use Rattle.solid_model.specs.Frames.{along, across};

    /// The direction in which the level, or the upright, segments of the view run.
    pub fn along(self, upright: bool) -> Direction
        ensures { result ≡ along self upright }
    {
        if upright { self.up } else { self.right }
    }

    /// The view's other direction, across those segments.
    pub fn across(self, upright: bool) -> Direction
        ensures { result ≡ across self upright }
    {
        if upright { self.right } else { self.up }
    }
}

impl Direction {
    ghost use Rattle.solid_model.specs.Frames.{forward, backward};

    /// Along the axis, as its coordinate rises.
    pub fn forward(axis: Axis) -> Direction
        ensures { result ≡ forward axis }
    {
        Direction {
            axis,
            forward: true,
        }
    }

    /// Along the axis, as its coordinate falls.
    pub fn backward(axis: Axis) -> Direction
        ensures { result ≡ backward axis }
    {
        Direction {
            axis,
            forward: false,
        }
    }
}
