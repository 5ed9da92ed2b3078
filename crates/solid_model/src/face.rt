//! The faces of a solid.

use crate::cell::{Axis, Cell};
use crate::frame::Direction;
use std::marker::Model;

/// The outward side of a face: the direction from the full cells to the empty ones.
#[derive(Clone, Copy, Debug, PartialEq, Eq)]
pub enum Out {
    MinusX,
    PlusX,
    MinusY,
    PlusY,
    MinusZ,
    PlusZ,
}

impl Out {
    ghost use Rattle.std.specs.Prelude.{◌≡◌};
    ghost use Rattle.solid_model.specs.Faces.{outward, right_axis, up_axis};

    /// All outward sides, in order.
    pub const ALL: [Out; 6] = [
        Out::MinusX,
        Out::PlusX,
        Out::MinusY,
        Out::PlusY,
        Out::MinusZ,
        Out::PlusZ,
    ];

    /// The direction that leads outwards.
    pub fn direction(self) -> Direction
        ensures { result ≡ outward self }
    {
        match self {
            Out::MinusX => Direction::backward(Axis::X),
            Out::PlusX => Direction::forward(Axis::X),
            Out::MinusY => Direction::backward(Axis::Y),
            Out::PlusY => Direction::forward(Axis::Y),
            Out::MinusZ => Direction::backward(Axis::Z),
            Out::PlusZ => Direction::forward(Axis::Z),
        }
    }

    /// The axis that runs to the right, for whoever looks at a plane from outside.
    pub fn right(self) -> Axis
        ensures { result ≡ right_axis self }
    {
        match self {
            Out::PlusX | Out::MinusZ => Axis::Y,
            Out::PlusY | Out::MinusX => Axis::Z,
            Out::PlusZ | Out::MinusY => Axis::X,
        }
    }

    /// The axis that runs upwards.
    pub fn up(self) -> Axis
        ensures { result ≡ up_axis self }
    {
        match self {
            Out::PlusX | Out::MinusY => Axis::Z,
            Out::PlusY | Out::MinusZ => Axis::X,
            Out::PlusZ | Out::MinusX => Axis::Y,
        }
    }
}

/// A loop of a face: the points where it turns, the least one first, with the face on the left of
/// whoever goes along it and looks from outside. A `Cell` stands for the point with its
/// coordinates.
#[derive(Debug, Drop)]
pub struct Loop {
    pub corners: Vec<Cell>,
}

impl Model for Loop {
    ghost use Rattle.std.specs.Prelude.{List};
    ghost use Rattle.solid_model.specs.declared.cell.Cell.{Cell};

    ghost Value = { List Cell };

    ghost view = { λ s. s.corners.items };
}

/// A face: its outward side, the coordinate of its plane along the axis of that side, and its
/// loops, by their first corners.
#[derive(Debug, Drop)]
pub struct Face {
    pub out: Out,
    pub at: i64,
    pub loops: Vec<Loop>,
}

impl Model for Face {
    ghost use Rattle.solid_model.specs.Faces.{FaceParts};

    ghost Value = { FaceParts };

    ghost view = { λ s. record { out = s.out; at = s.at; loops = s.loops.items } };
}
