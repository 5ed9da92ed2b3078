//! Loops round squares of a plane.

use crate::point::Point;
use std::marker::Model;

/// A loop round squares: one of the squares, which lies on its left, and its corners, from the
/// first one on.
#[derive(Debug, Drop)]
pub struct PlaneLoop {
    pub square: Point,
    pub corners: Vec<Point>,
}

impl Model for PlaneLoop {
    ghost use Rattle.std.specs.Prelude.{map};
    ghost use Rattle.faces.specs.PlaneLoops.{PlaneLoop as LoopParts};
    ghost use Rattle.faces.specs.Points.{spot_of};

    ghost Value = { LoopParts };

    ghost view = { λ s. record {
      square = spot_of s.square;
      corners = map spot_of s.corners.items;
    } };
}
