//! Boundary rectangles, by number.

use solid_model::Out;

/// A face of a grid, seen from one of its sides. It is told by that outward side, the number of its
/// plane, and those of its least corner along the two axes of the plane: the one that runs to the
/// right for whoever looks at it from outside, and the one that runs upwards. Numbers are those of
/// the grid's coordinates, counted from 0.
#[derive(Clone, Copy, Debug, PartialEq, Eq)]
pub struct Rectangle {
    pub out: Out,
    pub at: i64,
    pub right: i64,
    pub up: i64,
}
