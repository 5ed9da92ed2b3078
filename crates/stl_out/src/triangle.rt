//! Triangles of a solid's boundary.

use solid_model::{Cell, Out};

/// A triangle of a solid's boundary: its outward side, and its corners, counterclockwise as seen
/// from outside. A `Cell` stands for the point with its coordinates.
#[derive(Clone, Copy, Debug, PartialEq, Eq)]
pub struct Triangle {
    pub out: Out,
    pub a: Cell,
    pub b: Cell,
    pub c: Cell,
}
