//! Sides of a border.

use crate::point::Point;
use crate::way::Way;

/// A side of the border of squares, as it is gone along: the point where it ends, and the way that
/// leads there.
#[derive(Clone, Copy, Debug)]
pub struct BorderSide {
    pub end: Point,
    pub way: Way,
}
