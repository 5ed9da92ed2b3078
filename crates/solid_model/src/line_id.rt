//! The lines of a grid, by their places.

use crate::frame::View;

/// A line of a grid: a grid segment of a view, which lies on the `at`-th coordinate across it and
/// is the `cell`-th along it, both counted from 0. A blank one is a line too.
#[derive(Clone, Copy, Debug, PartialEq, Eq)]
pub struct LineId {
    pub view: View,
    pub upright: bool,
    pub at: u8,
    pub cell: u8,
}
