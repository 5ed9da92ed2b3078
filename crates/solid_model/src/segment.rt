//! Unit segments of the views, and their styles.

use crate::frame::View;

/// How a unit segment of a view is drawn.
#[derive(Clone, Copy, Debug, PartialEq, Eq)]
pub enum Style {
    /// Nothing is drawn.
    Blank,
    /// A hidden edge.
    Dashed,
    /// A visible edge.
    Solid,
}

/// A unit segment of a view. It begins at the point (right, up) of the view and is one unit long:
/// to the right, or upwards where it is upright.
#[derive(Clone, Copy, Debug, PartialEq, Eq)]
pub struct Segment {
    pub view: View,
    pub upright: bool,
    pub right: i64,
    pub up: i64,
}
