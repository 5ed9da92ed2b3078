//! What the lines of a log say.

use solid_model::View;

/// Where a line of a grid is said to stand: its view, whether it is upright, its position's index
/// and its cell's. No grid need have it.
#[derive(Clone, Copy, Debug)]
pub struct LinePlace {
    pub view: View,
    pub upright: bool,
    pub at: u64,
    pub cell: u64,
}

/// What a line of a log's tree says.
#[derive(Clone, Copy, Debug)]
pub enum LogEntry {
    /// The line of the grid can't be met.
    Fail(LinePlace),
    /// Every block is decided, and every line of the grid can be met.
    Whole,
    /// The block has this value, as the line of the grid excludes the other one.
    Force(u64, bool, LinePlace),
    /// The block is full in the tree that follows, and empty in the one after that.
    Split(u64),
}
