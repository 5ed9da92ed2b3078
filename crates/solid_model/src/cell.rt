//! The axes of space, and its unit cells.

/// An axis of space.
#[derive(Clone, Copy, Debug, PartialEq, Eq)]
pub enum Axis {
    X,
    Y,
    Z,
}

/// The unit cell that fills the cube from (x, y, z) to (x + 1, y + 1, z + 1); also the whole point
/// (x, y, z).
#[derive(Clone, Copy, Debug, PartialEq, Eq)]
pub struct Cell {
    pub x: i64,
    pub y: i64,
    pub z: i64,
}
