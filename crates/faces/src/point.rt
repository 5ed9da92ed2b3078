//! Points of a plane.

/// The whole point (u, v) of a plane; also the unit square from (u, v) to (u + 1, v + 1).
#[derive(Clone, Copy, Debug)]
pub struct Point {
    pub u: usize,
    pub v: usize,
}
