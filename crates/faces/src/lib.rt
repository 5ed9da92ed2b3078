//! The faces of a solid that is a union of grid cells.
//!
//! A plane is a table of at most 63 rows of 63 bits, the most that a grid has. So the calls take
//! `CellRows`, which no larger box has, in place of a condition on each of them.
#![tactic(auto)]

mod border;
mod border_side;
mod counted;
mod ends;
mod grid_points;
mod groups;
mod joined;
mod loops;
mod plane;
mod plane_faces;
mod plane_loop;
mod point;
mod solid;
mod space;
mod squares;
mod way;

pub use counted::counted_faces;
pub use joined::square_components;
pub use loops::plane_loops;
pub use plane::plane_squares;
pub use plane_faces::faces_of_squares;
pub use plane_loop::PlaneLoop;
pub use point::Point;
pub use solid::{faces_of_rows, faces_of_solid};
pub use squares::Squares;
