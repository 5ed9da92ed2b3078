//! The boundary of a solid as triangles, and as an ASCII STL text, which viewers, slicers and CAD
//! programs open.
//!
//! The boundary squares of a plane come from `faces`, which finds them for the faces of a solid; so
//! the crate stands on that one.
#![tactic(auto)]

mod corner_parts;
mod halves;
mod laws;
mod rectangle;
mod rectangle_corners;
mod surface;
mod text;
mod triangle;
mod walk;
mod write;

pub use laws::{
    one_list_of_rectangles, one_stl_of_a_solid, rectangles_cover_the_boundary, small_stl,
    stl_texts_close_and_cover, triangles_close,
};
pub use rectangle::Rectangle;
pub use surface::triangles;
pub use triangle::Triangle;
pub use write::write_stl;
