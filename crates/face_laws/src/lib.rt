//! The laws of faces: what the definitions of the faces and loops of a solid lead to.
#![tactic(auto)]

mod laws;

pub use laws::{
    corners_are_grid_points, each_side_is_on_one_loop, faces_end_at_edges, faces_of_grid_cells,
    following_is_one_to_one, grid_rounds_are_unit_rounds, least_sides_end_at_corners,
    no_solid_lacks_faces, one_list_of_faces, small_faces,
};
