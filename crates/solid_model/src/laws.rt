//! The laws over the definitions. Each is the contract of a function that does nothing.

mod blocks;
mod components;
mod drawings;
mod grid;
mod matching;
mod orders;
mod places;
mod runs;
mod sheets;
mod stretches;
mod tree;
mod volumes;

pub use blocks::{
    all_matching_choices_are_all_matching_solids, matching_solids_are_constant_on_blocks,
};
pub use components::one_numbering_of_components;
pub use drawings::{
    column_rule, each_segment_has_one_style, fillings_round_an_edge,
    order_and_repeats_do_not_matter, quartered_cube, small_drawings,
    views_are_seen_from_their_sides,
};
pub use grid::{
    each_axis_has_a_coordinate, matching_is_seen_on_the_grid, matching_solids_lie_in_the_grid,
    one_drawing_of_a_grid, one_list_of_grid_coordinates,
};
pub use matching::{fewer_views_allow_more, three_views_are_matched_segment_by_segment};
pub use orders::{
    all_matching_solids_are_one_list, one_stated_form, small_orders, solids_are_ordered,
};
pub use places::{
    matching_solids_begin_at_zero, solids_begin_where_their_views_do, solids_lie_within_their_views,
};
pub use runs::{one_list_of_runs, runs_are_maximal_stretches, small_runs};
pub use sheets::{
    lines_have_a_drawing, moved_drawings_begin_at_zero, small_sheet, views_begin_at_the_least_lines,
};
pub use stretches::maximal_stretches;
pub use tree::{small_tree, the_tree_is_complete};
pub use volumes::volumes_count_unit_cells;
