//! The plain types of the project, the definitions of solids and their drawings, and the laws over
//! them.
//!
//! A proof sees what a value's type keeps only where a call on the value says it. A type's `known`
//! says it and does nothing: who needs no more of the value calls it for the proof alone.
#![tactic(auto)]

mod blocks;
mod cell;
mod choice;
mod choice_order;
mod decision;
mod drawing;
mod ended;
mod expansion;
mod face;
mod fault;
mod frame;
mod grid;
mod grid_places;
mod laws;
mod limits;
mod line;
mod line_id;
mod marks;
mod memory;
mod panels;
mod per_axis;
mod per_view;
mod prefix;
mod problem;
mod runs;
mod segment;
mod sorted;
mod volume;

pub use blocks::Blocks;
pub use cell::{Axis, Cell};
pub use choice::{Choice, copy_choices};
pub use choice_order::compare;
pub use decision::Decision;
pub use drawing::{Drawing, ViewLines};
pub use ended::{EndKind, Ended};
pub use expansion::Expansion;
pub use face::{Face, Loop, Out};
pub use fault::{Fault, Refused};
pub use frame::{Direction, Frame, View};
pub use grid::{Grid, same_coordinates};
pub use grid_places::{cell_in, number_on, place_of_cell};
pub use laws::{
    all_matching_choices_are_all_matching_solids, all_matching_solids_are_one_list, column_rule,
    each_axis_has_a_coordinate, each_segment_has_one_style, fillings_round_an_edge,
    lines_have_a_drawing, matching_is_seen_on_the_grid, matching_solids_are_constant_on_blocks,
    matching_solids_begin_at_zero, matching_solids_lie_in_the_grid, maximal_stretches,
    moved_drawings_begin_at_zero, one_drawing_of_a_grid, one_list_of_grid_coordinates,
    one_list_of_runs, one_numbering_of_components, one_stated_form,
    order_and_repeats_do_not_matter, quartered_cube, runs_are_maximal_stretches, small_drawings,
    small_orders, small_runs, small_sheet, small_tree, solids_are_ordered,
    solids_begin_where_their_views_do, solids_lie_within_their_views, the_tree_is_complete,
    views_are_seen_from_their_sides, views_begin_at_the_least_lines, volumes_count_unit_cells,
};
pub use limits::Limits;
pub use line::SheetLine;
pub use line_id::LineId;
pub use marks::{CellTest, FaceMap, Marks, MarksByAxis, Wire};
pub use memory::Memory;
pub use panels::{Panel, Panels};
pub use per_axis::PerAxis;
pub use per_view::PerView;
pub use prefix::Prefix;
pub use problem::Problem;
pub use runs::{Run, Runs};
pub use segment::{Segment, Style};
pub use sorted::sort_choices;
pub use volume::{cell_volume, chosen_volume};
