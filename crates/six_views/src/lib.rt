//! What a solid shows beside the three main views: from the left, from the rear and from below, and
//! cut by a plane.
//!
//! A view from the opposite side is the main view itself, of the solid turned half round; a section
//! is the whole view of other grid cells. So what is known of the main views is used as it stands,
//! and `View` doesn't grow.
#![tactic(auto)]

mod fitting;
mod frames;
mod laws;
mod moved;
mod seen;

pub use fitting::{fits, shows};
pub use frames::sight_frame;
pub use further_views::{AskedView, Cut, Further, Layer, LayerLine, further_of};
pub use laws::{
    fitting_choices_fill_the_fitting_solids, opposite_views_are_views_of_the_turned_solid,
    small_further_sections, small_further_views, whole_views_are_moved_views,
    without_further_views_all_matching_solids_fit,
};
pub use moved::{are_moved, is_farther};
pub use seen::turned_places;
