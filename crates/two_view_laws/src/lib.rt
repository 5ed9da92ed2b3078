//! Laws of small drawings of which one view is missing: what their two views leave is computed by
//! the definitions, and is what trying all sets of cells found. No code: nothing stands on it.
#![tactic(auto)]

mod laws;

pub use laws::small_two_views;
