//! What is the same for all that work at a search.

use crate::monitor::Monitor;
use solid_model::{Limits, Problem};
use std::sync::{Arc, Wait};

/// Where a problem is searched within limits: the monitor where so many workers meet, and the gate
/// that they pass at their points.
#[derive(Drop)]
pub struct Workshop<'a, B: Wait + Drop, G> {
    pub problem: &'a Arc<Problem>,
    pub limits: Limits,
    pub monitor: &'a Monitor<B>,
    pub gate: &'a G,
    pub workers: u32,
}
