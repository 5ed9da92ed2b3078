//! What is asked of an input.

ghost use Rattle.std.specs.Prelude.{◌≤◌};

use crate::export::Export;
use solid_model::Limits;

/// All solids, after pages of them or without.
#[derive(Clone, Copy)]
pub struct AllSolids {
    pub limits: Limits,
    pub pages: bool,
}

/// One of all solids, by its number, counted from 1, as it is exported.
#[derive(Clone, Copy)]
pub struct OneSolid {
    pub export: Export,
    pub which: u32,
    pub limits: Limits,
    ghost some: { 1 ≤ which },
}

/// What is asked of an input that has no fault.
#[derive(Clone, Copy)]
pub enum Question {
    /// Its solids, all of them.
    AllSolids(AllSolids),
    /// One of its solids.
    OneSolid(OneSolid),
    /// A log that shows that a search for its solids, within limits, was complete.
    Log(Limits),
    /// Whether what stands behind its drawing is such a log.
    Check,
    /// Where its blocks are.
    Blocks,
    /// What readers of the growing list of its solids, which are searched for within limits, tell as
    /// they are asked behind its drawing.
    Session(Limits),
}
