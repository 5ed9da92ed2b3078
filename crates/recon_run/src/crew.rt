//! Who works at a search.
//!
//! The runtime, how many, and the gate are one value, whose type keeps that there are 1 to 64.

ghost use Rattle.words.specs.Jobs.{AreWorkers};

/// So many workers, by what they run, and the gate that they pass at their points.
#[derive(Drop)]
pub struct Crew<'a, R, G> {
    pub rt: &'a R,
    pub workers: u32,
    pub gate: &'a G,
    ghost few: { AreWorkers workers },
}
