//! What is sought by an input, and what stands behind its drawing.

ghost use Rattle.std.specs.Prelude.{◌≤◌, length};
ghost use Rattle.solid_model.specs.Limits.{most_text_bytes};

use further_views::Further;
use solid_model::Problem;

/// The problem of an input, and the further views and sections that its solids are to show.
#[derive(Drop)]
pub struct Sought {
    pub problem: Problem,
    pub further: Further,
}

/// What is sought by an input, and the bytes that stand behind its drawing.
#[derive(Drop)]
pub struct FoundProblem {
    pub sought: Sought,
    pub rest: Vec<u8>,
    ghost short: { length rest.items ≤ most_text_bytes },
}
