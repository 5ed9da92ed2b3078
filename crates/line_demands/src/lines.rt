//! The lines that can't be met, in the order in which they were found.
//!
//! More decisions never mend a line; so the broken lines, in the order in which they were found,
//! are the trail, and a length for each decision is all that is kept to take it back. They are
//! listed on past the first: a state that stopped there would need no marks, but would have to look
//! for the least one at each question.

ghost use Rattle.std.specs.Prelude.{◌≡◌, ◌↔◌, ◌<◌, ◌≤◌, ◌+◌, ◌++◌, ◌∷◌, [], ◌==◌, ℕ, true, false, length, take, All, slice_index_or, slice_set, vec_capacity, IsTrue};
ghost use Rattle.line_demands.specs.Lines.{AreMarked, IsMetBy, AreFreeBeside, AreBeside, BeginsWith, AreTried, AreFreeAmong, IsLeast, lesser_of};
ghost use Rattle.line_demands.specs.Spans.{AreWithin};
ghost use Rattle.lemmas.specs.Counts.{times_listed};

use crate::free::are_free;
use crate::known::{KnownColumn, can_draw, meets};
use crate::places::with_place;
use crate::steps::Steps;
use solid_model::{LineId, Style};
use std::sync::ledger::Ledger;

/// A line, the numbers of the columns after it and before it, and its style.
#[derive(Clone, Copy, Debug)]
pub struct Beside {
    pub line: LineId,
    pub after: u32,
    pub before: u32,
    pub style: Style,
}

/// Some columns that agree with what is known of them draw the line's style.
pub fn is_met<L: Ledger>(columns: &[KnownColumn], beside: Beside, steps: &mut Steps<L>) -> bool
    requires within { AreWithin columns.now }
    requires after { beside.after < length columns.now }
    requires before { beside.before < length columns.now }
    ensures met { IsTrue result ↔ IsMetBy columns.now beside }
    ensures steps { steps.new ≡ steps.old + 1 }
{
    let after = columns[beside.after as usize];
    let before = columns[beside.before as usize];
    meets(
        after.full,
        after.may,
        before.full,
        before.may,
        beside.style,
        steps,
    )
}

/// A line that can be met may force something: not each undecided cell of the columns beside it is
/// known to be free.
fn may_force(columns: &[KnownColumn], beside: Beside) -> bool
    requires within { AreWithin columns.now }
    requires after { beside.after < length columns.now }
    requires before { beside.before < length columns.now }
    requires met { IsMetBy columns.now beside }
    ensures { result ≡ false → AreFreeBeside columns.now beside }
{
    let after = columns[beside.after as usize];
    let before = columns[beside.before as usize];
    !are_free(beside.style, after, before)
}

/// Marks a line as one that can't be met.
pub fn break_line(met: &mut [bool], broken: &mut Vec<u32>, line: u32)
    requires marked { AreMarked met.old broken.old.items }
    requires there { line < length met.old }
    requires met { slice_index_or met.old line false ≡ true }
    requires room { length met.old ≤ vec_capacity broken.old }
    ensures marked { AreMarked met.new broken.new.items }
    ensures broken { broken.new.items ≡ broken.old.items ++ line ∷ [] }
    ensures room { vec_capacity broken.new ≡ vec_capacity broken.old }
{
    met[line as usize] = false;
    broken.push_reserved(line);
}

/// Marks all but the first ones again as lines that can be met.
pub fn mend_lines(met: &mut [bool], broken: &mut Vec<u32>, height: usize)
    requires marked { AreMarked met.old broken.old.items }
    ensures marked { AreMarked met.new broken.new.items }
    ensures broken { broken.new.items ≡ take height broken.old.items }
    ensures room { vec_capacity broken.new ≡ vec_capacity broken.old }
{
    while broken.len() > height {
        if let Some(line) = broken.pop() {
            met[line as usize] = true;
        }
    }
}

/// Tries a line, and marks it if it can't be met. False: the line forces nothing, or can't be met.
fn try_line<L: Ledger>(
    columns: &[KnownColumn],
    sides: &[Beside],
    line: u32,
    met: &mut [bool],
    broken: &mut Vec<u32>,
    steps: &mut Steps<L>,
) -> bool
    requires within { AreWithin columns.now }
    requires sides { AreBeside (length columns.now) sides.now }
    requires there { line < length sides.now }
    requires count { length met.old ≡ length sides.now }
    requires marked { AreMarked met.old broken.old.items }
    requires room { length met.old ≤ vec_capacity broken.old }
    ensures marked { AreMarked met.new broken.new.items }
    ensures room { vec_capacity broken.new ≡ vec_capacity broken.old }
    ensures begins { BeginsWith broken.old.items broken.new.items }
    ensures others { (i : ℕ) → (line == i) ≡ false
        → times_listed i broken.new.items ≡ times_listed i broken.old.items }
    ensures tried { (d : Beside) → (times_listed line broken.new.items ≡ 0)
        ↔ ((times_listed line broken.old.items ≡ 0)
        × IsMetBy columns.now (slice_index_or sides.now line d)) }
    ensures free { result ≡ false → (d : Beside) → times_listed line broken.new.items ≡ 0
        → AreFreeBeside columns.now (slice_index_or sides.now line d) }
    ensures steps { steps.new ≤ steps.old + 1 }
{
    if is_met(columns, sides[line as usize], steps) {
        return may_force(columns, sides[line as usize]);
    }
    if met[line as usize] {
        break_line(met, broken, line);
    }
    false
}

/// Tries lines, and marks those that can't be met. The answer has a bit for each place of a line
/// that may force something: the others that can be met force nothing.
pub fn try_lines<L: Ledger>(
    columns: &[KnownColumn],
    sides: &[Beside],
    lines: &[u32],
    met: &mut [bool],
    broken: &mut Vec<u32>,
    steps: &mut Steps<L>,
) -> u64
    requires within { AreWithin columns.now }
    requires sides { AreBeside (length columns.now) sides.now }
    requires there { All (λ i. i < length sides.now) lines.now }
    requires count { length met.old ≡ length sides.now }
    requires marked { AreMarked met.old broken.old.items }
    requires room { length met.old ≤ vec_capacity broken.old }
    ensures marked { AreMarked met.new broken.new.items }
    ensures room { vec_capacity broken.new ≡ vec_capacity broken.old }
    ensures tried { AreTried columns.now sides.now lines.now broken.old.items broken.new.items }
    ensures free { AreFreeAmong columns.now sides.now lines.now (length lines.now) broken.new.items
        result }
    ensures steps { steps.new ≤ steps.old + length lines.now }
{
    let mut doubts = 0;
    for place in 0..lines.len() {
        let doubted = try_line(columns, sides, lines[place], met, broken, steps);
        doubts = with_place(doubts, place, doubted);
    }
    doubts
}

/// Some columns that agree with what is known of them draw the line's style.
pub fn can_be_met(columns: &[KnownColumn], beside: Beside) -> bool
    requires within { AreWithin columns.now }
    requires after { beside.after < length columns.now }
    requires before { beside.before < length columns.now }
    ensures { IsTrue result ↔ IsMetBy columns.now beside }
{
    let after = columns[beside.after as usize];
    let before = columns[beside.before as usize];
    can_draw(beside.style, after, before)
}

/// The lesser of two numbers, of which the first may be none.
fn lesser(least: Option<u32>, number: u32) -> u32
    ensures { result ≡ lesser_of least number }
{
    match least {
        Some(other) => { if number < other { number } else { other } }
        None => number,
    }
}

/// The least of some numbers, if there are any.
pub fn least(numbers: &[u32]) -> Option<u32>
    ensures { IsLeast numbers.now result }
{
    let mut least = None;
    for number in numbers {
        least = Some(lesser(least, *number));
    }
    least
}
