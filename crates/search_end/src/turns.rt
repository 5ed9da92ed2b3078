//! What several workers found, in the stated order.
//!
//! A worker that takes a piece goes on deep first below it, and gives away only what comes behind
//! all that it keeps. So what it finds until it takes another one, in one turn, ascends, and what
//! is found in another turn comes all before it or all behind it. What one turn found is moved
//! whole, by its first choice, and the sort of all choices then finds them in order. The marks of
//! reports are a hint: others cost time and no answer.

ghost use Rattle.std.specs.Prelude.{◌≡◌, ◌≢◌, ℕ, length, IfOk, IsPermutation};
ghost use Rattle.std.specs.List.{flat_map};
ghost use Rattle.lemmas.specs.Lists.{Each, Ascends};
ghost use Rattle.solid_model.specs.Choices.{ChoicePrecedes};

use solid_model::{Choice, Memory, compare, sort_choices};
use std::alloc::Global;
use std::cmp::Ordering;

/// The mark of a report: how many choices were found with it and those before it, and the number of
/// the turn in which it was made.
#[derive(Clone, Copy, Debug)]
pub struct Mark {
    pub found: usize,
    pub turn: u32,
}

/// Choices that were found one after another, and the number of the turn that found them.
#[derive(Drop)]
struct Part {
    turn: u32,
    choices: Vec<Choice>,
}

/// Which of two choices comes first in the stated order. Of other blocks none does.
fn which_first(a: &Choice, b: &Choice) -> Ordering {
    if a.len() == b.len() {
        compare(a, b)
    } else {
        Ordering::Equal
    }
}

/// Which of two lists has the first choice that comes first. Of empty ones none has.
fn begins_first(a: &[Choice], b: &[Choice]) -> Ordering {
    match (a.first(), b.first()) {
        (Some(a), Some(b)) => which_first(a, b),
        _ => Ordering::Equal,
    }
}

/// The number of the first mark from this one on with more choices than these.
fn mark_behind(marks: &[Mark], from: usize, found: usize) -> usize {
    for at in from..marks.len() {
        if marks[at].found > found {
            return at;
        }
    }
    marks.len()
}

/// The turn of the mark of this number; 0 where there is none.
fn turn_at(marks: &[Mark], at: usize) -> u32 {
    match marks.get(at) {
        Some(mark) => mark.turn,
        None => 0,
    }
}

/// The choices as the reports found them, one behind another. An `Err` is out of memory.
fn parts_of(alloc: Global, choices: Vec<Choice>, marks: &[Mark]) -> Result<Vec<Part>, Memory>
    ensures { IfOk result (λ parts.
        flat_map (λ part. part.choices.items) parts.items ≡ choices.items) }
{
    let mut parts = Vec::new(alloc);
    let mut part = Vec::new(alloc);
    let mut mark = 0;
    let mut found: usize = 0;
    let mut left = choices.into_iter();
    while let Some(choice) = left.next() {
        let next = mark_behind(marks, mark, found);
        if next != mark {
            let turn = turn_at(marks, mark);
            parts.push(Part {
                turn,
                choices: part,
            })?;
            part = Vec::new(alloc);
            mark = next;
        }
        part.push(choice)?;
        found = found.saturating_add(1);
    }
    let turn = turn_at(marks, mark);
    parts.push(Part {
        turn,
        choices: part,
    })?;
    Ok(parts)
}

/// What each turn found, of parts that stand turn by turn. An `Err` is out of memory.
fn turns_of(alloc: Global, parts: Vec<Part>) -> Result<Vec<Vec<Choice>>, Memory>
    ensures { IfOk result (λ turns. flat_map (λ turn. turn.items) turns.items
        ≡ flat_map (λ part. part.choices.items) parts.items) }
{
    let mut turns = Vec::new(alloc);
    let mut choices = Vec::new(alloc);
    let mut turn = 0;
    let mut left = parts.into_iter();
    while let Some(part) = left.next() {
        let mut part = part;
        if part.turn != turn {
            turns.push(choices)?;
            choices = Vec::new(alloc);
            turn = part.turn;
        }
        choices.append(&mut part.choices)?;
    }
    turns.push(choices)?;
    Ok(turns)
}

/// These lists, one behind another. An `Err` is out of memory.
fn joined(alloc: Global, lists: Vec<Vec<Choice>>) -> Result<Vec<Choice>, Memory>
    ensures { IfOk result (λ all. all.items ≡ flat_map (λ list. list.items) lists.items) }
{
    let mut all = Vec::new(alloc);
    let mut left = lists.into_iter();
    while let Some(list) = left.next() {
        let mut list = list;
        all.append(&mut list)?;
    }
    Ok(all)
}

/// These choices turn by turn, by the first choice of each. An `Err` is out of memory.
fn near_order(alloc: Global, choices: Vec<Choice>, marks: &[Mark]) -> Result<Vec<Choice>, Memory>
    ensures { IfOk result (λ near. IsPermutation choices.items near.items) }
{
    let mut parts = parts_of(alloc, choices, marks)?;
    parts.sort_by_key(|part| part.turn)?;
    let mut turns = turns_of(alloc, parts)?;
    turns.sort_unstable_by(|a, b| begins_first(a, b));
    let near = joined(alloc, turns)?;
    Ok(near)
}

/// Different choices of the same blocks, in the stated order, which were found by reports that are
/// marked so. An `Err` is out of memory.
pub fn in_order(alloc: Global, choices: Vec<Choice>, marks: &[Mark]) -> Result<Vec<Choice>, Memory>
    requires lengths { (n : ℕ) × Each (λ choice. length choice ≡ n) choices.items }
    requires once { Ascends ◌≢◌ choices.items }
    ensures permutation { IfOk result (λ list. IsPermutation choices.items list.items) }
    ensures ordered { IfOk result (λ list. Ascends ChoicePrecedes list.items) }
{
    let mut list = near_order(alloc, choices, marks)?;
    sort_choices(&mut list);
    Ok(list)
}
