//! What is left to be handed out at the end, page by page.
//!
//! What is left is what follows in the desk's list, where that begins with what was handed out, as
//! it does where that came out of the desk's own book; which is tried, choice by choice. Else each
//! choice that was found is looked up among those that were handed out.

ghost use Rattle.std.specs.Prelude.{◌≡◌, ◌≢◌, ◌≤◌, ◌↔◌, ◌++◌, [], Bool, ℕ, List, take, length, IsTrue, IfOk, OnOk, MatchResult};
ghost use Rattle.std.specs.List.{list_any};
ghost use Rattle.std.specs.Vec.Iter.{into_iter_items};
ghost use Rattle.lemmas.specs.Lists.{Ascends};
ghost use Rattle.lemmas.specs.Truth.{same_values};
ghost use Rattle.solid_model.specs.Blocks.{ProblemParts};
ghost use Rattle.solid_model.specs.Limits.{most_page_choices, most_solid_limit};
ghost use Rattle.search_end.specs.Answers.{new_ones};
ghost use Rattle.search_end.specs.Handed.{AreFewSolutions, BreaksOff, HandsOn};
ghost use Rattle.page_calls.specs.Pages.{CountsFaults};

use crate::handed::{Handed, PAGE};
use page_calls::{PageOut, RunFault};
use solid_model::{Choice, Memory, compare, copy_choices};
use std::alloc::Global;
use std::cmp::Ordering;
use std::vec::IntoIter;

/// Whether two choices are the same.
fn same_choice(a: &Choice, b: &Choice) -> bool
    ensures value { result ≡ same_values a.now b.now }
    ensures same { IsTrue result ↔ (a.now ≡ b.now) }
{
    if a.len() != b.len() {
        return false;
    }
    match compare(a, b) {
        Ordering::Equal => true,
        _ => false,
    }
}

/// Whether a choice is one of these.
fn is_among(choice: &Choice, choices: &[Choice]) -> bool
    ensures { result ≡ list_any (same_values choice.now) choices.now }
{
    for other in choices {
        if same_choice(choice, other) {
            return true;
        }
    }
    false
}

/// Whether a list begins with another one.
fn begins_with(choices: &[Choice], first: &[Choice]) -> bool
    ensures { IsTrue result → (rest : List (List Bool)) × (choices.now ≡ first.now ++ rest) }
{
    if choices.len() < first.len() {
        return false;
    }
    for at in 0..first.len() {
        if !same_choice(&choices[at], &first[at]) {
            return false;
        }
    }
    true
}

/// Copies of those that aren't among those that were handed out, which takes a look at each of
/// these for each. An `Err` is out of memory.
fn new_copies(alloc: Global, handed: &[Choice], found: &[Choice]) -> Result<Vec<Choice>, Memory>
    ensures { IfOk result (λ copies. copies.items ≡ new_ones handed.now found.now) }
{
    let mut copies = Vec::new(alloc);
    for choice in found {
        if !is_among(choice, handed) {
            copies.push(choice.try_clone()?)?;
        }
    }
    Ok(copies)
}

/// Copies of those that were found and not handed out. What was handed out of the desk's own book
/// is the beginning of what the desk has found, and then what follows is left. An `Err` is out of
/// memory.
fn all_left(alloc: Global, handed: &[Choice], found: &[Choice]) -> Result<Vec<Choice>, Memory>
    requires once { Ascends ◌≢◌ found.now }
    ensures { IfOk result (λ left. left.items ≡ new_ones handed.now found.now) }
{
    if begins_with(found, handed) {
        let left = copy_choices(alloc, &found[handed.len()..])?;
        return Ok(left);
    }
    new_copies(alloc, handed, found)
}

/// Copies of those that were found and not handed out, as many as there is room for. An `Err` is
/// out of memory.
pub fn left_over(
    alloc: Global,
    handed: &[Choice],
    found: &[Choice],
    room: usize,
) -> Result<Vec<Choice>, Memory>
    requires once { Ascends ◌≢◌ found.now }
    ensures { IfOk result (λ left. left.items ≡ take room (new_ones handed.now found.now)) }
{
    let mut left = all_left(alloc, handed, found)?;
    left.truncate(room);
    Ok(left)
}

/// The next page of what is left: as many choices as a page may have, or all if they are fewer. An
/// `Err` is out of memory.
fn next_page(alloc: Global, left: &mut IntoIter<Choice>) -> Result<Vec<Choice>, Memory>
    ensures parts { IfOk result (λ page.
        into_iter_items left.old ≡ page.items ++ into_iter_items left.new) }
    ensures few { IfOk result (λ page. length page.items ≤ most_page_choices) }
    ensures all { IfOk result (λ page. page.items ≡ [] → into_iter_items left.new ≡ []) }
{
    let mut page = Vec::new(alloc);
    for _ in 0..PAGE {
        let Some(choice) = left.next() else {
            return Ok(page);
        };
        page.push(choice)?;
    }
    Ok(page)
}

/// Hands out what is left, page by page. An `Err` is that of a page, or out of memory.
pub fn hand_rest<P: PageOut>(
    alloc: Global,
    pages: &mut P,
    handed: &mut Handed,
    left: Vec<Choice>,
) -> Result<(), RunFault>
    requires room { length (handed.old.choices ++ left.items) ≤ most_solid_limit }
    ensures choices { OnOk result (handed.new.choices ≡ handed.old.choices ++ left.items) }
    ensures out { MatchResult result
        (λ _. HandsOn (P.calls pages.old) handed.old (P.calls pages.new) handed.new)
        (λ _. (p : ProblemParts) → (most : ℕ)
        → AreFewSolutions p most (handed.old.choices ++ left.items)
        → BreaksOff p most (P.calls pages.old) handed.old (P.calls pages.new)) }
    ensures faults { CountsFaults (P.faults pages.old) (P.faults pages.new) result
        RunFault.PageFault }
{
    let mut left = left.into_iter();
    loop {
        let Ok(page) = next_page(alloc, &mut left) else {
            return Err(RunFault::Memory);
        };
        if page.is_empty() {
            return Ok(());
        }
        if let Err(fault) = handed.hand_out(pages, page) {
            return Err(fault);
        }
    }
}
