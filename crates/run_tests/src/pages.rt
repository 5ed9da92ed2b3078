//! Pages that runs write before their answers.

use crate::runs::{Runtime, run_failing, run_words};
use std::alloc::{AllocError, Global};
use std::test::Fail;
use test_files::drawing_file;

/// The eight voids, in each view.
const EIGHT_VOIDS: [&str; 3] = ["lattice 2 2"; 3];

/// What a run with these words writes for a drawing: its status, and its text.
fn told<R: Runtime>(rt: &R, views: [&str; 3], words: &str) -> Result<String, AllocError> {
    run_words(rt, words, drawing_file(rt.alloc(), views)?)
}

/// The total of the page of this number, by its first line; 0 where it is none.
fn page_total(alloc: Global, line: &str, number: u32) -> Result<usize, AllocError> {
    let head = format!(in alloc; "page {number} solids ")?;
    Ok(match line.strip_prefix(head.as_str()) {
        Some(total) => total.parse::<usize>().unwrap_or(0),
        None => 0,
    })
}

/// The choices that pages tell, if they are numbered from 1 on, each has some choices and 256 at
/// most, and tells how many choices it and those before it have.
fn paged_choices<'a>(alloc: Global, pages: &'a str) -> Result<Option<Vec<&'a str>>, AllocError> {
    let mut choices = Vec::new(alloc);
    let (mut number, mut total) = (0u32, 0usize);
    for line in pages.lines() {
        if let Some(choice) = line.strip_prefix("choice ") {
            choices.push(choice)?;
        } else {
            number = number.saturating_add(1);
            let next = page_total(alloc, line, number)?;
            let is_page = total < next && next <= total.saturating_add(256);
            if choices.len() != total || !is_page {
                return Ok(None);
            }
            total = next;
        }
    }
    Ok(if choices.len() == total {
        Some(choices)
    } else {
        None
    })
}

/// The choices of the solids that an answer lists.
fn listed_choices<'a>(alloc: Global, answer: &'a str) -> Result<Vec<&'a str>, AllocError> {
    let mut choices = Vec::new(alloc);
    for line in answer.lines() {
        if line.starts_with("solid ") {
            choices.push(line.split(' ').nth(3).unwrap_or(""))?;
        }
    }
    Ok(choices)
}

/// Whether pages tell the very choices that an answer lists, each once. The choices of an answer
/// are different ones.
fn tell_the_same(alloc: Global, pages: &str, answer: &str) -> Result<bool, AllocError> {
    let Some(mut paged) = paged_choices(alloc, pages)? else {
        return Ok(false);
    };
    let mut listed = listed_choices(alloc, answer)?;
    paged.sort()?;
    listed.sort()?;
    Ok(paged.as_slice() == listed.as_slice())
}

/// Whether a run ends with the status that is wanted, and its text begins with pages of what it
/// lists, and goes on as it should: with the first line that is wanted, and where that tells of a
/// whole search, as without pages.
fn is_paged<R: Runtime>(rt: &R, words: &str, wanted: &str) -> Result<bool, AllocError> {
    let (status, first) = wanted.split_once(' ').unwrap_or((wanted, ""));
    let wrote = told(rt, EIGHT_VOIDS, words)?;
    let (ended, text) = wrote.as_str().split_once(' ').unwrap_or(("", ""));
    let place = text.find(first).unwrap_or(0);
    let (pages, answer) = (
        text.get(..place).unwrap_or(""),
        text.get(place..).unwrap_or(""),
    );
    let plain = told(rt, EIGHT_VOIDS, "solve|")?;
    let is_right = status != "0" || plain.as_str().get(2..) == Some(answer);
    Ok(ended == status && is_right && place > 0 && tell_the_same(rt.alloc(), pages, answer)?)
}

/// A row a run: its words, its status, and the first line of its answer. There are 109 nodes and 35
/// solids.
const PAGED: &str = "\
solve|--pages| -> 0 whole 35 nodes 109 blocks 9
solve|--pages|--workers|2| -> 0 whole 35 nodes 109 blocks 9
solve|--workers=64|--pages| -> 0 whole 35 nodes 109 blocks 9
solve|--pages|--solids=35|--nodes|109|--workers=8| -> 0 whole 35 nodes 109 blocks 9
solve|--pages|--nodes=108| -> 3 cut nodes 108
solve|--nodes|108|--workers=4|--pages| -> 3 cut nodes 108
solve|--nodes|108|--workers=64|--pages| -> 3 cut nodes 108
solve|--pages|--solids=34|--workers=3| -> 4 cut solids 34
solve|--pages|--solids|1| -> 4 cut solids 1
solve|--solids|1|--pages|--workers=64| -> 4 cut solids 1";

#[test]
fn pages_tell_what_is_listed(rt: HostRuntime) -> Result<(), Fail> {
    for line in PAGED.lines() {
        let (words, wanted) = line.split_once(" -> ").unwrap_or((line, ""));
        assert!(rt; is_paged(&rt, words, wanted)?, "{line}");
    }
    Ok(())
}

/// Where no solid matches there is no page.
#[test]
fn no_solid_has_no_page(rt: HostRuntime) -> Result<(), Fail> {
    let narrow = ["rect S 0 0 2 1", "rect S 0 0 1 1", "rect S 0 0 1 1"];
    let wrote = told(&rt, narrow, "solve|--pages|--workers=2|")?;
    assert_eq!(rt; wrote.as_str(), "0 whole 0 nodes 0 blocks 0\n");
    Ok(())
}

/// Whether a run whose sink fails in its call of this number, after ten bytes, begins with a page.
fn begins_with_a_page<R: Runtime>(rt: &R, call: u32) -> Result<bool, AllocError> {
    let file = drawing_file(rt.alloc(), EIGHT_VOIDS)?;
    let wrote = run_failing(rt, "solve|--pages|--workers=2|", file, call)?;
    Ok(match wrote.as_str().strip_prefix("6 page 1 sol") {
        Some(rest) => rest.is_empty() == (call == 1),
        None => false,
    })
}

#[test]
fn a_stop_leaves_a_beginning(rt: HostRuntime) -> Result<(), Fail> {
    for call in 1..6u32 {
        assert!(rt; begins_with_a_page(&rt, call)?, "the call {call}");
    }
    Ok(())
}
