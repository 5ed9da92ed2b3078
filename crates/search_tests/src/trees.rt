//! Small trees that are written out, walked and searched by hand.

ghost use Rattle.std.specs.Prelude.{◌≡◌, ◌≤◌, ◌∷◌, [], ◌<◌, Bool, List, length, vec_capacity, IfOk, IsTrue};
ghost use Rattle.search_tests.specs.Words.{lets, is_let};

use crate::searches::limits;
use search_tree::{Expanded, Path, expand_path, go_on, search_path};
use solid_model::{Choice, Ended, Limits, Memory, Prefix};
use std::alloc::Global;
use std::fmt::Write;
use std::test::Fail;
use test_files::{Row, rows_tell};

/// A row a tree: the number of blocks, and a `#` for each live prefix, level by level, in each
/// level in the stated order; and then the live prefixes in the stated order, a `1` for full and a
/// `0` for empty; and the expansions of the empty prefix with each quantum: how many were opened,
/// the choices among them, and the rest.
const TREES: &str = "\
3; ###.###.##..##. -> - 1 10 101 0 01 010 00 001|1:; 1 0|2:; 10 0|4: 101; 0|6: 101; 010 00|9: 101 010 001;
1; ### -> - 1 0|1:; 1 0|2: 1; 0|3: 1 0;|3: 1 0;|3: 1 0;
1; #.# -> - 0|1:; 0|2: 0;|2: 0;|2: 0;|2: 0;
0; # -> -|1: -;|1: -;|1: -;|1: -;|1: -;
2; .###### -> |||||";

/// The first of these trees.
const FIRST_TREE: &str = "###.###.##..##.";

/// The quanta.
const QUANTA: [u32; 5] = [1, 2, 4, 6, 20];

/// A row a search of the first of these trees: the limits of nodes and of solids, a digit each; and
/// then how it ends, how many prefixes were opened, and the choices that were found.
const SEARCHES: &str = "\
9; 3 -> Whole 9: 101 010 001
8; 3 -> CutNodes 9: 101 010
9; 2 -> CutSolids 9: 101 010
9; 1 -> CutSolids 7: 101
4; 1 -> CutNodes 5: 101
3; 1 -> CutNodes 4:
1; 1 -> CutNodes 2:";

/// A way down a tree whose live prefixes a text tells.
#[derive(Drop)]
struct ToldPath<'a> {
    blocks: usize,
    text: &'a [u8],
    values: Vec<bool>,
    ghost short: { length text.now ≤ 1000 },
    ghost room: { blocks ≤ vec_capacity values },
}

/// The text, from a place on, has a `#` for each prefix on the way along the values.
fn lets_on(text: &[u8], place: usize, values: &[bool]) -> bool
    requires { length text.now ≤ 1000 }
    ensures { result ≡ lets text.now place values.now }
{
    if place >= text.len() || text[place] != b'#' {
        return false;
    }
    match values {
        [] => true,
        [true, rest @ ..] => lets_on(text, 2 * place + 1, rest),
        [false, rest @ ..] => lets_on(text, 2 * place + 2, rest),
    }
}

impl<'a> Path for ToldPath<'a> {
    ghost live = { λ s. is_let s.blocks s.text.now };

    ghost blocks = { λ s. s.blocks };

    ghost prefix = { λ s. s.values.items };

    fn depth(&self) -> usize {
        self.values.len()
    }

    fn to_prefix(&self) -> Result<Prefix, Memory> {
        Prefix::from_bools(*self.values.allocator(), self.values.as_slice())
    }

    fn block_count(&self) -> usize {
        self.blocks
    }

    fn is_live(&mut self) -> bool {
        self.values.len() <= self.blocks && lets_on(self.text, 0, self.values.as_slice())
    }

    fn go_down(&mut self, full: bool) {
        self.values.push_reserved(full);
    }

    fn go_up(&mut self) -> Option<bool> {
        self.values.pop()
    }
}

/// The way down a tree of so many blocks that a text tells, at the empty prefix.
fn path_of(alloc: Global, blocks: usize, tree: &str) -> Result<ToldPath<'_>, Fail>
    ensures { IfOk result (λ path. path.values.items ≡ []) }
{
    let text = tree.as_bytes();
    if text.len() > 1000 {
        return Err(Fail::new("a shorter text"));
    }
    let values = Vec::with_capacity(alloc, blocks)?;
    Ok(ToldPath {
        blocks,
        text,
        values,
    })
}

/// The same of a row's tree.
fn path_in<'a>(alloc: Global, row: Row<'a>) -> Result<ToldPath<'a>, Fail> {
    let [blocks, tree, ..] = row.parts;
    path_of(alloc, blocks.parse().unwrap_or(0), tree)
}

/// Adds a value.
fn push_value(told: &mut String, full: bool) -> Result<(), Fail> {
    Ok(told.push_str(if full { "1" } else { "0" })?)
}

/// Adds a blank and the values of a choice, or a `-`.
pub fn push_choice(told: &mut String, choice: &Choice) -> Result<(), Fail> {
    told.push_str(if choice.len() == 0 { " -" } else { " " })?;
    for at in 0..choice.len() {
        push_value(told, choice.get(at))?;
    }
    Ok(())
}

/// Adds a blank and the values of a prefix, or a `-`.
pub fn push_prefix(told: &mut String, prefix: &Prefix) -> Result<(), Fail> {
    told.push_str(if prefix.len() == 0 { " -" } else { " " })?;
    for at in 0..prefix.len() {
        push_value(told, prefix.get(at))?;
    }
    Ok(())
}

/// Adds choices.
pub fn push_choices(told: &mut String, choices: &[Choice]) -> Result<(), Fail> {
    for choice in choices {
        push_choice(told, choice)?;
    }
    Ok(())
}

/// Adds prefixes.
pub fn push_prefixes(told: &mut String, prefixes: &[Prefix]) -> Result<(), Fail> {
    for prefix in prefixes {
        push_prefix(told, prefix)?;
    }
    Ok(())
}

/// Adds the present prefix.
fn push_present(told: &mut String, path: &ToldPath<'_>) -> Result<(), Fail> {
    let prefix = path.to_prefix()?;
    push_prefix(told, &prefix)
}

/// Adds the live prefixes in the order of the walk.
fn push_walk(told: &mut String, path: &mut ToldPath<'_>) -> Result<(), Fail> {
    for _ in 0..20 {
        if !path.is_live() {
            break;
        }
        push_present(told, path)?;
        if !go_on(path, 0) {
            break;
        }
    }
    Ok(())
}

/// Adds what an expansion opened, found and left.
fn push_parts(told: &mut String, parts: &Expanded) -> Result<(), Fail> {
    write!(told, "{}:", parts.opened)?;
    push_choices(told, parts.found.as_slice())?;
    told.push_str(";")?;
    push_prefixes(told, parts.rest.as_slice())
}

/// Adds the expansion of the present prefix, if it is live.
fn push_expansion(
    alloc: Global,
    told: &mut String,
    path: &mut ToldPath<'_>,
    quantum: u32,
) -> Result<(), Fail>
    requires { 1 ≤ quantum }
{
    if path.is_live() {
        let parts = expand_path(alloc, path, quantum)?;
        push_parts(told, &parts)?;
    }
    Ok(())
}

/// Adds the expansion of the empty prefix of a row's tree.
fn push_expanded(alloc: Global, told: &mut String, row: Row<'_>, quantum: u32) -> Result<(), Fail>
    requires { 1 ≤ quantum }
{
    told.push_str("|")?;
    let mut path = path_in(alloc, row)?;
    push_expansion(alloc, told, &mut path, quantum)
}

/// The walk down a row's tree, as the row has it, behind a blank.
fn told_walk(alloc: Global, row: Row<'_>) -> Result<String, Fail> {
    let mut path = path_in(alloc, row)?;
    let mut told = String::new(alloc);
    push_walk(&mut told, &mut path)?;
    Ok(told)
}

/// What is told of a row's tree, as the row has it, behind a blank.
fn told_tree(alloc: Global, row: Row<'_>) -> Result<String, Fail> {
    let mut told = told_walk(alloc, row)?;
    for quantum in QUANTA {
        push_expanded(alloc, &mut told, row, quantum)?;
    }
    Ok(told)
}

#[test]
fn trees_are_walked_and_expanded_as_by_hand(rt: HostRuntime) -> Result<(), Fail> {
    rows_tell(TREES, |row| told_tree(rt.alloc(), row))
}

/// The search of the first of the trees within limits.
fn searched(alloc: Global, limits: Limits) -> Result<Ended, Fail> {
    let mut path = path_of(alloc, 3, FIRST_TREE)?;
    Ok(search_path(alloc, &mut path, limits)?)
}

/// How a search ended, as a row has it.
fn told_end(alloc: Global, ended: &Ended) -> Result<String, Fail> {
    let mut told = format!(in alloc; "{:?} {}:", ended.kind, ended.opened)?;
    push_choices(&mut told, ended.solids.as_slice())?;
    Ok(told)
}

/// The search within a row's limits, as the row has it.
fn told_search(alloc: Global, row: Row<'_>) -> Result<String, Fail> {
    let [nodes, solids, ..] = row.parts;
    let ended = searched(alloc, limits(nodes, solids)?)?;
    told_end(alloc, &ended)
}

#[test]
fn searches_end_at_their_limits(rt: HostRuntime) -> Result<(), Fail> {
    rows_tell(SEARCHES, |row| told_search(rt.alloc(), row))
}
