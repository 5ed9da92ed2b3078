//! Texts that memory is found for.

ghost use Rattle.std.specs.Prelude.{◌≡◌};

use crate::surfaces::{choice_of, problem_at};
use report::{SolidBuffers, SolidTexts, page_text, solid_text, trial_text};
use solid_model::{Choice, EndKind, Ended, Problem};
use std::alloc::Global;
use std::test::Fail;
use test_files::{Row, rows_tell};

/// Two choices of three blocks.
fn choices(alloc: Global) -> Result<Vec<Choice>, Fail> {
    let mut choices = Vec::new(alloc);
    choices.push(Choice::from_bools(alloc, &[true, false, true])?)?;
    choices.push(Choice::from_bools(alloc, &[false, false, true])?)?;
    Ok(choices)
}

/// A page of two choices, and then the figures of a trial that found them.
fn told(alloc: Global) -> Result<Vec<u8>, Fail> {
    let solids = choices(alloc)?;
    let mut text = page_text(alloc, 3, 35, solids.as_slice())?;
    let ended = Ended {
        kind: EndKind::Whole,
        opened: 214,
        solids,
    };
    text.append(&mut trial_text(alloc, 7, 12, &ended, 148)?)?;
    Ok(text)
}

#[test]
fn a_page_and_a_trial_are_told(rt: HostRuntime) -> Result<(), Fail> {
    let wanted = b"page 3 solids 35\nchoice 101\nchoice 001\n\
        trial 7 pieces 14 blocks 12 solids 2 nodes 214 volume 148\n";
    assert_eq!(rt; told(rt.alloc())?.as_slice(), wanted.as_slice());
    Ok(())
}

/// A row a solid: the strokes in front, from the top and from the side, and which blocks are full;
/// and then its text, with `|` at the end of each line. It is a hollow cube.
const SOLIDS: &str = "\
rect S 0 0 3 3, rect D 1 1 2 2; rect S 0 0 3 3, rect D 1 1 2 2; rect S 0 0 3 3, rect D 1 1 2 2; \
    10 -> solid 1 choice 10 volume 26 faces 12|\
    face -x at 0 loop 0,0,0 0,0,3 0,3,3 0,3,0|face -x at 2 loop 2,1,1 2,1,2 2,2,2 2,2,1|\
    face +x at 1 loop 1,1,1 1,2,1 1,2,2 1,1,2|face +x at 3 loop 3,0,0 3,3,0 3,3,3 3,0,3|\
    face -y at 0 loop 0,0,0 3,0,0 3,0,3 0,0,3|face -y at 2 loop 1,2,1 2,2,1 2,2,2 1,2,2|\
    face +y at 1 loop 1,1,1 1,1,2 2,1,2 2,1,1|face +y at 3 loop 0,3,0 0,3,3 3,3,3 3,3,0|\
    face -z at 0 loop 0,0,0 0,3,0 3,3,0 3,0,0|face -z at 2 loop 1,1,2 1,2,2 2,2,2 2,1,2|\
    face +z at 1 loop 1,1,1 2,1,1 2,2,1 1,2,1|face +z at 3 loop 0,0,3 3,0,3 3,3,3 0,3,3|";

/// The text of the first solid of a problem, as it is told in buffers.
fn text_in_buffers(alloc: Global, problem: &Problem, choice: &Choice) -> Result<Vec<u8>, Fail> {
    let texts = SolidTexts::of(alloc, problem, 0)?;
    let mut buffers = texts.buffers(alloc)?;
    texts.tell(alloc, 1, choice, &mut buffers)?;
    Ok(buffers.text)
}

/// The text of a row's solid, as the row has it, if it is told so alone and in buffers.
fn told_solid(alloc: Global, row: Row<'_>) -> Result<String, Fail> {
    let [_, _, _, full, _] = row.parts;
    let problem = problem_at(alloc, row.views())?;
    let choice = choice_of(alloc, full)?;
    let text = solid_text(alloc, &problem, 1, &choice, 0)?;
    if text.as_slice() != text_in_buffers(alloc, &problem, &choice)?.as_slice() {
        return Err(Fail::new("another text in buffers"));
    }
    let text = std::str::from_utf8(text.as_slice()).unwrap_or("no text");
    Ok(text.replace(alloc, "\n", "|")?)
}

#[test]
fn solids_are_told(rt: HostRuntime) -> Result<(), Fail> {
    rows_tell(SOLIDS, |row| told_solid(rt.alloc(), row))
}

/// A row a drawing, and some of its solids, by their full blocks, one after another in the same
/// buffers; and then the first line of each. Of a hollow cube they are the hull, the whole, the core
/// and nothing: planes stay, and others get squares or lose them.
const SOLIDS_IN_TURN: &str = "\
rect S 0 0 3 3, rect D 1 1 2 2; rect S 0 0 3 3, rect D 1 1 2 2; rect S 0 0 3 3, rect D 1 1 2 2; \
    10 11 01 00 10 10 -> solid 1 choice 10 volume 26 faces 12|solid 1 choice 11 volume 27 faces 6|\
    solid 1 choice 01 volume 1 faces 6|solid 1 choice 00 volume 0 faces 0|\
    solid 1 choice 10 volume 26 faces 12|solid 1 choice 10 volume 26 faces 12|";

/// Adds the first line of the text of a solid, told in buffers after others, if it is told so
/// alone.
fn push_in_turn(
    alloc: Global,
    problem: &Problem,
    texts: &SolidTexts<'_>,
    full: &str,
    buffers: &mut SolidBuffers,
    told: &mut String,
) -> Result<(), Fail>
    requires { buffers.old.rows.sizes ≡ texts.now.problem.blocks.sizes }
    ensures { buffers.new.rows.sizes ≡ texts.now.problem.blocks.sizes }
{
    let choice = choice_of(alloc, full)?;
    texts.tell(alloc, 1, &choice, buffers)?;
    if buffers.text.as_slice() != solid_text(alloc, problem, 1, &choice, 0)?.as_slice() {
        return Err(Fail::new("another text after others"));
    }
    let text = std::str::from_utf8(buffers.text.as_slice()).unwrap_or("no text");
    told.push_str(text.lines().next().unwrap_or(""))?;
    Ok(told.push_str("|")?)
}

/// The first lines of the texts of a problem's solids, told one after another in buffers.
fn told_in_turn(
    alloc: Global,
    problem: &Problem,
    texts: &SolidTexts<'_>,
    solids: &str,
    buffers: &mut SolidBuffers,
) -> Result<String, Fail>
    requires { buffers.old.rows.sizes ≡ texts.now.problem.blocks.sizes }
{
    let mut told = String::new(alloc);
    for full in solids.split(' ') {
        push_in_turn(alloc, problem, texts, full, buffers, &mut told)?;
    }
    Ok(told)
}

/// Those of a problem, in new buffers.
fn told_in_buffers(alloc: Global, problem: &Problem, solids: &str) -> Result<String, Fail> {
    let texts = SolidTexts::of(alloc, problem, 0)?;
    let mut buffers = texts.buffers(alloc)?;
    told_in_turn(alloc, problem, &texts, solids, &mut buffers)
}

/// Those of a row, as the row has them.
fn told_in_turn_of(alloc: Global, row: Row<'_>) -> Result<String, Fail> {
    let problem = problem_at(alloc, row.views())?;
    told_in_buffers(alloc, &problem, row.parts[3])
}

#[test]
fn solids_are_told_one_after_another(rt: HostRuntime) -> Result<(), Fail> {
    rows_tell(SOLIDS_IN_TURN, |row| told_in_turn_of(rt.alloc(), row))
}
