//! Runs over a source and a sink in memory.

use recon_run::run;
use std::alloc::{AllocError, Global};
use std::sync::Wait;
use std::test::Fail;
use std::thread::Threads;
use test_files::{Row, file_of, lines_hold, row_of};
use tv_base::{Gate, MemSink, MemSource, OpenGate};

/// What a run is given to run on.
pub trait Runtime: AllocGlobal + Threads + Wait + Sync {}

impl<R: AllocGlobal + Threads + Wait + Sync> Runtime for R {}

/// The status and the text of a run. The sink's calls fail as `faults` says.
fn run_over<R: Runtime>(
    rt: &R,
    words: &str,
    source: &mut MemSource,
    faults: Vec<(u32, usize)>,
) -> Result<String, AllocError> {
    run_gated(rt, words, source, MemSink::new(faults), &OpenGate)
}

/// The words of a command.
pub fn command_of(alloc: Global, words: &str) -> Result<Vec<String>, AllocError> {
    let mut command = Vec::new(alloc);
    for word in words.split_terminator('|') {
        command.push(String::from_str(alloc, word)?)?;
    }
    Ok(command)
}

/// The status and the text of a run over a source and a sink, whose workers pass a gate.
pub fn run_gated<R: Runtime, G: Gate>(
    rt: &R,
    words: &str,
    source: &mut MemSource,
    mut sink: MemSink,
    gate: &G,
) -> Result<String, AllocError> {
    let command = command_of(rt.alloc(), words)?;
    let status = run(rt, rt.alloc(), command.as_slice(), source, &mut sink, gate);
    let text = std::str::from_utf8(sink.bytes()).unwrap_or("no text");
    format!(in rt.alloc(); "{status} {text}")
}

/// The status and the text of `solve` over a file.
pub fn solve<R: Runtime>(rt: &R, file: String) -> Result<String, AllocError> {
    run_words(rt, "solve|", file)
}

/// The status and the text of a run with these words over a file.
pub fn run_words<R: Runtime>(rt: &R, words: &str, file: String) -> Result<String, AllocError> {
    let mut source = MemSource::new(file.into_bytes(), Vec::new(rt.alloc()));
    run_over(rt, words, &mut source, Vec::new(rt.alloc()))
}

/// The same of a run whose sink fails in its call of this number, after ten bytes.
pub fn run_failing<R: Runtime>(
    rt: &R,
    words: &str,
    file: String,
    call: u32,
) -> Result<String, AllocError> {
    let mut source = MemSource::new(file.into_bytes(), Vec::new(rt.alloc()));
    run_over(
        rt,
        words,
        &mut source,
        vec![in rt.alloc(); (call, 10usize)]?,
    )
}

/// The file of the unit cube.
pub fn cube_file(alloc: Global) -> Result<String, AllocError> {
    file_of(alloc, "0 SECTION, 2 ENTITIES, cube, 0 ENDSEC, 0 EOF")
}

/// The unit cube's file as a source whose call of this number fails; they count from 1.
fn cube_source(alloc: Global, read: u32) -> Result<MemSource, AllocError> {
    let file = cube_file(alloc)?.into_bytes();
    Ok(MemSource::new(file, vec![in alloc; read]?))
}

/// What a run over a source writes whose sink fails in its call of this number, after ten bytes;
/// they count from 1.
fn wrote<R: Runtime>(
    rt: &R,
    words: &str,
    source: &mut MemSource,
    write: u32,
) -> Result<String, AllocError> {
    let faults = vec![in rt.alloc(); (write, 10usize)]?;
    run_over(rt, words, source, faults)
}

/// Whether this is what a run over the unit cube's file writes, and then `solve` for what is left
/// of the source. The source's call of the number `read` fails, and the sink's of the number
/// `write`.
fn writes<R: Runtime>(
    rt: &R,
    words: &str,
    [read, write]: [u32; 2],
    [first, second]: [&str; 2],
) -> Result<bool, Fail> {
    let mut source = cube_source(rt.alloc(), read)?;
    let wrote = wrote(rt, words, &mut source, write)?;
    let rest = run_over(rt, "solve|", &mut source, Vec::new(rt.alloc()))?;
    Ok(wrote.as_str() == first && rest.as_str() == second)
}

/// Words that aren't taken, a list in each line, and `|` behind each word; the first list has none.
const OTHER_WORDS: &str = "
sovle|
solve|solve|
solve|4|
Solve|
solve |
solve||
solve|--nodes|
solve|--nodes|0|
solve|--nodes|+3|
solve|--nodes=|
solve|--nodes||
solve|--nodes|3|--nodes|3|
solve|--solids|65537|
solve|--workers|0|
solve|--workers|65|
solve|--workers|2|--workers|2|
make|7|--workers|2|
make|7|--two-views|
solve|--two-views=1|
solve|--two|
solve|--node|3|
solve|--pages=1|
redraw|1|--pages|
solve|--help|
solve|-h|
solve|--|
--nodes|3|solve|
redraw|
redraw|0|
|";

const USAGE: &str = "2 usage: recon solve|redraw|make|trial\n";

/// The status and the text of `solve` over the unit cube's file.
pub const UNIT_CUBE: &str = "0 whole 1 nodes 2 blocks 1
solid 1 choice 1 volume 1 faces 6
face -x at 0 loop 0,0,0 0,0,1 0,1,1 0,1,0
face +x at 1 loop 1,0,0 1,1,0 1,1,1 1,0,1
face -y at 0 loop 0,0,0 1,0,0 1,0,1 0,0,1
face +y at 1 loop 0,1,0 0,1,1 1,1,1 1,1,0
face -z at 0 loop 0,0,0 0,1,0 1,1,0 1,0,0
face +z at 1 loop 0,0,1 1,0,1 1,1,1 0,1,1
";

/// What `solve` writes where nothing is left.
const NOTHING_LEFT: &str = "1 fault F4 NoEof line 1\n";

/// Whether words aren't taken, the source isn't read, and the sink is called once: its second call
/// would fail.
fn is_usage<R: Runtime>(rt: &R, words: &str) -> Result<bool, Fail> {
    writes(rt, words, [0, 2], [USAGE, UNIT_CUBE])
}

#[test]
fn other_words_are_not_taken(rt: HostRuntime) -> Result<(), Fail> {
    lines_hold(OTHER_WORDS, |words| is_usage(&rt, words))
}

/// A row a run in which a call fails, or would fail if it were made: the number of the source's
/// call, or else of the sink's; the words; whether all of the source is left; and the status and
/// the text, with `|` for the end of a line. After a read that fails nothing is read; and an answer
/// in one piece goes to the sink in one call.
const FAULTS: &str = "\
1; 0; solve|; all -> 5 \n\
2; 0; solve| -> 5 \n\
0; 1; solve| -> 6 whole 1 no\n\
0; 2; solve| -> 6 whole 1 nodes 2 blocks 1|solid 1 ch\n\
0; 2; redraw|2| -> 8 none 2 of 1|\n\
0; 2; trial|11|; all -> 0 trial 11 pieces 14 blocks 27 solids 35 nodes 739 volume 108471|";

/// What `solve` writes for what is left of the source: all of it, or nothing.
fn text_of_left(left: &str) -> &'static str {
    match left {
        "all" => UNIT_CUBE,
        _ => NOTHING_LEFT,
    }
}

/// Whether a run ends as its row has it, and leaves of the source what the row says.
fn ends_so<R: Runtime>(rt: &R, row: Row<'_>) -> Result<bool, Fail> {
    let [read, write, words, left, _] = row.parts;
    let calls = [read.parse().unwrap_or(0), write.parse().unwrap_or(0)];
    let wanted = row.wanted.replace(rt.alloc(), "|", "\n")?;
    writes(rt, words, calls, [wanted.as_str(), text_of_left(left)])
}

#[test]
fn faulty_runs_end_so(rt: HostRuntime) -> Result<(), Fail> {
    lines_hold(FAULTS, |line| ends_so(&rt, row_of(line)))
}
