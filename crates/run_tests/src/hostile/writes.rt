//! Sinks that fail.

use crate::runs::{Runtime, UNIT_CUBE, cube_file, run_gated};
use std::alloc::{AllocError, Global};
use std::test::Fail;
use test_files::{Row, row_of};
use tv_base::{MemSink, MemSource, OpenGate};

/// A row a run of `solve` over the unit cube's file: the number of the sink's call that fails, and
/// how many bytes that call takes; and then the status, and how many bytes of the text the sink
/// has. The first call takes a line of 25 bytes, the second one the solid, and there is no third.
const WRITES: &str = "\
1; 0 -> 6 0
1; 1 -> 6 1
1; 10 -> 6 10
2; 0 -> 6 25
2; 1 -> 6 26
2; 10 -> 6 35
3; 10 -> 0 311";

/// The status and the text of a row's run.
fn told<R: Runtime>(rt: &R, row: Row<'_>) -> Result<String, AllocError> {
    let [call, kept, ..] = row.parts;
    let file = cube_file(rt.alloc())?.into_bytes();
    let mut source = MemSource::new(file, Vec::new(rt.alloc()));
    let call: u32 = call.parse().unwrap_or(0);
    let kept: usize = kept.parse().unwrap_or(0);
    let sink = MemSink::new(vec![in rt.alloc(); (call, kept)]?);
    run_gated(rt, "solve|", &mut source, sink, &OpenGate)
}

/// The status and the text that a row has.
fn wanted(alloc: Global, row: Row<'_>) -> Result<String, AllocError> {
    let (status, bytes) = row.wanted.split_once(' ').unwrap_or(("", ""));
    let bytes: usize = bytes.parse().unwrap_or(0);
    let text = UNIT_CUBE.strip_prefix("0 ").unwrap_or("");
    format!(in alloc; "{status} {}", text.get(..bytes).unwrap_or(text))
}

#[test]
fn a_write_that_fails_leaves_a_beginning(rt: HostRuntime) -> Result<(), Fail> {
    for line in WRITES.lines() {
        let row = row_of(line);
        assert_eq!(rt;
            told(&rt, row)?.as_str(),
            wanted(rt.alloc(), row)?.as_str(),
            "{line}"
        );
    }
    Ok(())
}
