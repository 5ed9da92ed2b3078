//! Sources that give few bytes at a time, and fail.

use crate::runs::{Runtime, UNIT_CUBE, cube_file, run_gated};
use std::alloc::AllocError;
use std::test::Fail;
use tv_base::{MemSink, MemSource, OpenGate};

/// How many bytes the unit cube's file has.
const BYTES: u32 = 720;

/// In so many calls it is read in steps of 7. The last one finds that nothing is left.
const CALLS: u32 = (BYTES + 6) / 7 + 1;

/// The status and the text of `solve` over the unit cube's file, of which a call gives at most so
/// many bytes, and at least one. The call of the number `fail` fails; they count from 1.
fn told<R: Runtime>(rt: &R, step: usize, fail: u32) -> Result<String, AllocError> {
    let file = cube_file(rt.alloc())?.into_bytes();
    let fail = vec![in rt.alloc(); fail]?;
    let mut source = MemSource::in_steps(file, step.max(1), fail);
    let sink = MemSink::new(Vec::new(rt.alloc()));
    run_gated(rt, "solve|", &mut source, sink, &OpenGate)
}

/// What a run writes whose call of this number fails, if it is made.
fn wanted(call: u32) -> &'static str {
    if call <= CALLS { "5 " } else { UNIT_CUBE }
}

#[test]
fn a_read_that_fails_is_told(rt: HostRuntime) -> Result<(), Fail> {
    for call in 1..CALLS + 2 {
        assert_eq!(rt;
            told(&rt, 7, call)?.as_str(),
            wanted(call),
            "the call {call}"
        );
    }
    Ok(())
}

#[test]
fn steps_of_any_length_are_read(rt: HostRuntime) -> Result<(), Fail> {
    for step in [1usize, 7, 65_536] {
        assert_eq!(rt; told(&rt, step, 0)?.as_str(), UNIT_CUBE, "steps of {step}");
    }
    Ok(())
}
