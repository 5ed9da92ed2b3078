//! What is read of files with further views, in three views and in six.

use dxf_entities::{entities, entities_six};
use dxf_groups::Groups;
use report::fault_text;
use solid_model::{Fault, Refused};
use std::alloc::Global;
use std::test::Fail;
use test_files::{Row, file_bytes, file_of, row_of, rows_tell};

/// A row the entities of a file; and then how many lines are kept of it in three views, and how many
/// of the views and of further views in six, or the fault.
const LAYERS: &str = "\
LEFT, line S 0 0 1 0 -> 0; 0 and 1
LEFT, line S 0 0 1 0, FRONT, rect S 0 0 1 1, REAR, line D 0 0 0 2, BOTTOM, line S 0 0 3 0 -> 4; 4 and 3
0 ARC, 8 LEFT -> 0; fault F13 Geometry line 5
REAR, line S 0 0 1 1, FRONT, line S 0 0 1 1 -> fault F11 Oblique line 23; fault F11 Oblique line 5
0 LINE, 8 BACK -> 0; 0 and 0";

/// The same in six views alone, of one line more than may be kept.
const TOO_MANY: &str = "50000 * line S 0 0 1 0, BOTTOM, 50001 * line S 0 0 1 0 -> \
    fault F15 TooManyLines line 1800005";

/// A fault as it is told.
fn told_fault(alloc: Global, fault: &Fault) -> Result<String, Fail> {
    let text = fault_text(alloc, fault)?;
    let text = std::str::from_utf8(text.as_slice()).unwrap_or("no text");
    Ok(text.trim_end().to_string(alloc)?)
}

/// What is kept in three views.
fn told_three(alloc: Global, file: String) -> Result<String, Fail> {
    let file = file_bytes(file)?;
    match entities(alloc, &mut Groups::new(file), 0) {
        Ok(lines) => Ok(format!(in alloc; "{}", lines.len())?),
        Err(Refused::Fault(fault)) => told_fault(alloc, &fault),
        Err(Refused::Memory) => Err(Fail::new("out of memory")),
    }
}

/// What is kept in six.
fn told_six(alloc: Global, file: String) -> Result<String, Fail> {
    let file = file_bytes(file)?;
    match entities_six(alloc, &mut Groups::new(file), 0) {
        Ok((main, further)) => Ok(format!(in alloc; "{} and {}", main.len(), further.len())?),
        Err(Refused::Fault(fault)) => told_fault(alloc, &fault),
        Err(Refused::Memory) => Err(Fail::new("out of memory")),
    }
}

/// The file of a row's entities.
fn file_in(alloc: Global, row: Row<'_>) -> Result<String, Fail> {
    let steps = format!(in alloc; "0 SECTION, 2 ENTITIES, {}, 0 ENDSEC, 0 EOF", row.told)?;
    Ok(file_of(alloc, steps.as_str())?)
}

/// What is kept of a row's file, as the row has it.
fn told(alloc: Global, row: Row<'_>) -> Result<String, Fail> {
    let three = told_three(alloc, file_in(alloc, row)?)?;
    let six = told_six(alloc, file_in(alloc, row)?)?;
    Ok(format!(in alloc; "{}; {}", three, six)?)
}

#[test]
fn six_layers_are_read_where_six_are_asked_for(rt: HostRuntime) -> Result<(), Fail> {
    rows_tell(LAYERS, |row| told(rt.alloc(), row))
}

#[test]
fn the_limit_on_lines_counts_those_of_six_layers(rt: HostRuntime) -> Result<(), Fail> {
    let row = row_of(TOO_MANY);
    let told = told_six(rt.alloc(), file_in(rt.alloc(), row)?)?;
    assert_eq!(rt; told.as_str(), row.wanted);
    Ok(())
}
