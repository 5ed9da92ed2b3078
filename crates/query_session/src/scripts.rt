//! The askings of a session, up to `go`, and the script of each reader.

ghost use Rattle.std.specs.Prelude.{◌≡◌, ◌≤◌, ◌+◌, ◌++◌, ◌∷◌, [], length, OnOk, map, Ok, Err, IfOk, MatchResult};
ghost use Rattle.dxf_groups.specs.TextLines.{text_lines};
ghost use Rattle.query_session.specs.declared.ask.AskFault.{AskFault};
ghost use Rattle.query_session.specs.declared.ask.AskRefused.TheVariants as refused;
ghost use Rattle.query_session.specs.Sessions.{line_said, most_askings, read_askings, read_session, script_of, scripts_of};

use crate::ask::{Ask, AskFault, AskKind, AskRefused, Asking};
use crate::reading::{asking_of_line, readers_of_line};
use solid_model::Memory;
use std::alloc::Global;
use text_lines::{first_line, is_word};

/// How many askings there may be.
const MOST: usize = 100;

/// The line of a fault behind the first line and so many askings.
fn fault_behind(kind: AskKind, count: usize) -> AskFault
    requires { count ≤ most_askings }
    ensures { result ≡ record { kind = kind; line = count + 2 } }
{
    AskFault {
        kind,
        line: count as u32 + 2,
    }
}

/// What a line says behind so many askings of so many readers: `None` where it is `go`.
fn line_said(readers: usize, count: usize, line: &[u8]) -> Result<Option<Asking>, AskFault>
    requires { count ≤ most_askings }
    ensures { result ≡ line_said readers count line.now }
{
    if is_word(line, b"go") {
        return Ok(None);
    }
    if count == MOST {
        return Err(fault_behind(AskKind::TooMany, count));
    }
    match asking_of_line(readers, line) {
        Some(asking) => Ok(Some(asking)),
        None => Err(fault_behind(AskKind::BadLine, count)),
    }
}

/// Adds an asking. An `Err` is out of memory.
fn add(askings: &mut Vec<Asking>, asking: Asking) -> Result<(), Memory>
    ensures { OnOk result (askings.new.items ≡ askings.old.items ++ asking ∷ []) }
{
    askings.push(asking)?;
    Ok(())
}

/// The askings of so many readers, up to `go`. An `Err` is the first fault, or out of memory.
fn read_askings(alloc: Global, readers: usize, bytes: &[u8]) -> Result<Vec<Asking>, AskRefused>
    ensures { MatchResult result
        (λ askings. read_askings readers 0 (text_lines bytes.now) ≡ Ok askings.items)
        (λ e. (fault : AskFault) → e ≡ refused.Fault fault
        → read_askings readers 0 (text_lines bytes.now) ≡ Err fault) }
{
    let mut askings = Vec::new(alloc);
    let mut rest = bytes;
    while rest.len() > 0 {
        let (line, behind) = first_line(rest);
        match line_said(readers, askings.len(), line) {
            Ok(Some(asking)) => {
                add(&mut askings, asking)?;
            }
            Ok(None) => return Ok(askings),
            Err(fault) => return Err(AskRefused::Fault(fault)),
        }
        rest = behind;
    }
    Err(AskRefused::Fault(fault_behind(AskKind::NoGo, askings.len())))
}

/// What is asked of one reader, in order. An `Err` is out of memory.
fn script_of(alloc: Global, reader: usize, askings: &[Asking]) -> Result<Vec<Ask>, Memory>
    ensures { IfOk result (λ script. script.items ≡ script_of askings.now reader) }
{
    let mut script = Vec::new(alloc);
    for asking in askings {
        if asking.reader == reader {
            script.push(asking.ask)?;
        }
    }
    Ok(script)
}

/// What is asked of each of so many readers. An `Err` is out of memory.
fn scripts_of(alloc: Global, readers: usize, askings: &[Asking]) -> Result<Vec<Vec<Ask>>, Memory>
    ensures { IfOk result
        (λ scripts. map (λ v. v.items) scripts.items ≡ scripts_of readers askings.now) }
{
    let mut scripts = Vec::new(alloc);
    for reader in 0..readers {
        let script = script_of(alloc, reader, askings)?;
        scripts.push(script)?;
    }
    Ok(scripts)
}

/// What is asked of each reader, in order, by the askings that stand in these bytes, up to `go`;
/// what stands behind it is passed over. `Fault` tells the first line that is refused, and why;
/// `Memory` comes when out of memory.
pub fn asks_of(alloc: Global, bytes: &[u8]) -> Result<Vec<Vec<Ask>>, AskRefused>
    ensures { MatchResult result
        (λ scripts. read_session (text_lines bytes.now) ≡ Ok (map (λ v. v.items) scripts.items))
        (λ e. (fault : AskFault) → e ≡ refused.Fault fault
        → read_session (text_lines bytes.now) ≡ Err fault) }
{
    if bytes.len() == 0 {
        return Err(AskRefused::Fault(AskFault {
            kind: AskKind::NoGo,
            line: 1,
        }));
    }
    let (line, behind) = first_line(bytes);
    let Some(readers) = readers_of_line(line) else {
        return Err(AskRefused::Fault(AskFault {
            kind: AskKind::BadLine,
            line: 1,
        }));
    };
    let askings = match read_askings(alloc, readers, behind) {
        Ok(askings) => askings,
        Err(refused) => return Err(refused),
    };
    match scripts_of(alloc, readers, askings.as_slice()) {
        Ok(scripts) => Ok(scripts),
        Err(_) => Err(AskRefused::Memory),
    }
}
