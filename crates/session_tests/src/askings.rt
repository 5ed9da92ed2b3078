//! Askings, and what they ask of each reader, or the first line that is refused.

use query_session::{Ask, AskFault, AskKind, AskRefused, asks_of};
use std::alloc::{AllocError, Global};
use std::test::Fail;
use test_files::{lines_hold, row_of};

/// A row some lines, `|` between two of them, of which one may stand so many times; and what is
/// asked of each reader, `; ` between two of them, or which line is refused and why.
const SESSIONS: &str = "\
readers 2|0 wait 1|0 page 0 10|1 wait 35|1 page 0 256|go -> wait 1, page 0 10; wait 35, page 0 256
readers 2|1 stop|0 wait 2|1 page 3 4|0 stop|go| -> wait 2, stop; stop, page 3 4
readers 1|0 stop|go -> stop
readers 3|go -> ; ; 
readers 1|go|readers 2|0 halt -> 
readers 1|go|| -> 
readers 16|15 stop|go -> ; ; ; ; ; ; ; ; ; ; ; ; ; ; ; stop
readers 1|0 page 65536 256|0 wait 65536|go -> page 65536 256, wait 65536
readers 1|0 page 0 1|0 wait 1|go -> page 0 1, wait 1
readers 1|99 * 0 wait 7|0 stop|go -> 100 askings, stop at last
readers 1|100 * 0 wait 7|go -> 100 askings, wait 7 at last
 -> NoGo 1
| -> BadLine 1
readers 1 -> NoGo 2
readers 1| -> NoGo 2
readers 1|0 stop -> NoGo 3
readers 1|0 stop| -> NoGo 3
readers 1|100 * 0 stop -> NoGo 102
readers 1|100 * 0 stop| -> NoGo 102
readers 1|100 * 0 stop|0 stop|go -> TooMany 102
readers 1|100 * 0 stop|0 halt|go -> TooMany 102
readers 1|100 * 0 stop||go -> TooMany 102
readers 1|100 * 0 stop|go\r|go -> TooMany 102
readers 1|99 * 0 stop|0 halt|0 stop|go -> BadLine 101
readers 1|100 * 0 stop|0 stop -> TooMany 102
go -> BadLine 1
|readers 1|go -> BadLine 1
readers|go -> BadLine 1
readers |go -> BadLine 1
readers 0|go -> BadLine 1
readers 17|go -> BadLine 1
readers 01|go -> BadLine 1
readers +1|go -> BadLine 1
readers  1|go -> BadLine 1
readers 1 |go -> BadLine 1
readers 1 1|go -> BadLine 1
 readers 1|go -> BadLine 1
Readers 1|go -> BadLine 1
reader 1|go -> BadLine 1
readers 1\r|go -> BadLine 1
readers 1|1 stop|go -> BadLine 2
readers 1|0 halt -> BadLine 2
readers 2|0 stop|2 stop|1 stop|go -> BadLine 3
readers 1|0 stop|0 stop\r|go -> BadLine 3
readers 1|0 stop||go -> BadLine 3
readers 1|0 stop|go\r -> BadLine 3
readers 1|0 stop|go  -> BadLine 3
readers 1|0 stop| go -> BadLine 3
readers 1|0 stop|Go -> BadLine 3
readers 1|0 stop|go go -> BadLine 3
readers 1|0 stop|readers 1|go -> BadLine 3
readers 16|16 stop|go -> BadLine 2
readers 1|10000000000 stop|go -> BadLine 2
readers 1|00 stop|go -> BadLine 2
readers 1|-0 stop|go -> BadLine 2
readers 1|stop|go -> BadLine 2
readers 1|0|go -> BadLine 2
readers 1|0 |go -> BadLine 2
readers 1|0 stop |go -> BadLine 2
readers 1|0 stop 1|go -> BadLine 2
readers 1|0  stop|go -> BadLine 2
readers 1|0 wait|go -> BadLine 2
readers 1|0 wait 0|go -> BadLine 2
readers 1|0 wait 65537|go -> BadLine 2
readers 1|0 wait 1 2|go -> BadLine 2
readers 1|0 wait 18446744073709551617|go -> BadLine 2
readers 1|0 page|go -> BadLine 2
readers 1|0 page 0|go -> BadLine 2
readers 1|0 page 0 |go -> BadLine 2
readers 1|0 page 0 0|go -> BadLine 2
readers 1|0 page 0 257|go -> BadLine 2
readers 1|0 page 65537 1|go -> BadLine 2
readers 1|0 page 00 1|go -> BadLine 2
readers 1|0 page 0 1 1|go -> BadLine 2
readers 1|0 page  1|go -> BadLine 2
readers 1|0 pages 0 1|go -> BadLine 2";

/// Scripts longer than this are told by their length and their last asking.
const TOLD: usize = 9;

/// Adds a line, or so many of them.
fn push_lines(text: &mut String, told: &str) -> Result<(), AllocError> {
    let (count, line) = told.split_once(" * ").unwrap_or(("1", told));
    let count: u32 = count.parse().unwrap_or(1);
    for place in 0..count {
        text.push_str(if place == 0 { "" } else { "\n" })?;
        text.push_str(line)?;
    }
    Ok(())
}

/// The text that a row tells.
pub fn text_of(alloc: Global, told: &str) -> Result<String, AllocError> {
    let mut text = String::new(alloc);
    for (place, step) in told.split('|').enumerate() {
        text.push_str(if place == 0 { "" } else { "\n" })?;
        push_lines(&mut text, step)?;
    }
    Ok(text)
}

/// Adds what is asked.
fn push_ask(told: &mut String, ask: Ask) -> Result<(), AllocError> {
    match ask {
        Ask::Page { from, most } => write!(told, "page {from} {most}"),
        Ask::Wait { count } => write!(told, "wait {count}"),
        Ask::Stop => told.push_str("stop"),
    }
}

/// Adds a script.
fn push_script(told: &mut String, script: &[Ask]) -> Result<(), AllocError> {
    if let Some(last) = script.get(TOLD) {
        write!(told, "{} askings, ", script.len())?;
        push_ask(told, *script.last().unwrap_or(last))?;
        return told.push_str(" at last");
    }
    for (place, ask) in script.iter().enumerate() {
        told.push_str(if place == 0 { "" } else { ", " })?;
        push_ask(told, *ask)?;
    }
    Ok(())
}

/// Scripts, as a row tells them.
fn told_scripts(alloc: Global, scripts: &[Vec<Ask>]) -> Result<String, AllocError> {
    let mut told = String::new(alloc);
    for (place, script) in scripts.iter().enumerate() {
        told.push_str(if place == 0 { "" } else { "; " })?;
        push_script(&mut told, script)?;
    }
    Ok(told)
}

/// A refusal, as a row tells it.
fn told_fault(alloc: Global, fault: AskFault) -> Result<String, AllocError> {
    let kind = match fault.kind {
        AskKind::BadLine => "BadLine",
        AskKind::TooMany => "TooMany",
        AskKind::NoGo => "NoGo",
    };
    format!(in alloc; "{kind} {}", fault.line)
}

/// What comes of a text, as a row tells it.
fn told(alloc: Global, text: &str) -> Result<String, Fail> {
    match asks_of(alloc, text.as_bytes()) {
        Ok(scripts) => Ok(told_scripts(alloc, &scripts)?),
        Err(AskRefused::Fault(fault)) => Ok(told_fault(alloc, fault)?),
        Err(AskRefused::Memory) => Err("memory")?,
    }
}

/// Whether that is what the row says.
fn is_so(alloc: Global, line: &str) -> Result<bool, Fail> {
    let row = row_of(line);
    let text = text_of(alloc, row.told)?;
    Ok(told(alloc, text.as_str())?.as_str() == row.wanted)
}

#[test]
fn askings_and_refusals(rt: HostRuntime) -> Result<(), Fail> {
    lines_hold(SESSIONS, |line| is_so(rt.alloc(), line))
}
