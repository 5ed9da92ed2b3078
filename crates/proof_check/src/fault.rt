//! What can be wrong with a log.

/// What is wrong with a line of a log.
#[derive(Clone, Copy, Debug, PartialEq, Eq)]
pub enum LogKind {
    /// The line isn't of a form that may stand there.
    BadLine,
    /// The block isn't there, or is decided.
    BadBlock,
    /// The line of the grid isn't there, or doesn't show what is claimed.
    Unproved,
    /// At a solid some block is undecided, or some line of the grid can't be met.
    Unsolid,
    /// It would be the 65,537th solid.
    TooMany,
    /// The last line tells another number of solids.
    BadCount,
    /// The bytes end before the last line.
    Short,
    /// Bytes stand behind the last line.
    Long,
}

/// What is wrong with a log, and with which of its lines, counted from 1.
#[derive(Clone, Copy, Debug, PartialEq, Eq)]
pub struct LogFault {
    pub kind: LogKind,
    pub line: u32,
}

/// Why there is no answer: the text is no log, or memory ran out.
#[derive(Debug, Drop)]
pub enum LogRefused {
    Fault(LogFault),
    Memory,
}
