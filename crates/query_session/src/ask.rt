//! What a reader is asked, and what it tells.

use solid_model::{Choice, Memory};
use solution_book::Page;
use std::sync::Wait;

/// What a reader is asked.
#[derive(Clone, Copy)]
pub enum Ask {
    /// A page: the part of the published list from a place on, at most so long.
    Page { from: usize, most: usize },
    /// To wait until so many solids are published, or no more will be.
    Wait { count: usize },
    /// To stop the search.
    Stop,
}

/// One asking: which reader is asked, from 0, and what.
#[derive(Clone, Copy)]
pub struct Asking {
    pub reader: usize,
    pub ask: Ask,
}

/// What a reader tells: the pages that it was asked for, in order, and the whole list that was
/// published at last.
#[derive(Drop)]
pub struct ReaderTale {
    pub pages: Vec<Page>,
    pub last: Vec<Choice>,
}

/// What is wrong with a line of askings.
#[derive(Clone, Copy)]
pub enum AskKind {
    /// It isn't of a form that may stand there.
    BadLine,
    /// As many askings stand before it as there may be, and it isn't `go`.
    TooMany,
    /// The bytes end before `go`.
    NoGo,
}

/// The first line that is refused, counted from 1, and why.
#[derive(Clone, Copy)]
pub struct AskFault {
    pub kind: AskKind,
    pub line: u32,
}

/// An `Err` of the reading of askings: the first line that is refused, or out of memory.
#[derive(Clone, Copy)]
pub enum AskRefused {
    Fault(AskFault),
    Memory,
}

impl From<Memory> for AskRefused {
    ghost use Rattle.std.specs.Prelude.{◌≡◌};
    ghost use Rattle.query_session.specs.declared.ask.AskRefused.TheVariants.{Memory};

    ghost from_gives = { λ _ e. e ≡ Memory };

    fn from(_: Memory) -> Self {
        AskRefused::Memory
    }
}

/// Who waits for a search, and stops it. Nothing is claimed of what it does.
pub trait Waiter {
    /// Returns once so many solids are published, or no more will be.
    fn wait_for<R: Wait>(&self, rt: &R, count: usize);

    /// Stops the search.
    fn stop<R: Wait>(&self, rt: &R);
}
