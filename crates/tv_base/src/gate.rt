//! Where workers may be held up.

/// A point in a worker's run at which it passes the gate.
#[derive(Clone, Copy, Debug, PartialEq, Eq)]
pub enum Point {
    /// Before a piece of the search is expanded.
    BeforeExpand,
    /// After a report was taken in.
    AfterReport,
    /// After a page was written.
    PageWritten,
}

/// Is passed by each worker at its points. Threads share a gate, and it may wait: nothing is
/// claimed of it.
pub trait Gate: Sync {
    /// Is called by the worker of this number at this point.
    fn pass(&self, worker: u32, point: Point);
}

/// A gate that lets each worker pass at once.
#[derive(Clone, Copy, Debug, Default, PartialEq, Eq)]
pub struct OpenGate;

impl Gate for OpenGate {
    fn pass(&self, _worker: u32, _point: Point) {}
}
