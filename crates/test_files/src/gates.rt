//! A gate that holds workers.

use std::sync::atomic::{AtomicU64, Ordering};
use std::thread;
use tv_base::{Gate, Point};

/// A worker is held for so many turns before each expansion. A turn is one yield.
const TURNS: u32 = 20_000;

/// Holds each worker for some turns at an expansion's beginning, and counts how often.
#[derive(Drop)]
pub struct Slow {
    held: AtomicU64,
}

impl Slow {
    /// No worker was held yet.
    pub fn new() -> Slow {
        Slow {
            held: AtomicU64::new(0),
        }
    }

    /// Whether some worker was held.
    pub fn has_held(&self) -> bool {
        self.held.load(Ordering::SeqCst) > 0
    }
}

impl Gate for Slow {
    fn pass(&self, _worker: u32, point: Point) {
        if point != Point::BeforeExpand {
            return;
        }
        for _ in 0..TURNS {
            thread::yield_now();
        }
        self.held.fetch_add(1, Ordering::SeqCst);
    }
}
