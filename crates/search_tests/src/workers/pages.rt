//! Pages that are refused.

use super::{TWICE_EIGHT_VOIDS, searched, workers_of};
use crate::searches::problem;
use search_run::{PageOut, RunFault};
use solid_model::{Choice, Limits};
use std::alloc::Global;
use std::sync::Wait;
use std::test::*;
use std::thread::Threads;
use test_files::{Row, lines_hold, row_of};
use tv_base::{OpenGate, SinkError};

/// Takes so many pages and refuses the next one.
#[derive(Drop)]
pub struct Refusing {
    taken: u32,
    most: u32,
    faults: u64,
}

impl Refusing {
    /// Takes so many pages.
    pub fn after(most: u32) -> Refusing {
        Refusing {
            taken: 0,
            most,
            faults: 0,
        }
    }
}

impl PageOut for Refusing {
    ghost use Rattle.std.specs.Prelude.{None};

    ghost calls = { λ _. None };

    ghost faults = { λ s. s.faults };

    fn page(&mut self, _number: u32, _total: usize, _more: &[Choice]) -> Result<(), SinkError> {
        if self.taken < self.most {
            self.taken += 1;
            Ok(())
        } else {
            self.faults = self.faults.saturating_add(1);
            Err(SinkError::Failed)
        }
    }
}

/// Whether the search of the cubes with eight voids by a row's workers ends with the page that
/// comes after as many as the row has.
fn ends_so<R: Threads + Wait + Sync>(rt: &R, alloc: Global, row: Row<'_>) -> Result<bool, Fail> {
    let [workers, most, ..] = row.parts;
    let most = most.parse().unwrap_or(0);
    let mut pages = Refusing::after(most);
    let problem = problem(alloc, [TWICE_EIGHT_VOIDS; 3])?;
    let limits = Limits::DEFAULT;
    let workers = workers_of(workers);
    match searched(rt, alloc, problem, limits, workers, &OpenGate, &mut pages) {
        Err(RunFault::PageFault) => Ok(pages.faults == 1 && pages.taken == most),
        _ => Ok(false),
    }
}

/// A row a search: the number of workers, and how many pages are taken before one is refused.
const REFUSED: &str = "\
1; 0
2; 0
8; 0
1; 3
2; 3
8; 3";

#[test]
fn a_refused_page_ends_the_search(rt: HostRuntime) -> Result<(), Fail> {
    lines_hold(REFUSED, |line| ends_so(&rt, rt.alloc(), row_of(line)))
}
