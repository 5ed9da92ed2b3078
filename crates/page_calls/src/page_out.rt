//! Where pages go.
//!
//! Page after page is told for every list of calls before: each inner call says that if such pages
//! were added since any earlier list of calls, one more is after it; so the calls chain with
//! nothing kept beside them. A page that is refused counts among the calls, or leaves no trace, as
//! its taker decides; want of memory in a taker is the search's.

ghost use Rattle.std.specs.Prelude.{◌≡◌, ◌∷◌, [], None, List, Option, ℕ, true, false, OnOk, OnErr};
ghost use Rattle.page_calls.specs.Pages.{Call, AddsCalls, CountsFaults, MayAddCall};

use solid_model::{Choice, Memory};
use tv_base::SinkError;

/// Takes choices, page by page.
pub trait PageOut {
    /// The calls so far, where they are told.
    ghost calls: { Self → Option (List Call) };

    /// How often it has failed. The count stands still at the greatest `u64`.
    ghost faults: { Self → ℕ };

    /// Whether pages are wanted while a search goes on. Where they aren't, all come at its end. No
    /// clause rests on it.
    fn listens(&self) -> bool {
        true
    }

    /// Takes a page: its number, how many choices it and those before it have, and its choices. At
    /// an `Err` the call was added as a refused one, or none was: `Failed` comes only where the
    /// count of faults rose in this call, `Memory` where memory ran out.
    fn page(&mut self, number: u32, total: usize, more: &[Choice]) -> Result<(), SinkError>
        ensures accepted { OnOk result (AddsCalls (calls self.old) (calls self.new) (record {
          number = number;
          total = total;
          choices = more.now;
          accepted = true;
        } ∷ [])) }
        ensures refused { OnErr result (MayAddCall (calls self.old) (calls self.new) record {
          number = number;
          total = total;
          choices = more.now;
          accepted = false;
        }) }
        ensures faults { CountsFaults (faults self.old) (faults self.new) result
            SinkError.Failed };
}

/// Why a search has no answer.
#[derive(Clone, Copy, Debug, PartialEq, Eq)]
pub enum RunFault {
    /// A page was refused, since its taker failed.
    PageFault,
    /// Out of memory.
    Memory,
}

impl From<Memory> for RunFault {
    ghost use Rattle.std.specs.Prelude.{◌≡◌};
    ghost use Rattle.page_calls.specs.declared.page_out.RunFault.TheVariants.{Memory};

    ghost from_gives = { λ _ e. e ≡ Memory };

    fn from(_: Memory) -> Self {
        RunFault::Memory
    }
}

/// Takes all pages, keeps none and tells nothing; it never fails.
#[derive(Clone, Copy, Debug, Default, PartialEq, Eq)]
pub struct NoPages;

impl PageOut for NoPages {
    ghost calls = { λ _. None };

    ghost faults = { λ _. 0 };

    fn listens(&self) -> bool {
        false
    }

    fn page(&mut self, _number: u32, _total: usize, _more: &[Choice]) -> Result<(), SinkError> {
        Ok(())
    }
}
