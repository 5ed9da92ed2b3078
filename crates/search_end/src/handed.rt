//! What has been handed out so far.

use page_calls::{PageOut, RunFault};
use solid_model::Choice;
use std::alloc::Global;
use std::marker::Model;
use tv_base::SinkError;

/// The most choices of a page.
pub const PAGE: usize = 256;

/// The choices that were handed out, and in how many calls.
#[derive(Drop)]
pub struct Handed {
    choices: Vec<Choice>,
    pages: u32,
}

impl Model for Handed {
    ghost use Rattle.std.specs.Prelude.{◌≤◌, length};
    ghost use Rattle.search_end.specs.Handed.{HandedParts};

    ghost Value = { HandedParts };

    ghost view = { λ s. record { choices = s.choices.items; pages = s.pages } };

    ghost invariant = { λ s. s.pages ≤ length s.choices.items };
}

impl Handed {
    ghost use Rattle.std.specs.Prelude.{◌≡◌, ◌≤◌, ◌+◌, ◌++◌, [], ℕ, length, OnOk, MatchResult};
    ghost use Rattle.solid_model.specs.Blocks.{ProblemParts};
    ghost use Rattle.solid_model.specs.Limits.{most_page_choices, most_solid_limit};
    ghost use Rattle.search_end.specs.Handed.{AreFewSolutions, BreaksOff, HandsOn};
    ghost use Rattle.page_calls.specs.Pages.{CountsFaults};

    /// Nothing has been handed out.
    pub fn new(alloc: Global) -> Handed
        ensures { result ≡ record { choices = []; pages = 0 } }
    {
        Handed {
            choices: Vec::new(alloc),
            pages: 0,
        }
    }

    /// These were told before, in no call.
    pub fn told(choices: Vec<Choice>) -> Handed
        ensures { result ≡ record { choices = choices.items; pages = 0 } }
    {
        Handed { choices, pages: 0 }
    }

    /// The choices that were handed out.
    pub fn choices(&self) -> &[Choice]
        ensures { result.now ≡ self.now.choices }
    {
        self.choices.as_slice()
    }

    /// The same, handed over.
    pub fn into_choices(self) -> Vec<Choice>
        ensures { result.items ≡ self.choices }
    {
        self.choices
    }

    /// Hands out a page. An `Err` is that of the call, or out of memory. Since whatever list of
    /// calls all earlier pages were added, there is one page more then, or the last one was
    /// refused.
    pub fn hand_out<P: PageOut>(&mut self, pages: &mut P, more: Vec<Choice>) -> Result<(), RunFault>
        requires some { 1 ≤ length more.items }
        requires few { length more.items ≤ most_page_choices }
        requires room { length self.old.choices + length more.items ≤ most_solid_limit }
        ensures choices { OnOk result (self.new.choices ≡ self.old.choices ++ more.items) }
        ensures out { MatchResult result
            (λ _. HandsOn (P.calls pages.old) self.old (P.calls pages.new) self.new)
            (λ _. (p : ProblemParts) → (most : ℕ)
            → AreFewSolutions p most (self.old.choices ++ more.items)
            → BreaksOff p most (P.calls pages.old) self.old (P.calls pages.new)) }
        ensures faults { CountsFaults (P.faults pages.old) (P.faults pages.new) result
            RunFault.PageFault }
    {
        let mut more = more;
        if self.choices.reserve(more.len()).is_err() {
            return Err(RunFault::Memory);
        }
        let total = self.choices.len() + more.len();
        match pages.page(self.pages + 1, total, more.as_slice()) {
            Ok(()) => {
                self.pages += 1;
                let _moved = self.choices.append(&mut more);
                Ok(())
            }
            Err(SinkError::Failed) => Err(RunFault::PageFault),
            Err(SinkError::Memory) => Err(RunFault::Memory),
        }
    }
}
