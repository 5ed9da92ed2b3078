//! Pages that were handed out, of each of which the choices that fit are written.

ghost use Rattle.std.specs.Prelude.{◌≡◌, ◌↔◌, ◌∷◌, [], List, Option, Some, None, ℕ, Bool, true, false, IfOk, OnOk, OnErr, ⊤};
ghost use Rattle.page_calls.specs.Pages.{Call, AddsCalls, CountsFaults, MayAddCall};
ghost use Rattle.sink_pages.specs.Gained.{HasGained};

use crate::next::{next_page, write_next};
use page_calls::{PageOut, Sieve};
use solid_model::{Choice, Memory, copy_choices};
use std::alloc::Global;
use std::marker::{Brand, Model, PhantomData};
use tv_base::{Sink, SinkError};

/// What a sink held when pages began to go to it, and which choices fit.
pub trait Begun {
    ghost held: { Option (List ℕ) };

    ghost fits: { List Bool → Type 0 };
}

impl Begun for Brand {
    ghost held = { None };

    ghost fits = { λ _. ⊤ };
}

/// A page that was handed out, and whether the sink took it.
#[derive(Drop)]
pub struct Told {
    number: u32,
    total: usize,
    choices: Vec<Choice>,
    accepted: bool,
}

/// Takes pages and writes their texts to a sink, each in one call: of each page the choices that
/// fit, and nothing where none does. It keeps the pages, so that it can tell what the sink gained.
/// Behind a page that was refused no other is written.
pub struct SinkPages<K: Sink, B: Begun, S: Sieve + Drop> {
    alloc: Global,
    sink: K,
    sieve: S,
    told: Vec<Told>,
    written: u32,
    choices: usize,
    refused: bool,
    begun: PhantomData<B>,
}

impl<K: Sink, B: Begun, S: Sieve + Drop> Model for SinkPages<K, B, S> {
    ghost use Rattle.std.specs.Prelude.{◌↔◌, Bool, List, map};
    ghost use Rattle.sink_pages.specs.Gained.{PagesState, HasGained};
    ghost use Rattle.sink_pages.specs.KeptCalls.{call_of};

    ghost Value = { PagesState };

    ghost view = { λ s. record {
      held = K.held s.sink;
      faults = K.faults s.sink;
      calls = map call_of s.told.items;
    } };

    ghost invariant = { λ s. HasGained B.fits s.refused B.held (K.held s.sink)
        (map call_of s.told.items) s.written s.choices
        × ((choice : List Bool) → S.fits s.sieve choice ↔ B.fits choice) };
}

impl<K: Sink, B: Begun, S: Sieve + Drop> SinkPages<K, B, S> {
    /// Pages begin to go to a sink, of which the choices are written that fit.
    pub fn begin(alloc: Global, sink: K, sieve: S) -> Self
        requires held { K.held sink ≡ B.held }
        requires fits { (choice : List Bool) → S.fits sieve choice ↔ B.fits choice }
        ensures { result ≡ record { held = K.held sink; faults = K.faults sink; calls = [] } }
    {
        SinkPages {
            alloc,
            sink,
            sieve,
            told: Vec::new(alloc),
            written: 0,
            choices: 0,
            refused: false,
            begun: PhantomData,
        }
    }

    /// The sink, to which no more pages go.
    pub fn into_sink(self) -> K
        ensures held { K.held result ≡ self.held }
        ensures faults { K.faults result ≡ self.faults }
        ensures told { (refused : Bool) × (number : ℕ) × (total : ℕ)
            × HasGained B.fits refused B.held self.held self.calls number total }
    {
        let Self {
            alloc: _,
            sink,
            sieve,
            told,
            written: _,
            choices: _,
            refused: _,
            begun: _,
        } = self;
        drop(sieve);
        drop(told);
        sink
    }
}

impl<K: Sink, B: Begun, S: Sieve + Drop> PageOut for SinkPages<K, B, S> {
    ghost calls = { λ s. Some s.calls };

    ghost faults = { λ s. s.faults };

    fn page(&mut self, number: u32, total: usize, more: &[Choice]) -> Result<(), SinkError> {
        if self.refused {
            return Err(SinkError::Memory);
        }
        let Ok(choices) = copy_choices(self.alloc, more) else {
            return Err(SinkError::Memory);
        };
        let own = next_page(
            self.alloc,
            &mut self.sieve,
            self.written,
            self.choices,
            more,
        );
        let Ok(next) = own else {
            return Err(SinkError::Memory);
        };
        self.told.reserve(1)?;
        let written = write_next(&next, &mut self.sink);
        self.refused = written.is_err();
        self.written = next.number;
        self.choices = next.total;
        self.told.push_reserved(Told {
            number,
            total,
            choices,
            accepted: written.is_ok(),
        });
        written
    }
}
