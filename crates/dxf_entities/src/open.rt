//! The entry that is being read.

ghost use Rattle.std.specs.Prelude.{◌≡◌, OnOk};
ghost use Rattle.dxf_groups.specs.Pairs.{text_pair};
ghost use Rattle.dxf_entities.specs.Resuming.{opened_entry, with_own_pair};

use crate::facts::Facts;
use crate::form::ReadingForm;
use crate::kind::{Kind, kind_of};
use crate::layer_facts::LayerFacts;
use crate::named::Named;
use crate::names::is_name;
use crate::section::Section;
use dxf_groups::Pair;
use solid_model::Memory;
use std::alloc::Global;

/// An entry that no pair has ended yet.
#[derive(Drop)]
pub enum Open {
    /// None, or one that is passed over.
    Passed,
    /// An entry that gives a layer.
    Layer(LayerFacts),
    /// An entity that may draw lines of a view.
    Entity(Facts),
}

impl Open {
    /// The entry of a section that begins with this pair, which has this value.
    pub fn begun(alloc: Global, section: Section, pair: &Pair, value: &[u8]) -> Open
        ensures { result ≡ opened_entry section (text_pair pair.now value.now) }
    {
        match section {
            Section::Tables if is_name(b"LAYER", value) => Open::Layer(LayerFacts::NONE),
            Section::Entities if kind_of(value) != Kind::Other => {
                Open::Entity(Facts::begun(alloc, pair, value))
            }
            _ => Open::Passed,
        }
    }

    /// Takes one more pair, which has this value and belongs to no application. An entity that
    /// stands on a layer that isn't read is passed over from there on.
    pub fn take(&mut self, pair: &Pair, value: &[u8], form: ReadingForm) -> Result<(), Memory>
        ensures { OnOk result (self.new
            ≡ with_own_pair form (text_pair pair.now value.now) self.old) }
    {
        match self {
            Open::Passed => (),
            Open::Layer(facts) => *facts = facts.with(form, pair, value),
            Open::Entity(facts) => {
                facts.take(pair, value, form)?;
                if let Some(Named::Unread) = facts.layer {
                    *self = Open::Passed;
                }
            }
        }
        Ok(())
    }
}
