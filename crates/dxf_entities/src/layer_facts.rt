//! What counts of a layer's entry.

use crate::form::ReadingForm;
use crate::linetype::{Linetype, first_linetype};
use crate::named::Named;
use crate::names::take_layer;
use dxf_groups::Pair;

/// What counts of a layer's entry.
#[derive(Clone, Copy)]
pub struct LayerFacts {
    /// What its name tells, where there is one.
    pub name: Option<Named>,
    pub linetype: Option<Linetype>,
}

impl LayerFacts {
    ghost use Rattle.std.specs.Prelude.{◌≡◌, Some, IsTrue};
    ghost use Rattle.dxf_groups.specs.Pairs.{text_pair};
    ghost use Rattle.dxf_entities.specs.declared.named.Named.TheVariants.{Unread};
    ghost use Rattle.dxf_entities.specs.Resuming.{with_layer_fact};

    /// Nothing is told.
    pub const NONE: LayerFacts = LayerFacts {
        name: None,
        linetype: None,
    };

    /// Whether the name is told and is none of a layer that is read, so that nothing more counts.
    pub fn is_unread(&self) -> bool
        ensures { IsTrue result → self.now.name ≡ Some Unread }
    {
        match self.name {
            Some(Named::Unread) => true,
            _ => false,
        }
    }

    /// Those with one more pair, which has this value and belongs to no application.
    pub fn with(self, form: ReadingForm, pair: &Pair, value: &[u8]) -> LayerFacts
        ensures { result ≡ with_layer_fact form (text_pair pair.now value.now) self }
    {
        let mut name = self.name;
        take_layer(&mut name, 2, form, pair, value);
        LayerFacts {
            name,
            linetype: first_linetype(self.linetype, pair, value),
        }
    }
}
