//! The linetypes of layers.

ghost use Rattle.std.specs.Prelude.{◌≡◌, OnOk};
ghost use Rattle.dxf_entities.specs.declared.layer.Layer.{Layer};
ghost use Rattle.dxf_entities.specs.Reading.{layers_with};
ghost use Rattle.dxf_entities.specs.Resuming.{layer_linetype};

use crate::layer::{Layer, LayerKey};
use crate::layer_facts::LayerFacts;
use crate::linetype::Linetype;
use crate::named::Named;
use solid_model::Memory;
use std::alloc::Global;
use std::collections::BTreeMap;

/// The linetypes that the entries so far give layers; each layer has one.
#[derive(Drop)]
pub struct Layers {
    pub linetypes: BTreeMap<LayerKey, Linetype>,
}

impl Layers {
    /// None has one.
    pub fn new(alloc: Global) -> Layers
        ensures { (l : Layer) → layer_linetype result l ≡ None }
    {
        Layers {
            linetypes: BTreeMap::new(alloc),
        }
    }

    /// The linetype of a layer.
    pub fn of(&self, layer: Layer) -> Option<Linetype>
        ensures { result ≡ layer_linetype self.now layer }
    {
        self.linetypes.get(&layer.key()).copied()
    }

    /// Adds what a layer's entry tells; the first entry of a layer counts.
    pub fn add(&mut self, entry: LayerFacts) -> Result<(), Memory>
        ensures { OnOk result ((l : Layer) → layer_linetype self.new l
            ≡ layers_with entry.name entry.linetype (layer_linetype self.old) l) }
    {
        let Some(Named::Shows(layer)) = entry.name else {
            return Ok(());
        };
        if self.of(layer).is_none() {
            let linetype = entry.linetype.unwrap_or(Linetype::Continuous);
            self.linetypes.insert(layer.key(), linetype)?;
        }
        Ok(())
    }
}
