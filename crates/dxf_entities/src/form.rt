//! How a file is read.

ghost use Rattle.std.specs.Prelude.{◌≡◌, ◌≤◌};
ghost use Rattle.solid_model.specs.Limits.{most_decimals};

use crate::layer_set::LayerSet;
use std::marker::Model;

/// How a file is read: with how many decimals its coordinates are, at most 6, and which layers.
#[derive(Clone, Copy)]
pub struct ReadingForm {
    decimals: u8,
    layers: LayerSet,
}

impl Model for ReadingForm {
    ghost use Rattle.std.specs.Prelude.{◌≤◌};
    ghost use Rattle.solid_model.specs.Limits.{most_decimals};
    ghost use Rattle.dxf_entities.specs.Forms.{FormParts};

    ghost Value = { FormParts };

    ghost view = { λ f. record { decimals = f.decimals; layers = f.layers } };

    ghost invariant = { λ f. f.decimals ≤ most_decimals };

    ghost inverse = { λ f. record { decimals = f.decimals; layers = f.layers } };
}

impl ReadingForm {
    /// With these layers. At most 6 decimals can be read.
    pub fn new(layers: LayerSet, decimals: u8) -> ReadingForm
        requires { decimals ≤ most_decimals }
        ensures { result ≡ record { decimals = decimals; layers = layers } }
    {
        ReadingForm { decimals, layers }
    }

    /// How many decimals there are.
    pub fn decimals(self) -> u8
        ensures value { result ≡ self.decimals }
        ensures few { result ≤ most_decimals }
    {
        self.decimals
    }

    /// Which layers are read.
    pub fn layers(self) -> LayerSet
        ensures { result ≡ self.layers }
    {
        self.layers
    }
}
