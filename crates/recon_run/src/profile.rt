//! How an input is read.

ghost use Rattle.std.specs.Prelude.{◌≡◌};
ghost use Rattle.recon_run.specs.Owed.{layers_or};

use dxf_entities::{LayerSet, ReadingForm};
use std::marker::Model;

/// The most bytes of a drawing.
const MOST_BYTES: usize = 16_777_216;

/// The most bytes of a drawing and a log behind it.
const MOST_WITH_LOG: usize = 134_217_728;

/// The layers that are read where sections are asked for, and else these.
pub fn layers_or(sections: bool, layers: LayerSet) -> LayerSet
    ensures { result ≡ layers_or sections layers }
{
    if sections { LayerSet::Sections } else { layers }
}

/// How an input is read: how many bytes it may have at most; in which form: how many decimals its
/// coordinates have, and which layers are read; and whether two of the three views are enough.
#[derive(Drop)]
pub struct Profile {
    most: usize,
    form: ReadingForm,
    two_views: bool,
}

impl Model for Profile {
    ghost use Rattle.std.specs.Prelude.{◌≤◌};
    ghost use Rattle.recon_run.specs.Owed.{ProfileParts};
    ghost use Rattle.solid_model.specs.Limits.{most_text_bytes};

    ghost Value = { ProfileParts };

    ghost view = { λ p. record {
      most = p.most;
      decimals = p.form.decimals;
      layers = p.form.layers;
      two = p.two_views;
    } };

    ghost invariant = { λ p. p.most ≤ most_text_bytes };
}

impl Profile {
    ghost use Rattle.std.specs.Prelude.{◌≡◌, ◌≤◌};
    ghost use Rattle.recon_run.specs.Owed.{drawing_profile, log_profile};
    ghost use Rattle.solid_model.specs.Limits.{most_decimals, most_text_bytes};

    /// A drawing alone, of which these layers are read, whose coordinates have so many decimals, at
    /// most 6.
    pub fn drawing(layers: LayerSet, decimals: u8, two_views: bool) -> Profile
        requires { decimals ≤ most_decimals }
        ensures { result ≡ drawing_profile layers decimals two_views }
    {
        Profile {
            most: MOST_BYTES,
            form: ReadingForm::new(layers, decimals),
            two_views,
        }
    }

    /// The same with a log behind it, whose coordinates have no decimals.
    pub fn with_log(layers: LayerSet, two_views: bool) -> Profile
        ensures { result ≡ log_profile layers two_views }
    {
        Profile {
            most: MOST_WITH_LOG,
            form: ReadingForm::new(layers, 0),
            two_views,
        }
    }

    /// It takes no more bytes than a text may have.
    pub fn known(&self)
        ensures { self.now.most ≤ most_text_bytes }
    {
        let _ = &self.most;
    }

    /// How many bytes the input may have at most.
    pub fn most(&self) -> usize
        ensures most { result ≡ self.now.most }
        ensures few { result ≤ most_text_bytes }
    {
        self.most
    }

    /// The form in which it is read.
    pub fn form(&self) -> ReadingForm
        ensures decimals { result.decimals ≡ self.now.decimals }
        ensures layers { result.layers ≡ self.now.layers }
    {
        self.form
    }

    /// Whether two of the three views are enough: then one of them may show nothing.
    pub fn two_views(&self) -> bool
        ensures { result ≡ self.now.two }
    {
        self.two_views
    }

    /// How many decimals its coordinates are read with.
    pub fn decimals(&self) -> u8
        ensures decimals { result ≡ self.now.decimals }
        ensures few { result ≤ most_decimals }
    {
        self.form.decimals()
    }
}
