//! Linetypes, by their names.

ghost use Rattle.std.specs.Prelude.{◌≡◌};
ghost use Rattle.dxf_groups.specs.Pairs.{text_pair};
ghost use Rattle.dxf_entities.specs.Names.{is_center, is_continuous, is_hidden_linetype, linetype_of};
ghost use Rattle.dxf_entities.specs.Resuming.{or_first};

use crate::codes::has_code;
use crate::names::is_name;
use dxf_groups::Pair;

/// What a linetype's name means.
#[derive(Clone, Copy, PartialEq, Eq)]
pub enum Linetype {
    /// A visible edge.
    Continuous,
    /// A hidden edge.
    Hidden,
    /// A centre line, which is no edge.
    Center,
    /// The linetype of the layer.
    ByLayer,
    /// None of those that have a meaning here.
    Unlisted,
}

impl Linetype {
    ghost use Rattle.dxf_entities.specs.Judging.{by_layer};

    /// This linetype, or that of a layer where it is BYLAYER; a layer without one is CONTINUOUS.
    pub fn or_of_layer(self, layer: Option<Linetype>) -> Linetype
        ensures { result ≡ by_layer self layer }
    {
        if self == Linetype::ByLayer {
            layer.unwrap_or(Linetype::Continuous)
        } else {
            self
        }
    }
}

/// Whether a linetype is one of visible edges.
fn is_continuous(value: &[u8]) -> bool
    ensures { result ≡ is_continuous value.now }
{
    is_name(b"CONTINUOUS", value) || is_name(b"BYBLOCK", value)
}

/// Whether a linetype is one of hidden edges.
fn is_hidden_linetype(value: &[u8]) -> bool
    ensures { result ≡ is_hidden_linetype value.now }
{
    is_name(b"HIDDEN", value)
        || is_name(b"HIDDEN2", value)
        || is_name(b"HIDDENX2", value)
        || is_name(b"DASHED", value)
        || is_name(b"DASHED2", value)
        || is_name(b"DASHEDX2", value)
}

/// Whether a linetype is one of centre lines.
fn is_center(value: &[u8]) -> bool
    ensures { result ≡ is_center value.now }
{
    is_name(b"CENTER", value) || is_name(b"CENTER2", value) || is_name(b"CENTERX2", value)
}

/// What a linetype's name means.
#[tactic(auto, unfolding(crate::specs::Names::linetype_of))]
pub fn linetype_of(value: &[u8]) -> Linetype
    ensures { result ≡ linetype_of value.now }
{
    if is_continuous(value) {
        Linetype::Continuous
    } else if is_hidden_linetype(value) {
        Linetype::Hidden
    } else if is_center(value) {
        Linetype::Center
    } else if is_name(b"BYLAYER", value) {
        Linetype::ByLayer
    } else {
        Linetype::Unlisted
    }
}

/// A linetype, where it is known, or one more pair with this value tells it.
#[inline(always)]
pub fn first_linetype(known: Option<Linetype>, pair: &Pair, value: &[u8]) -> Option<Linetype>
    ensures { result ≡ or_first 6 linetype_of (text_pair pair.now value.now) known }
{
    if known.is_none() && has_code(pair, 6) {
        Some(linetype_of(value))
    } else {
        known
    }
}
