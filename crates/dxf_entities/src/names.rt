//! Names that have a meaning in a file.

ghost use Rattle.std.specs.Prelude.{◌≡◌, ◌≤◌, option_map};
ghost use Rattle.solid_model.specs.Limits.{most_decimals};
ghost use Rattle.dxf_groups.specs.Pairs.{text_pair};
ghost use Rattle.dxf_entities.specs.Names.{bar_place, before_bar, behind, behind_bar, cut_named, further_on, is_name, layer_on, main_on, other_on, section_on};
ghost use Rattle.dxf_entities.specs.Resuming.{or_first};

use crate::codes::has_code;
use crate::form::ReadingForm;
use crate::layer::{Cut, Layer};
use crate::layer_set::LayerSet;
use crate::named::Named;
use dxf_groups::{Pair, scaled};
use solid_model::View;

/// Whether a value is this name, ASCII case ignored.
pub fn is_name(name: &[u8], value: &[u8]) -> bool
    ensures { result ≡ is_name name.now value.now }
{
    value.eq_ignore_ascii_case(name)
}

/// The layer of a main view that has this name.
fn main_on(value: &[u8]) -> Option<Layer>
    ensures { result ≡ main_on value.now }
{
    let view = if is_name(b"FRONT", value) {
        View::Front
    } else if is_name(b"TOP", value) {
        View::Top
    } else if is_name(b"SIDE", value) {
        View::Side
    } else {
        return None;
    };
    Some(Layer {
        view,
        opposite: false,
        cut: None,
    })
}

/// The layer of a further view that has this name.
fn further_on(value: &[u8]) -> Option<Layer>
    ensures { result ≡ further_on value.now }
{
    let view = if is_name(b"LEFT", value) {
        View::Side
    } else if is_name(b"REAR", value) {
        View::Front
    } else if is_name(b"BOTTOM", value) {
        View::Top
    } else {
        return None;
    };
    Some(Layer {
        view,
        opposite: true,
        cut: None,
    })
}

/// Where the first `_` of a text stands, or its end.
fn bar_place(text: &[u8]) -> usize
    ensures { result ≡ bar_place text.now }
{
    text.iter().position(|b| *b == b'_').unwrap_or(text.len())
}

/// What stands before the first `_`, and what behind it.
fn split_at_bar(text: &[u8]) -> (&[u8], &[u8])
    ensures before { result.0.now ≡ before_bar text.now }
    ensures behind { result.1.now ≡ behind_bar text.now }
{
    let end = bar_place(text);
    let (before, rest) = text.split_at(end);
    match rest {
        [_, behind @ ..] => (before, behind),
        [] => (before, rest),
    }
}

/// The section or the area that is named so: `VIEW_N`.
fn cut_named(decimals: u8, area: bool, text: &[u8]) -> Named
    requires { decimals ≤ most_decimals }
    ensures { result ≡ cut_named decimals area text.now }
{
    let (name, place) = split_at_bar(text);
    let Some(view) = main_on(name).or(further_on(name)) else {
        return Named::Misnamed;
    };
    match scaled(place, decimals) {
        Ok(at) => Named::Shows(Layer {
            cut: Some(Cut { at, area }),
            ..view
        }),
        Err(_) => Named::Misnamed,
    }
}

/// What stands behind this, where a value begins with it.
fn behind<'a>(start: &[u8], value: &'a [u8]) -> Option<&'a [u8]>
    ensures { option_map (λ rest. rest.now) result ≡ behind start.now value.now }
{
    let (first, rest) = value.split_at_checked(start.len())?;
    if is_name(start, first) {
        Some(rest)
    } else {
        None
    }
}

/// What the name of a section or an area tells.
fn section_on(decimals: u8, value: &[u8]) -> Named
    requires { decimals ≤ most_decimals }
    ensures { result ≡ section_on decimals value.now }
{
    if let Some(text) = behind(b"SECTION_", value) {
        cut_named(decimals, false, text)
    } else if let Some(text) = behind(b"AREA_", value) {
        cut_named(decimals, true, text)
    } else {
        Named::Unread
    }
}

/// What a name tells that is none of a main view.
fn other_on(form: ReadingForm, value: &[u8]) -> Named
    ensures { result ≡ other_on form.layers form.decimals value.now }
{
    if form.layers() == LayerSet::Main {
        return Named::Unread;
    }
    if let Some(layer) = further_on(value) {
        return Named::Shows(layer);
    }
    if form.layers() == LayerSet::Six {
        return Named::Unread;
    }
    section_on(form.decimals(), value)
}

/// What the name of a layer tells.
#[tactic(auto, unfolding(crate::specs::Names::layer_on))]
pub fn layer_on(form: ReadingForm, value: &[u8]) -> Named
    ensures { result ≡ layer_on form value.now }
{
    match main_on(value) {
        Some(layer) => Named::Shows(layer),
        None => other_on(form, value),
    }
}

/// Takes what the name of an entry's layer tells, where it isn't known, and one more pair with this
/// value and this code tells it. It stays where it is, since most pairs tell nothing of it.
#[inline(always)]
pub fn take_layer(
    known: &mut Option<Named>,
    code: u16,
    form: ReadingForm,
    pair: &Pair,
    value: &[u8],
)
    ensures { known.new ≡ or_first code (layer_on form) (text_pair pair.now value.now) known.old }
{
    if known.is_none() && has_code(pair, code) {
        *known = Some(layer_on(form, value));
    }
}
