//! What a file's lines ask for beside the three main views.

ghost use Rattle.std.specs.Prelude.{◌≡◌, IfOk, IfSome, MatchOption};
ghost use Rattle.solid_model.specs.declared.segment.Segment.{Segment};
ghost use Rattle.solid_model.specs.Drawings.{drawing_of, IsEmptyView};
ghost use Rattle.further_views.specs.Further.{further_lines, view_style, AreFurtherOf};
ghost use Rattle.further_views.specs.Layers.{lines_by_key, AreLayersOf};

use crate::further::{AskedView, Further};
use dxf_entities::{Layer, LayerKey, LayerLine};
use solid_model::{Memory, SheetLine, ViewLines};
use std::alloc::Global;
use std::collections::{BTreeMap, BTreeSet};
use views::view_of;

/// The layers of lines, each once, in the order of their first lines.
fn layers_of(alloc: Global, lines: &[LayerLine]) -> Result<Vec<Layer>, Memory>
    ensures { IfOk result (λ layers. AreLayersOf lines.now layers.items) }
{
    let mut layers = Vec::new(alloc);
    let mut listed = BTreeSet::new(alloc);
    for line in lines {
        if listed.insert(line.layer.key())? {
            layers.push(line.layer)?;
        }
    }
    Ok(layers)
}

/// The lines of each layer, as lines of its view, by its key.
fn lines_by_layer(
    alloc: Global,
    lines: &[LayerLine],
) -> Result<BTreeMap<LayerKey, Vec<SheetLine>>, Memory>
    ensures { IfOk result (λ own. (l : Layer) → lines_by_key own l ≡ further_lines lines.now l) }
{
    let mut own = BTreeMap::new(alloc);
    for line in lines {
        let key = line.layer.key();
        let mut more = own.remove(&key).unwrap_or(Vec::new(alloc));
        more.push(line.line)?;
        own.insert(key, more)?;
    }
    Ok(own)
}

/// The runs of a layer, whose lines stand at its key; `None` exactly where no line covers anything
/// of it.
fn layer_view(
    alloc: Global,
    own: &BTreeMap<LayerKey, Vec<SheetLine>>,
    layer: Layer,
) -> Result<Option<ViewLines>, Memory>
    ensures drawn { IfOk result (λ shown. IfSome shown (λ runs. (g : Segment)
        → g.view ≡ layer.view
        → view_style runs g ≡ drawing_of (lines_by_key own.now layer) g)) }
    ensures shown { IfOk result (λ shown. MatchOption shown
        (IsEmptyView (lines_by_key own.now layer) layer.view)
        (λ runs. IsEmptyView (lines_by_key own.now layer) layer.view → ⊥)) }
{
    match own.get(&layer.key()) {
        Some(lines) => view_of(alloc, lines, layer.view),
        None => Ok(None),
    }
}

/// What these lines ask for: the runs of each layer of which a line covers something, shifted so
/// that its least right and its least up coordinate are 0. Each layer stands there once, in the
/// order of their first lines. An `Err` is out of memory.
pub fn further_of(alloc: Global, lines: &[LayerLine]) -> Result<Further, Memory>
    ensures { IfOk result (λ further. AreFurtherOf (further_lines lines.now) further) }
{
    let layers = layers_of(alloc, lines)?;
    let own = lines_by_layer(alloc, lines)?;
    let mut views = Vec::new(alloc);
    for layer in layers.as_slice() {
        if let Some(runs) = layer_view(alloc, &own, *layer)? {
            views.push(AskedView {
                layer: *layer,
                lines: runs,
            })?;
        }
    }
    Ok(Further::new(views))
}
