//! Where the planes of sections lie.

ghost use Rattle.std.specs.Prelude.{◌≡◌};
ghost use Rattle.file_problem.specs.Cuts.{cuts_box, first_uncut, some_before, some_behind};

use dxf_entities::{Layer, LayerLine};
use solid_model::Grid;

/// Some of the coordinates lie before a plane.
fn some_before(coordinates: &[i64], plane: i64) -> bool
    ensures { result ≡ some_before coordinates.now plane }
{
    coordinates.iter().any(|z| *z < plane)
}

/// Some of them lie behind it.
fn some_behind(coordinates: &[i64], plane: i64) -> bool
    ensures { result ≡ some_behind coordinates.now plane }
{
    coordinates.iter().any(|z| *z > plane)
}

/// A layer's plane lies strictly within the box of a grid; a view that is whole has none.
fn cuts_box(grid: &Grid, layer: Layer) -> bool
    ensures { result ≡ cuts_box grid.now layer }
{
    let Some(cut) = layer.cut else {
        return true;
    };
    let coordinates = grid.coordinates(layer.view.frame().away.axis);
    some_before(coordinates, cut.at) && some_behind(coordinates, cut.at)
}

/// Of lines the first whose layer's plane doesn't: the line of the file at which its entity begins.
pub fn first_uncut(grid: &Grid, lines: &[LayerLine]) -> Option<u32>
    ensures { result ≡ first_uncut grid.now lines.now }
{
    for line in lines {
        if !cuts_box(grid, line.layer) {
            return Some(line.line.line);
        }
    }
    None
}
