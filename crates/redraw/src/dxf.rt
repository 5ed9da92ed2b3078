//! The written file of a solid that is made of grid cells.
//!
//! `dxf_of` takes any list of cells, on no condition; what it promises, it promises of each solid
//! that is the union of the chosen ones.

ghost use Rattle.std.specs.Prelude.{◌≡◌, ◌≤◌, ◌++◌, ◌+ℤ◌, List, pos, IfOk, OnOk};
ghost use Rattle.std.specs.List.{flat_map};
ghost use Rattle.solid_model.specs.declared.cell.Cell.{Cell};
ghost use Rattle.solid_model.specs.Cells.{IsSolid, is_full};
ghost use Rattle.solid_model.specs.Grid.{IsUnionOf};
ghost use Rattle.solid_model.specs.Limits.{farthest_in_view, most_decimals};
ghost use Rattle.lemmas.specs.Lists.{Each};
ghost use Rattle.solid_model.specs.Panels.{coordinates_of};
ghost use Rattle.redraw.specs.Files.{right_on_sheet, up_on_sheet, placed_lines, IsFileOf};
ghost use Rattle.redraw.specs.GridRuns.{last_line, IsUpTo, IsNearRun, IsNearPlace, AreNearRuns, sheet_text};
ghost use Rattle.redraw.specs.Plain.{line_text};

use crate::sheet::{last_line, sheet_of};
use crate::text::{Place, push_pair, push_view};
use columns::draw_cells;
use solid_model::{Grid, Memory, PerView, Runs, View, ViewLines};
use std::alloc::Global;

/// How far the top view stands above the front view, and the side view to the right of it.
const GAP: i64 = 10;

/// A place beyond all of these runs.
fn beyond(runs: &Runs) -> i64
    requires { Each IsNearRun runs.now }
    ensures value { result ≡ last_line runs.now +ℤ pos 10 }
    ensures near { IsUpTo (farthest_in_view +ℤ pos 10) result }
{
    last_line(runs) + GAP
}

/// Where a view stands on the sheet: the top view above the front view, the side view to its right.
fn place_of(sheet: &PerView<ViewLines>, view: View) -> Place
    requires { AreNearRuns sheet.now }
    ensures view { result.view ≡ view }
    ensures right { result.right ≡ right_on_sheet (last_line sheet.now.front.upright) view }
    ensures up { result.up ≡ up_on_sheet (last_line sheet.now.front.level) view }
    ensures near { IsNearPlace result }
{
    let front = sheet.view(View::Front);
    let beside = beyond(front.along(true));
    let above = beyond(front.along(false));
    let (right, up) = match view {
        View::Front => (0, 0),
        View::Top => (0, above),
        View::Side => (beside, 0),
    };
    Place { view, right, up }
}

/// Adds the lines of a view where it stands on the sheet.
fn push_placed(
    text: &mut Vec<u8>,
    sheet: &PerView<ViewLines>,
    view: View,
    decimals: u8,
) -> Result<(), Memory>
    requires near { AreNearRuns sheet.now }
    requires decimals { decimals ≤ most_decimals }
    ensures { OnOk result (text.new.items ≡ text.old.items ++ flat_map (line_text decimals)
        (placed_lines (last_line sheet.now.front.upright) (last_line sheet.now.front.level)
        sheet.now view)) }
{
    push_view(text, place_of(sheet, view), sheet.view(view), decimals)?;
    Ok(())
}

/// The capacity for the text of a sheet: 100 bytes for each line, which is more than it can take, and 40
/// for what stands around them.
fn capacity_for(sheet: &PerView<ViewLines>) -> usize {
    let mut lines: usize = 0;
    for view in [View::Front, View::Top, View::Side] {
        for upright in [false, true] {
            let runs = sheet.view(view).along(upright);
            lines = lines.saturating_add(runs.as_slice().len());
        }
    }
    lines.saturating_mul(100).saturating_add(40)
}

/// The text of a sheet, whose coordinates have so many decimals.
fn sheet_text(alloc: Global, sheet: &PerView<ViewLines>, decimals: u8) -> Result<Vec<u8>, Memory>
    requires near { AreNearRuns sheet.now }
    requires decimals { decimals ≤ most_decimals }
    ensures { IfOk result (λ text. text.items ≡ sheet_text decimals sheet.now) }
{
    let mut text = Vec::with_capacity(alloc, capacity_for(sheet))?;
    push_pair(&mut text, "0", "SECTION")?;
    push_pair(&mut text, "2", "ENTITIES")?;
    push_placed(&mut text, sheet, View::Front, decimals)?;
    push_placed(&mut text, sheet, View::Top, decimals)?;
    push_placed(&mut text, sheet, View::Side, decimals)?;
    push_pair(&mut text, "0", "ENDSEC")?;
    push_pair(&mut text, "0", "EOF")?;
    Ok(text)
}

/// The drawing of the solid that consists of the chosen cells of a grid, as the text of a DXF file:
/// a section of entities that has a line for each maximal run of visible, or of hidden, edges.
///
/// A line lies on the layer of its view, which is FRONT, TOP or SIDE, and its linetype is
/// CONTINUOUS where the run is visible and HIDDEN where it is hidden. Lines stand in order by view,
/// FRONT, TOP, SIDE; in each view the level ones come first, by height and then start, and then the
/// upright ones, by right coordinate and then start. Each goes from its lesser end to its greater
/// one. The front view has the solid's own coordinates, x to the right and z upwards; the top view
/// stands 10 units above all of the solid, the side view 10 units to the right of it.
///
/// The unit is one divided by ten to the power of `decimals`, which are at most 6: each coordinate
/// is divided by that power, and has so many digits behind the point. Cells are listed with z
/// slowest and x fastest; one that isn't in the list counts as not chosen. An `Err` is out of
/// memory.
pub fn dxf_of(alloc: Global, grid: &Grid, cells: &[bool], decimals: u8) -> Result<Vec<u8>, Memory>
    requires { decimals ≤ most_decimals }
    ensures { IfOk result (λ text. (s : List Cell) → IsSolid s
        → IsUnionOf (coordinates_of grid.now) cells.now (is_full s)
        → IsFileOf decimals s text.items) }
{
    let panels = draw_cells(alloc, grid, cells)?;
    let sheet = sheet_of(alloc, grid, &panels)?;
    sheet_text(alloc, &sheet, decimals)
}
