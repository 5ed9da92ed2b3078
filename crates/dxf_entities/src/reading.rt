//! The lines that a file keeps.

ghost use Rattle.std.specs.Prelude.{◌≡◌, ◌≤◌, Ok, Err, IfOk, OnOk, IsErrOf};
ghost use Rattle.solid_model.specs.declared.fault.Fault.{Fault};
ghost use Rattle.solid_model.specs.declared.fault.Refused.TheVariants as refused;
ghost use Rattle.solid_model.specs.Limits.{most_decimals};
ghost use Rattle.dxf_groups.specs.Groups.{IsReadThrough};
ghost use Rattle.dxf_groups.specs.Pairs.{pairs_of};
ghost use Rattle.dxf_entities.specs.Apart.{lines_read};
ghost use Rattle.dxf_entities.specs.Forms.{six_views};
ghost use Rattle.dxf_entities.specs.Reading.{main_lines, other_lines, read_of, text_read};

use crate::form::ReadingForm;
use crate::layer_line::LayerLine;
use crate::layer_set::LayerSet;
use crate::reader::Reader;
use dxf_groups::Groups;
use solid_model::{Memory, Refused, SheetLine};
use std::alloc::Global;

/// The lines of the three views that a file keeps, in its order, read to the pair that ends it, as
/// whole numbers of units of ten to the power of minus `decimals`, which are at most 6. The file is
/// ASCII DXF (Autodesk's DXF Reference). Of its sections TABLES and ENTITIES are read, and the
/// others passed over. An entity counts where its layer (group code 8) is FRONT, TOP or SIDE and it
/// isn't in paper space (67 is 1); any other is passed over, one without a layer too. A LINE is
/// kept, with its start (10, 20) and end (11, 21). Of an LWPOLYLINE the lines are kept from each of
/// its vertices (10, 20) to the next, and where its flags (70) are odd and it has two vertices or
/// more the line from the last to the first. A linetype (6) is CONTINUOUS or BYBLOCK for solid,
/// HIDDEN or DASHED for dashed, also with 2 or X2 behind, or BYLAYER, which it is without one: then
/// it is that of its layer's first entry in a table before it. Entities of CENTER lines are passed
/// over, and so is what is no geometry. Names are compared with ASCII case ignored; what an
/// application puts between 102 `{..` and 102 `}` counts for nothing.
///
/// The first fault in reading order is answered. Those of `Groups::next` come where they are met:
/// one inside an entity hides the entity's own fault. `BadSection` comes where a pair may not
/// stand, between the sections or where one is to be named, and where a section begins or the file
/// ends in one. The others come where a pair ends an entity that counts, before that pair's
/// `BadSection`, in this order: `Geometry` (ARC, CIRCLE, ELLIPSE, SPLINE, POLYLINE, INSERT, SOLID,
/// 3DFACE); `Linetype`; the first of its pairs that is so of `Repeated`, `BadNumber`, `NotWhole`
/// and `TooFar` and, in an LWPOLYLINE, `Missing`, where a vertex lacks its code 10 or 20, and
/// `Curved`, where a bulge (42) isn't 0; `Missing`, of a LINE's coordinate or the last vertex's;
/// `Oblique`; `TooManyLines` above 100,000. `Memory` says that it ran out of memory.
pub fn entities(alloc: Global, groups: &mut Groups, decimals: u8) -> Result<Vec<SheetLine>, Refused>
    requires fresh { groups.old.left ≡ pairs_of groups.old.text }
    requires decimals { decimals ≤ most_decimals }
    ensures lines { IfOk result (λ lines. read_of decimals groups.old.text ≡ Ok lines.items) }
    ensures through { OnOk result (IsReadThrough groups.old groups.new) }
    ensures fault { (fault : Fault) → IsErrOf result (refused.Fault fault)
        → read_of decimals groups.old.text ≡ Err fault }
{
    let lines = layer_lines(alloc, groups, ReadingForm::new(LayerSet::Main, decimals))?;
    let own = main_lines(alloc, &lines)?;
    Ok(own)
}

/// The same of a file that is read in this form: the lines of the three main views and those of all
/// other layers, each in the file's order; `TooManyLines` counts both. Where six views are read, an
/// entity counts on the layers LEFT, REAR and BOTTOM too. Where sections are too, it counts on
/// SECTION_VIEW_N and AREA_VIEW_N, where VIEW is one of the six layers and N a coordinate that is
/// read as one of a line is; there an entity of HIDDEN or DASHED lines is passed over. One that
/// stands on another layer which begins with SECTION_ or AREA_ has the fault `SectionName`, before
/// its others.
pub fn entities_in(
    alloc: Global,
    groups: &mut Groups,
    form: ReadingForm,
) -> Result<(Vec<SheetLine>, Vec<LayerLine>), Refused>
    requires { groups.old.left ≡ pairs_of groups.old.text }
    ensures lines { IfOk result (λ lines. lines_read form groups.old.text
        ≡ Ok (lines.0.items, lines.1.items)) }
    ensures through { OnOk result (IsReadThrough groups.old groups.new) }
    ensures fault { (fault : Fault) → IsErrOf result (refused.Fault fault)
        → lines_read form groups.old.text ≡ Err fault }
{
    let lines = layer_lines(alloc, groups, form)?;
    let main = main_lines(alloc, &lines)?;
    let other = other_lines(alloc, &lines)?;
    Ok((main, other))
}

/// The same where all six views are read.
pub fn entities_six(
    alloc: Global,
    groups: &mut Groups,
    decimals: u8,
) -> Result<(Vec<SheetLine>, Vec<LayerLine>), Refused>
    requires fresh { groups.old.left ≡ pairs_of groups.old.text }
    requires decimals { decimals ≤ most_decimals }
    ensures lines { IfOk result (λ lines. lines_read (six_views decimals) groups.old.text
        ≡ Ok (lines.0.items, lines.1.items)) }
    ensures through { OnOk result (IsReadThrough groups.old groups.new) }
    ensures fault { (fault : Fault) → IsErrOf result (refused.Fault fault)
        → lines_read (six_views decimals) groups.old.text ≡ Err fault }
{
    entities_in(alloc, groups, ReadingForm::new(LayerSet::Six, decimals))
}

/// The lines that a file keeps which is read in this form.
fn layer_lines(
    alloc: Global,
    groups: &mut Groups,
    form: ReadingForm,
) -> Result<Vec<LayerLine>, Refused>
    requires { groups.old.left ≡ pairs_of groups.old.text }
    ensures lines { IfOk result (λ lines. text_read form groups.old.text ≡ Ok lines.items) }
    ensures through { OnOk result (IsReadThrough groups.old groups.new) }
    ensures fault { (fault : Fault) → IsErrOf result (refused.Fault fault)
        → text_read form groups.old.text ≡ Err fault }
{
    let mut reader = Reader::new(alloc, form);
    while let Some(pair) = groups.next(&reader.counting())? {
        reader.take(&pair, groups.value_of(&pair))?;
    }
    let end = groups.end_line().unwrap();
    reader.finish(end)
}

/// Of lines those of the three main views.
fn main_lines(alloc: Global, lines: &[LayerLine]) -> Result<Vec<SheetLine>, Memory>
    ensures { IfOk result (λ own. own.items ≡ main_lines lines.now) }
{
    let mut own = Vec::new(alloc);
    for line in lines {
        if line.layer.is_main() {
            own.push(line.line)?;
        }
    }
    Ok(own)
}

/// Of lines those of all other layers.
fn other_lines(alloc: Global, lines: &[LayerLine]) -> Result<Vec<LayerLine>, Memory>
    ensures { IfOk result (λ other. other.items ≡ other_lines lines.now) }
{
    let mut other = Vec::new(alloc);
    for line in lines {
        if !line.layer.is_main() {
            other.push(*line)?;
        }
    }
    Ok(other)
}
