//! A solid's STL text, written to a sink piece by piece.
//!
//! All rectangles of a solid are held, 32 bytes each; of the text one piece. `write_stl`
//! asks for nothing: a choice that fills no cell has the text of no triangle.

ghost use Rattle.std.specs.Prelude.{◌≡◌, ◌++◌, ◌≤◌, ◌<◌, ℕ, List, length, OnOk, OnErr, IsErrOf};
ghost use Rattle.std.specs.Io.KnownBytes.{Appends};
ghost use Rattle.std.specs.List.{flat_map};
ghost use Rattle.face_laws.specs.GridFaces.{grid_planes};
ghost use Rattle.solid_model.specs.Choices.{cells_of_choice};
ghost use Rattle.lemmas.specs.Lists.{Each};
ghost use Rattle.solid_model.specs.Panels.{coordinates_of};
ghost use Rattle.stl_out.specs.Numbered.{AreShort, IsOfGrid};
ghost use Rattle.stl_out.specs.Pieces.{rectangle_text};
ghost use Rattle.stl_out.specs.Rectangles.{all_triangles};
ghost use Rattle.stl_out.specs.StlText.{stl_text, IsStlOf};
ghost use Rattle.tv_base.specs.Pieces.{WritesOn, AppendsPrefix};
ghost use Rattle.tv_base.specs.Faults.{Rose};

use crate::corner_parts::CornerParts;
use crate::rectangle::Rectangle;
use crate::surface::rectangles_of;
use crate::text::push_rectangle;
use solid_model::{Choice, Grid, Problem};
use std::alloc::Global;
use tv_base::{PIECE, Sink, SinkError, write_if_full, write_piece};

/// Adds a rectangle's two triangles to the piece, after it was written where it was full.
fn write_rectangle<K: Sink>(
    parts: &CornerParts<'_>,
    rectangle: &Rectangle,
    piece: &mut Vec<u8>,
    sink: &mut K,
) -> Result<(), SinkError>
    requires few { AreShort (coordinates_of parts.now) }
    requires numbered { IsOfGrid (coordinates_of parts.now) rectangle.now }
    requires fits { length piece.old.items ≤ 65536 }
    ensures later { K.faults sink.old ≤ K.faults sink.new }
    ensures ok { OnOk result (WritesOn (K.held sink.old) (K.held sink.new)
        (piece.old.items ++ rectangle_text (grid_planes (coordinates_of parts.now)) rectangle.now)
        piece.new.items) }
    ensures room { OnOk result (length piece.new.items ≤ 65200) }
    ensures err { OnErr result
        (AppendsPrefix (K.held sink.old) (K.held sink.new) piece.old.items) }
    ensures failed { IsErrOf result SinkError.Failed →
        Rose (K.faults sink.old) (K.faults sink.new) }
{
    write_if_full(piece, sink)?;
    push_rectangle(piece, parts, rectangle)?;
    Ok(())
}

/// Adds the triangles of all rectangles to the piece, which is written each time that it is full.
fn write_rectangles<K: Sink>(
    parts: &CornerParts<'_>,
    rectangles: &[Rectangle],
    piece: &mut Vec<u8>,
    sink: &mut K,
) -> Result<(), SinkError>
    requires few { AreShort (coordinates_of parts.now) }
    requires numbered { Each (IsOfGrid (coordinates_of parts.now)) rectangles.now }
    requires fits { length piece.old.items ≤ 65200 }
    ensures later { K.faults sink.old ≤ K.faults sink.new }
    ensures ok { OnOk result (WritesOn (K.held sink.old) (K.held sink.new)
        (piece.old.items ++ flat_map (rectangle_text (grid_planes (coordinates_of parts.now)))
        rectangles.now) piece.new.items) }
    ensures room { OnOk result (length piece.new.items ≤ 65200) }
    ensures err { OnErr result (AppendsPrefix (K.held sink.old) (K.held sink.new)
        (piece.old.items ++ flat_map (rectangle_text (grid_planes (coordinates_of parts.now)))
        rectangles.now)) }
    ensures failed { IsErrOf result SinkError.Failed →
        Rose (K.faults sink.old) (K.faults sink.new) }
{
    for rectangle in rectangles {
        write_rectangle(parts, rectangle, piece, sink)?;
    }
    Ok(())
}

/// Writes the text of the triangles of all rectangles.
fn write_text<K: Sink>(
    alloc: Global,
    grid: &Grid,
    rectangles: &[Rectangle],
    sink: &mut K,
) -> Result<(), SinkError>
    requires { Each (IsOfGrid (coordinates_of grid.now)) rectangles.now }
    ensures later { K.faults sink.old ≤ K.faults sink.new }
    ensures ok { OnOk result (Appends (K.held sink.old) (K.held sink.new)
        (stl_text (all_triangles (grid_planes (coordinates_of grid.now)) rectangles.now))) }
    ensures err { OnErr result (AppendsPrefix (K.held sink.old) (K.held sink.new)
        (stl_text (all_triangles (grid_planes (coordinates_of grid.now)) rectangles.now))) }
    ensures failed { IsErrOf result SinkError.Failed →
        Rose (K.faults sink.old) (K.faults sink.new) }
{
    let mut piece = Vec::with_capacity(alloc, PIECE)?;
    let parts = CornerParts::of(alloc, grid)?;
    piece.extend_from_slice(b"solid recon\n")?;
    write_rectangles(&parts, rectangles, &mut piece, sink)?;
    piece.extend_from_slice(b"endsolid recon\n")?;
    write_piece(sink, &piece)
}

/// Writes the ASCII STL text of the solid that a choice of a problem's blocks fills: its triangles,
/// in the order of `triangles`, each with its normal, the unit step outwards. The text goes to the
/// sink in pieces of at most 65,536 bytes, and no more of it is held.
///
/// At an `Err` the sink has a prefix of the text: `Failed` comes only where the sink failed in this
/// call, `Memory` is out of memory.
pub fn write_stl<K: Sink>(
    alloc: Global,
    problem: &Problem,
    choice: &Choice,
    sink: &mut K,
) -> Result<(), SinkError>
    ensures later { K.faults sink.old ≤ K.faults sink.new }
    ensures ok { OnOk result ((text : List ℕ)
        × IsStlOf (coordinates_of problem.now.grid)
        (cells_of_choice problem.now.blocks.numbers choice.now) text
        × Appends (K.held sink.old) (K.held sink.new) text) }
    ensures err { OnErr result ((text : List ℕ)
        × IsStlOf (coordinates_of problem.now.grid)
        (cells_of_choice problem.now.blocks.numbers choice.now) text
        × AppendsPrefix (K.held sink.old) (K.held sink.new) text) }
    ensures failed { IsErrOf result SinkError.Failed →
        Rose (K.faults sink.old) (K.faults sink.new) }
{
    match rectangles_of(alloc, problem, choice) {
        Ok(rectangles) => write_text(alloc, problem.grid(), &rectangles, sink),
        Err(_) => Err(SinkError::Memory),
    }
}
