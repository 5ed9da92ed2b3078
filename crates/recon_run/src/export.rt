//! The forms in which one solid is written.

ghost use Rattle.std.specs.Prelude.{◌≡◌, List, [], ◌∷◌, ◌≤◌};
ghost use Rattle.recon_run.specs.Searched.{FillSolids, writes_of};
ghost use Rattle.redraw.specs.Files.{IsFileOf};
ghost use Rattle.replies.specs.Writings.{EndsText};
ghost use Rattle.solid_model.specs.declared.cell.Cell.{Cell};
ghost use Rattle.solid_model.specs.Limits.{most_decimals};
ghost use Rattle.stl_out.specs.SolidStl.{IsSolidStl};
ghost use Rattle.tv_base.specs.Faults.{Rose};

use redraw::dxf_of;
use replies::{Failure, write_text};
use solid_model::{Choice, Problem};
use std::alloc::Global;
use stl_out::write_stl;
use tv_base::{Sink, SinkError};

/// A form in which one solid is written.
#[derive(Clone, Copy)]
pub enum Export {
    /// Its drawing, as a DXF file, in one piece.
    Drawing,
    /// The triangles of its boundary, as an STL text, in pieces.
    Triangles,
}

/// Writes the drawing, with so many decimals, of the solid that a choice of a problem's blocks
/// fills.
fn write_drawing<K: Sink>(
    alloc: Global,
    decimals: u8,
    problem: &Problem,
    choice: &Choice,
    sink: &mut K,
) -> Result<(), Failure>
    requires { decimals ≤ most_decimals }
    ensures { (s : List Cell) → FillSolids problem.now (choice.now ∷ []) (s ∷ [])
        → EndsText (IsFileOf decimals s) (IsFileOf decimals s) (K.held sink.old) (K.held sink.new)
        (Rose (K.faults sink.old) (K.faults sink.new)) result }
{
    let cells = problem.cells(alloc, choice)?;
    let text = dxf_of(alloc, problem.grid(), cells.as_slice(), decimals)?;
    write_text(sink, text.as_slice())
}

/// Writes the triangles of the solid that a choice of a problem's blocks fills.
fn write_triangles<K: Sink>(
    alloc: Global,
    problem: &Problem,
    choice: &Choice,
    sink: &mut K,
) -> Result<(), Failure>
    ensures { (s : List Cell) → FillSolids problem.now (choice.now ∷ []) (s ∷ [])
        → EndsText (IsSolidStl s) (IsSolidStl s) (K.held sink.old) (K.held sink.new)
        (Rose (K.faults sink.old) (K.faults sink.new)) result }
{
    match write_stl(alloc, problem, choice, sink) {
        Ok(()) => Ok(()),
        Err(SinkError::Failed) => Err(Failure::WriteFault),
        Err(SinkError::Memory) => Err(Failure::Memory),
    }
}

impl Export {
    /// Writes the solid that a choice of a problem's blocks fills, of a drawing with so many
    /// decimals.
    pub fn write<K: Sink>(
        self,
        alloc: Global,
        decimals: u8,
        problem: &Problem,
        choice: &Choice,
        sink: &mut K,
    ) -> Result<(), Failure>
        requires { decimals ≤ most_decimals }
        ensures { (s : List Cell) → FillSolids problem.now (choice.now ∷ []) (s ∷ [])
            → EndsText (writes_of self decimals s) (writes_of self decimals s) (K.held sink.old)
            (K.held sink.new) (Rose (K.faults sink.old) (K.faults sink.new)) result }
    {
        match self {
            Export::Drawing => write_drawing(alloc, decimals, problem, choice, sink),
            Export::Triangles => write_triangles(alloc, problem, choice, sink),
        }
    }
}
