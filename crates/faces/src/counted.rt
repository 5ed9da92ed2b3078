//! The faces of marked cells, counted by number.

ghost use Rattle.std.specs.Prelude.{◌≡◌, ◌+◌, IfOk};
ghost use Rattle.faces.specs.FacesSoFar.{AreFacesBefore};
ghost use Rattle.solid_model.specs.Faces.{out_number, AreFacesOf};
ghost use Rattle.solid_model.specs.Marks.{is_marked};

use crate::plane_faces::add_plane_faces;
use cell_rows::CellRows;
use solid_model::{Face, Memory, Out};
use std::alloc::Global;

/// Puts the faces with one outward side at the end of the list, plane by plane.
fn add_side_faces(
    alloc: Global,
    cells: &CellRows,
    out: Out,
    faces: &mut Vec<Face>,
) -> Result<(), Memory>
    requires { AreFacesBefore (is_marked cells.now) (out_number out) 0 faces.old.items }
    ensures { IfOk result (λ done. AreFacesBefore (is_marked cells.now) (out_number out + 1) 0
        faces.new.items) }
{
    let planes = cells.sizes().along(out.direction().axis) + 1;
    for at in 0..planes {
        add_plane_faces(alloc, cells, out, at, faces)?;
    }
    Ok(())
}

/// The faces of the solid whose cells have marks, in order, in time and memory that grow with the
/// box of the marks. An `Err` is out of memory.
pub fn counted_faces(alloc: Global, cells: &CellRows) -> Result<Vec<Face>, Memory>
    ensures { IfOk result (λ faces. AreFacesOf (is_marked cells.now) faces.items) }
{
    let mut faces = Vec::new(alloc);
    for out in Out::ALL {
        add_side_faces(alloc, cells, out, &mut faces)?;
    }
    Ok(faces)
}
