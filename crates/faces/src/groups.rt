//! The loops of faces, found among all loops of a plane.

ghost use Rattle.std.specs.Prelude.{◌≡◌, ◌<◌, None, length, map, slice_index_or, IsTrue, IfSome, IfOk};
ghost use Rattle.faces.specs.Groups.{AreGroups, IsPut};
ghost use Rattle.faces.specs.PlaneSquares.{is_there};
ghost use Rattle.faces.specs.SquareSteps.{number_of, AreSquareComponents};
ghost use Rattle.lemmas.specs.Lists.{Each};

use crate::plane_loop::PlaneLoop;
use crate::squares::Squares;
use flood::Numbering;
use solid_model::Memory;
use std::alloc::Global;

/// Puts a loop into the group whose number the table has, or else into a new one.
fn put(
    alloc: Global,
    plane_loop: PlaneLoop,
    number: usize,
    table: &mut [Option<usize>],
    groups: &mut Vec<Vec<PlaneLoop>>,
) -> Result<(), Memory>
    requires number { number < length table.old }
    requires there { IfSome (slice_index_or table.old number None)
        (λ g. g < length groups.old.items) }
    ensures { IfOk result (λ done. IsPut plane_loop number (slice_index_or table.old number None)
        table.old (map (λ g. g.items) groups.old.items) table.new
        (map (λ g. g.items) groups.new.items)) }
{
    match table[number] {
        Some(group) => groups[group].push(plane_loop)?,
        None => {
            table[number] = Some(groups.len());
            let mut group = Vec::new(alloc);
            group.push(plane_loop)?;
            groups.push(group)?;
        }
    }
    Ok(())
}

/// The loops of each face: those at whose squares the components have the same number. All are in
/// the order in which the list has them. An `Err` is out of memory.
pub fn grouped(
    alloc: Global,
    squares: &Squares,
    components: &Numbering,
    loops: Vec<PlaneLoop>,
) -> Result<Vec<Vec<PlaneLoop>>, Memory>
    requires components { AreSquareComponents squares.now components.now.numbers.items
        components.now.count }
    requires there { Each (λ l. IsTrue (is_there squares.now l.square)) loops.items }
    ensures { IfOk result (λ groups. AreGroups
        (λ l. number_of components.now.numbers.items l.square) loops.items
        (map (λ g. g.items) groups.items)) }
{
    let mut table = vec![in alloc; None; components.count as usize]?;
    let mut groups = Vec::new(alloc);
    for plane_loop in loops {
        let number = components.numbers[squares.place(plane_loop.square)];
        put(
            alloc,
            plane_loop,
            number as usize,
            table.as_mut_slice(),
            &mut groups,
        )?;
    }
    Ok(groups)
}
