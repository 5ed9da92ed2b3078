//! The loops round squares of a plane.

ghost use Rattle.std.specs.Prelude.{◌≡◌, [], ◌∷◌, ◌++◌, map, IfOk};
ghost use Rattle.faces.specs.Border.{side_at, side_count, is_border_at, following_number, loop_along};
ghost use Rattle.faces.specs.PlaneLoops.{ArePlaneLoops};
ghost use Rattle.faces.specs.PlaneSquares.{is_there};
ghost use Rattle.faces.specs.Points.{spot_of};
ghost use Rattle.rounds.specs.Succession.{IsInsideRound};
ghost use Rattle.lemmas.specs.Lists.{Each};
ghost use Rattle.solid_model.specs.Rounds.{corners};

use crate::border::Border;
use crate::ends::ends_of;
use crate::plane_loop::PlaneLoop;
use crate::point::Point;
use crate::squares::Squares;
use rounds::all_rounds;
use solid_model::Memory;
use std::alloc::Global;

/// Puts the end of a side at the end of the corners, if the border turns there.
fn add_corner(border: &Border, number: usize, found: &mut Vec<Point>) -> Result<(), Memory>
    ensures { IfOk result (λ done. map spot_of found.new.items ≡ map spot_of found.old.items
        ++ corners (is_there border.now.squares.now)
        (side_at border.now.up_first number ∷ [])) }
{
    let side = border.side(number);
    if border.turns(side) {
        found.push(side.end)?;
    }
    Ok(())
}

/// The corners to which the sides of a round come.
fn corners_of(alloc: Global, border: &Border, round: &[usize]) -> Result<Vec<Point>, Memory>
    ensures { IfOk result (λ found. map spot_of found.items ≡ corners
        (is_there border.now.squares.now)
        (map (side_at border.now.up_first) round.now)) }
{
    let mut found = Vec::new(alloc);
    for number in round {
        add_corner(border, *number, &mut found)?;
    }
    Ok(found)
}

/// The loop that goes along a round of the border.
fn loop_along(alloc: Global, border: &Border, round: &[usize]) -> Result<PlaneLoop, Memory>
    requires { IsInsideRound (side_count)
        (is_border_at border.now.squares.now border.now.up_first)
        (following_number border.now.squares.now border.now.up_first) round.now }
    ensures { IfOk result (λ along.
        along ≡ loop_along border.now.squares.now border.now.up_first round.now) }
{
    Ok(PlaneLoop {
        square: border.left_square(border.side(round[0])),
        corners: corners_of(alloc, border, round)?,
    })
}

/// The loops that go along rounds of the border.
fn loops_along(
    alloc: Global,
    border: &Border,
    rounds: &[Vec<usize>],
) -> Result<Vec<PlaneLoop>, Memory>
    requires { Each (IsInsideRound (side_count)
        (is_border_at border.now.squares.now border.now.up_first)
        (following_number border.now.squares.now border.now.up_first))
        (map (λ r. r.items) rounds.now) }
    ensures { IfOk result (λ loops. loops.items ≡ map
        (loop_along border.now.squares.now border.now.up_first)
        (map (λ r. r.items) rounds.now)) }
{
    let mut loops = Vec::new(alloc);
    for round in rounds {
        loops.push(loop_along(alloc, border, round.as_slice())?)?;
    }
    Ok(loops)
}

/// All loops round squares of a plane, by their first corners, in time and memory that grow with
/// the table. Where two ways go on from a point, a loop turns left. An `Err` is out of memory.
pub fn plane_loops(
    alloc: Global,
    squares: &Squares,
    up_first: bool,
) -> Result<Vec<PlaneLoop>, Memory>
    ensures { IfOk result (λ loops. ArePlaneLoops (is_there squares.now) up_first loops.items) }
{
    let ends = ends_of(alloc, squares, up_first)?;
    let border = Border::of(squares, up_first, ends.as_slice());
    let rounds = all_rounds(alloc, &border)?;
    loops_along(alloc, &border, rounds.as_slice())
}
