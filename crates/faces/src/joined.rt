//! The joined squares of a plane.

ghost use Rattle.std.specs.Prelude.{◌≡◌, ◌≤◌, ◌<◌, None, false, IfSome, IfOk};
ghost use Rattle.faces.specs.PlaneSquares.{SquareTable, is_there};
ghost use Rattle.faces.specs.Points.{spot_of};
ghost use Rattle.faces.specs.Ways.{heading_at};
ghost use Rattle.faces.specs.SquareSteps.{place_count, square_at_place, IsSquareStep, next_square, AreSquareComponents};
ghost use Rattle.solid_model.specs.Rounds.{spot_after};

use crate::point::Point;
use crate::squares::Squares;
use flood::{Graph, Numbering, components_of};
use solid_model::Memory;
use std::alloc::Global;

/// The neighbour of a square to which a way leads, where its coordinates are 0 or more.
fn next(square: Point, way: usize) -> Option<Point>
    requires u { square.u ≤ 1024 }
    requires v { square.v ≤ 1024 }
    ensures some { IfSome result (λ p.
        spot_of p ≡ spot_after (heading_at way) (spot_of square)) }
    ensures none { result ≡ None → (t : SquareTable)
        → is_there t (spot_after (heading_at way) (spot_of square)) ≡ false }
{
    match way {
        0 => Some(Point {
            u: square.u + 1,
            ..square
        }),
        1 => Some(Point {
            v: square.v + 1,
            ..square
        }),
        2 => Some(Point {
            u: square.u.checked_sub(1)?,
            ..square
        }),
        _ => Some(Point {
            v: square.v.checked_sub(1)?,
            ..square
        }),
    }
}

/// The squares of a table as the nodes of a graph, by their places.
#[derive(Clone, Copy)]
struct Neighbours<'a> {
    squares: &'a Squares,
}

impl Graph for Neighbours<'_> {
    ghost nodes = { λ g. place_count g.squares.now };

    ghost steps = { λ g. IsSquareStep g.squares.now };

    ghost ways = { λ g. 4 };

    ghost next = { λ g. next_square g.squares.now };

    fn node_count(&self) -> usize {
        self.squares.rows().len() * 64
    }

    fn way_count(&self) -> usize {
        4
    }

    fn neighbour(&self, node: usize, way: usize) -> Option<usize> {
        let square = self.squares.square(node);
        let next = next(square, way)?;
        if self.squares.has(square.u, square.v) && self.squares.has(next.u, next.v) {
            Some(self.squares.place(next))
        } else {
            None
        }
    }
}

/// The number of each square's face: of two squares that are there it is the same where chains of
/// neighbours join them. An `Err` is out of memory.
pub fn square_components(alloc: Global, squares: &Squares) -> Result<Numbering, Memory>
    ensures { IfOk result (λ c. AreSquareComponents squares.now c.numbers.items c.count) }
{
    components_of(alloc, &Neighbours { squares }, squares.rows())
}
