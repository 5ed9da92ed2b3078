//! The border of squares in a table.

ghost use Rattle.std.specs.Prelude.{◌≡◌, ◌<◌, length, IsTrue};
ghost use Rattle.faces.specs.Border.{IsTablePoint, IsTableSpot, TellEnds, point_number, point_at, side_to, side_of, side_number, side_at, side_count, is_border_at, following_number};
ghost use Rattle.faces.specs.PlaneSquares.{is_there};
ghost use Rattle.faces.specs.Points.{spot_of};
ghost use Rattle.faces.specs.Ways.{heading_of};
ghost use Rattle.solid_model.specs.Rounds.{spot_after, square_at, left_square, is_border, heading_after, turns, following};

use crate::border_side::BorderSide;
use crate::point::Point;
use crate::squares::Squares;
use crate::way::Way;
use cell_rows::next_place;
use rounds::Succession;

/// The sides of the border of squares in a table, by their numbers: 4 for each point where they may
/// end. The points come by v, then u, where upwards counts first, else by u, then v; the bits of
/// `ends` tell which of them some side ends at.
#[derive(Clone, Copy)]
pub struct Border<'a> {
    pub squares: &'a Squares,
    pub up_first: bool,
    ends: &'a [u64],
    ghost few: { length ends.now ≡ 64 },
    ghost told: { TellEnds squares.now up_first ends.now },
}

impl<'a> Border<'a> {
    /// The border of the squares, of which these are the points where sides end.
    pub fn of(squares: &'a Squares, up_first: bool, ends: &'a [u64]) -> Border<'a>
        requires few { length ends.now ≡ 64 }
        requires told { TellEnds squares.now up_first ends.now }
        ensures squares { result.squares.now ≡ squares.now }
        ensures order { result.up_first ≡ up_first }
    {
        Border {
            squares,
            up_first,
            ends,
        }
    }
}

impl Border<'_> {
    /// The point with a number.
    fn point(&self, number: usize) -> Point
        ensures { result ≡ point_at self.now.up_first number }
    {
        if self.up_first {
            Point {
                u: number % 64,
                v: number / 64,
            }
        } else {
            Point {
                u: number / 64,
                v: number % 64,
            }
        }
    }

    /// The number of a point of the table.
    fn point_number(&self, point: Point) -> usize
        requires { IsTablePoint point }
        ensures same { result ≡ point_number self.now.up_first point }
        ensures few { result < 4096 }
    {
        if self.up_first {
            point.v * 64 + point.u
        } else {
            point.u * 64 + point.v
        }
    }

    /// The side with a number.
    pub fn side(&self, number: usize) -> BorderSide
        ensures { side_of result ≡ side_at self.now.up_first number }
    {
        BorderSide {
            end: self.point(number / 4),
            way: Way::at(number % 4),
        }
    }

    /// The number of a side that ends at a point of the table.
    fn number(&self, side: BorderSide) -> usize
        requires { IsTablePoint side.end }
        ensures { result ≡ side_number self.now.up_first side.end (heading_of side.way) }
    {
        self.point_number(side.end) * 4 + side.way.number()
    }

    /// The square at a point that lies ahead on the left of whoever goes on so is there.
    fn has_ahead(&self, point: Point, way: Way) -> bool
        ensures { result ≡ is_there self.now.squares.now
            (square_at (heading_of way) (spot_of point)) }
    {
        match way {
            Way::Right => self.squares.has(point.u, point.v),
            Way::Up => point.u > 0 && self.squares.has(point.u - 1, point.v),
            Way::Left => {
                point.u > 0 && point.v > 0 && self.squares.has(point.u - 1, point.v - 1)
            }
            Way::Down => point.v > 0 && self.squares.has(point.u, point.v - 1),
        }
    }

    /// The border leads on from a point so.
    fn leads(&self, point: Point, way: Way) -> bool
        ensures { result ≡ is_border (is_there self.now.squares.now)
            (record { start = spot_of point; heading = heading_of way }) }
    {
        self.has_ahead(point, way) && !self.has_ahead(point, way.turned_right())
    }

    /// A side is one of the border.
    fn has_side(&self, side: BorderSide) -> bool
        ensures { result ≡ is_border (is_there self.now.squares.now) (side_of side) }
    {
        let left = side.way.turned_left();
        self.has_ahead(side.end, left) && !self.has_ahead(side.end, left.turned_left())
    }

    /// How the border goes on from the end of a side: to the left where it can, else straight on
    /// where it can, else to the right.
    fn way_on(&self, side: BorderSide) -> Way
        ensures { heading_of result ≡ heading_after (is_there self.now.squares.now) (side_of side) }
    {
        let left = side.way.turned_left();
        if self.leads(side.end, left) {
            left
        } else if self.leads(side.end, side.way) {
            side.way
        } else {
            side.way.turned_right()
        }
    }

    /// The border turns at the end of a side.
    pub fn turns(&self, side: BorderSide) -> bool
        ensures { result ≡ turns (is_there self.now.squares.now) (side_of side) }
    {
        self.way_on(side).number() != side.way.number()
    }

    /// The point one step on from a point, which is one of the table.
    fn step(&self, point: Point, way: Way) -> Point
        requires { IsTableSpot (spot_after (heading_of way) (spot_of point)) }
        ensures { spot_of result ≡ spot_after (heading_of way) (spot_of point) }
    {
        match way {
            Way::Right => Point {
                u: point.u + 1,
                ..point
            },
            Way::Up => Point {
                v: point.v + 1,
                ..point
            },
            Way::Left => Point {
                u: point.u - 1,
                ..point
            },
            Way::Down => Point {
                v: point.v - 1,
                ..point
            },
        }
    }

    /// The side that follows one of the border.
    fn side_after(&self, side: BorderSide) -> BorderSide
        requires { IsTrue (is_border (is_there self.now.squares.now) (side_of side)) }
        ensures side { side_of result ≡ following (is_there self.now.squares.now) (side_of side) }
        ensures within { IsTablePoint result.end }
    {
        let way = self.way_on(side);
        BorderSide {
            end: self.step(side.end, way),
            way,
        }
    }

    /// The square on the left of a side of the border.
    pub fn left_square(&self, side: BorderSide) -> Point
        requires { IsTrue (is_border (is_there self.now.squares.now) (side_of side)) }
        ensures { spot_of result ≡ left_square (side_of side) }
    {
        match side.way {
            Way::Right => Point {
                u: side.end.u - 1,
                ..side.end
            },
            Way::Up => Point {
                u: side.end.u - 1,
                v: side.end.v - 1,
            },
            Way::Left => Point {
                v: side.end.v - 1,
                ..side.end
            },
            Way::Down => side.end,
        }
    }
}

impl Succession for Border<'_> {
    ghost use Rattle.faces.specs.Border.{side_count, is_border_at, following_number};

    ghost nodes = { λ b. side_count };

    ghost inside = { λ b. is_border_at b.squares.now b.up_first };

    ghost next = { λ b. following_number b.squares.now b.up_first };

    fn node_count(&self) -> usize {
        16384
    }

    fn has(&self, node: usize) -> bool {
        self.has_side(self.side(node))
    }

    fn onward(&self, node: usize) -> usize {
        let point = next_place(self.ends, node / 4);
        if point > node / 4 { point * 4 } else { node }
    }

    fn following(&self, node: usize) -> usize {
        self.number(self.side_after(self.side(node)))
    }
}
