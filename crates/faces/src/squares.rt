//! Squares of a plane, in a table.

ghost use Rattle.std.specs.Prelude.{◌≡◌, ◌≤◌, pos, length, slice_index_or};
ghost use Rattle.faces.specs.PlaneSquares.{is_there};
ghost use Rattle.lemmas.specs.Bits.{is_set};

use crate::point::Point;
use cell_rows::has_bit;
use std::marker::Model;

/// Which squares of a plane are there, of those from (0, 0) to (63, 63): a row of bits for each v,
/// whose bit u is the square (u, v). Beyond the rows none is there.
#[derive(Debug, Drop)]
pub struct Squares {
    rows: Vec<u64>,
}

impl Model for Squares {
    ghost use Rattle.faces.specs.PlaneSquares.{SquareTable, IsTable};

    ghost Value = { SquareTable };

    ghost view = { λ s. record { rows = s.rows.items } };

    ghost invariant = { λ s. IsTable record { rows = s.rows.items } };
}

impl Squares {
    ghost use Rattle.std.specs.Prelude.{◌≡◌, ◌≤◌, ◌<◌, ℕ, false, length, slice_index_or, pos, IsTrue};
    ghost use Rattle.faces.specs.PlaneSquares.{IsTable, is_there, square_place};
    ghost use Rattle.faces.specs.Points.{spot_of};
    ghost use Rattle.faces.specs.SquareSteps.{place_count, square_at_place};
    ghost use Rattle.solid_model.specs.Rounds.{Spot};

    /// The squares of these rows.
    pub fn new(rows: Vec<u64>) -> Squares
        requires { IsTable record { rows = rows.items } }
        ensures { result ≡ record { rows = rows.items } }
    {
        Squares { rows }
    }

    /// They are a table: there are few rows, and each is a word.
    pub fn known(&self)
        ensures { IsTable self.now }
    {
        let _ = &self.rows;
    }

    /// The rows.
    pub fn rows(&self) -> &[u64]
        ensures same { result.now ≡ self.now.rows }
        ensures few { IsTable self.now }
    {
        self.rows.as_slice()
    }

    /// The row of a v, 0 beyond the rows.
    pub fn row(&self, v: usize) -> u64
        ensures { result ≡ slice_index_or self.now.rows v 0 }
    {
        self.rows.get(v).copied().unwrap_or(0)
    }

    /// Surely no square is there, since each row is 0.
    pub fn is_empty(&self) -> bool
        ensures { IsTrue result → (q : Spot) → is_there self.now q ≡ false }
    {
        for row in &self.rows {
            if *row != 0 {
                return false;
            }
        }
        true
    }

    /// The square at (u, v) is there.
    pub fn has(&self, u: usize, v: usize) -> bool
        ensures { result ≡ is_there self.now (record { u = pos u; v = pos v }) }
    {
        u < 63 && v < 63 && has_bit(self.row(v), u)
    }

    /// The square at a place of the table.
    pub fn square(&self, place: usize) -> Point
        requires { place < place_count self.now }
        ensures square { spot_of result ≡ square_at_place place }
        ensures u { result.u < 64 }
        ensures v { result.v < 63 }
    {
        self.known();
        Point {
            u: place % 64,
            v: place / 64,
        }
    }

    /// The place of a square that is there.
    pub fn place(&self, square: Point) -> usize
        requires { IsTrue (is_there self.now (spot_of square)) }
        ensures place { result ≡ square_place (spot_of square) }
        ensures there { result < place_count self.now }
    {
        square.v * 64 + square.u
    }
}
