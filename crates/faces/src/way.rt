//! Ways to go in a plane.

ghost use Rattle.std.specs.Prelude.{◌≡◌, ◌<◌};
ghost use Rattle.faces.specs.Ways.{heading_of, heading_at, heading_number};
ghost use Rattle.solid_model.specs.Rounds.{left_of, right_of};

/// A way to go in a plane.
#[derive(Clone, Copy, Debug)]
pub enum Way {
    Right,
    Up,
    Left,
    Down,
}

impl Way {
    /// The way after a turn to the left.
    pub fn turned_left(self) -> Way
        ensures { heading_of result ≡ left_of (heading_of self) }
    {
        match self {
            Way::Right => Way::Up,
            Way::Up => Way::Left,
            Way::Left => Way::Down,
            Way::Down => Way::Right,
        }
    }

    /// The way after a turn to the right.
    pub fn turned_right(self) -> Way
        ensures { heading_of result ≡ right_of (heading_of self) }
    {
        match self {
            Way::Right => Way::Down,
            Way::Up => Way::Right,
            Way::Left => Way::Up,
            Way::Down => Way::Left,
        }
    }

    /// The ways are numbered from 0: to the right, upwards, to the left, downwards.
    pub fn number(self) -> usize
        ensures same { result ≡ heading_number (heading_of self) }
        ensures few { result < 4 }
    {
        match self {
            Way::Right => 0,
            Way::Up => 1,
            Way::Left => 2,
            Way::Down => 3,
        }
    }

    /// The way with a number.
    pub fn at(number: usize) -> Way
        ensures { heading_of result ≡ heading_at number }
    {
        match number {
            0 => Way::Right,
            1 => Way::Up,
            2 => Way::Left,
            _ => Way::Down,
        }
    }
}
