//! The coordinates of a line's entity.

use crate::values::value_at;
use crate::vertex::Vertex;
use dxf_groups::Pair;
use solid_model::Fault;
use std::marker::Model;

/// The coordinates that are known of a line's start (x0, y0) and end (x1, y1).
#[derive(Clone, Copy)]
pub struct Coordinates {
    pub x0: Option<i64>,
    pub y0: Option<i64>,
    pub x1: Option<i64>,
    pub y1: Option<i64>,
}

impl Model for Coordinates {
    ghost use Rattle.dxf_entities.specs.Known.{Known, AreNear};

    ghost Value = { Known };

    ghost view = { λ s. record { x0 = s.x0; y0 = s.y0; x1 = s.x1; y1 = s.y1 } };

    ghost invariant = { λ s. AreNear record { x0 = s.x0; y0 = s.y0; x1 = s.x1; y1 = s.y1 } };

    ghost inverse = { λ c. record { x0 = c.x0; y0 = c.y0; x1 = c.x1; y1 = c.y1 } };
}

/// The ends of a line.
#[derive(Clone, Copy)]
pub struct Ends {
    pub from: Vertex,
    pub to: Vertex,
}

impl Coordinates {
    ghost use Rattle.std.specs.Prelude.{◌≡◌, ◌≤◌, IfOk};
    ghost use Rattle.solid_model.specs.Limits.{most_decimals};
    ghost use Rattle.solid_model.specs.Line.{IsNear};
    ghost use Rattle.dxf_entities.specs.Coordinates.{coordinate_at, line_ends, present, with_coordinate};
    ghost use Rattle.dxf_groups.specs.Pairs.{text_pair};

    /// None is known.
    pub const NONE: Coordinates = Coordinates {
        x0: None,
        y0: None,
        x1: None,
        y1: None,
    };

    /// The coordinate that a pair with this value gives, read with so many decimals, where `known`
    /// may be known already.
    fn coordinate_at(
        pair: &Pair,
        value: &[u8],
        decimals: u8,
        known: Option<i64>,
    ) -> Result<i64, Fault>
        requires { decimals ≤ most_decimals }
        ensures read { result ≡ coordinate_at decimals (text_pair pair.now value.now) known }
        ensures near { IfOk result IsNear }
    {
        if known.is_some() {
            return Err(Fault::Repeated {
                line: pair.line,
                code: pair.code,
            });
        }
        value_at(pair, value, decimals)
    }

    /// One more pair with this value is looked at: those with the codes 10 and 20 give the start,
    /// those with 11 and 21 the end.
    pub fn with(self, pair: &Pair, value: &[u8], decimals: u8) -> Result<Coordinates, Fault>
        requires { decimals ≤ most_decimals }
        ensures { result ≡ with_coordinate decimals (text_pair pair.now value.now) self }
    {
        let mut known = self;
        match pair.code {
            10 => known.x0 = Some(Coordinates::coordinate_at(pair, value, decimals, known.x0)?),
            20 => known.y0 = Some(Coordinates::coordinate_at(pair, value, decimals, known.y0)?),
            11 => known.x1 = Some(Coordinates::coordinate_at(pair, value, decimals, known.x1)?),
            21 => known.y1 = Some(Coordinates::coordinate_at(pair, value, decimals, known.y1)?),
            _ => (),
        }
        Ok(known)
    }

    /// A coordinate that is there; or it is missing from the entity that begins at this line.
    fn present(line: u32, code: i32, known: Option<i64>) -> Result<i64, Fault>
        ensures { result ≡ present line code known }
    {
        known.ok_or(Fault::Missing { line, code })
    }

    /// The ends of the line, whose entity begins at this line of the file, where it has all four
    /// coordinates.
    #[tactic(auto, unfolding(crate::specs::Coordinates::line_ends))]
    pub fn ends(self, line: u32) -> Result<Ends, Fault>
        ensures { result ≡ line_ends line self }
    {
        let x0 = Coordinates::present(line, 10, self.x0)?;
        let y0 = Coordinates::present(line, 20, self.y0)?;
        let x1 = Coordinates::present(line, 11, self.x1)?;
        let y1 = Coordinates::present(line, 21, self.y1)?;
        Ok(Ends {
            from: Vertex { x: x0, y: y0 },
            to: Vertex { x: x1, y: y1 },
        })
    }
}
