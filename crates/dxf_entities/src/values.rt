//! The numbers that values of pairs are.

ghost use Rattle.std.specs.Prelude.{◌≡◌, ◌≤◌, IfOk};
ghost use Rattle.solid_model.specs.Limits.{most_decimals};
ghost use Rattle.solid_model.specs.Line.{IsNear};
ghost use Rattle.dxf_entities.specs.Coordinates.{value_at};
ghost use Rattle.dxf_groups.specs.Numerals.{scaled_of};
ghost use Rattle.dxf_groups.specs.Pairs.{text_pair};

use dxf_groups::{NumeralFault, Pair, scaled};
use solid_model::Fault;

/// The whole number that the value of a pair is when it is read with so many decimals. A fault is
/// that of the value's line.
pub fn value_at(pair: &Pair, value: &[u8], decimals: u8) -> Result<i64, Fault>
    requires { decimals ≤ most_decimals }
    ensures read { result
        ≡ value_at (text_pair pair.now value.now) (scaled_of decimals value.now) }
    ensures near { IfOk result IsNear }
{
    let (line, code) = (pair.line + 1, pair.code);
    match scaled(value, decimals) {
        Ok(number) => Ok(number),
        Err(NumeralFault::BadNumber) => Err(Fault::BadNumber { line, code }),
        Err(NumeralFault::NotWhole) => Err(Fault::NotWhole { line, code }),
        Err(NumeralFault::TooFar) => Err(Fault::TooFar { line, code }),
    }
}
