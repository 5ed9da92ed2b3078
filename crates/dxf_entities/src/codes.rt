//! The group codes of pairs.

ghost use Rattle.std.specs.Prelude.{◌≡◌, []};
ghost use Rattle.dxf_groups.specs.Pairs.{text_pair};
ghost use Rattle.dxf_entities.specs.Entries.{has_code};

use dxf_groups::Pair;

/// Whether the pair has this code.
pub fn has_code(pair: &Pair, code: u16) -> bool
    ensures { result ≡ has_code code (text_pair pair.now []) }
{
    pair.code == i32::from(code)
}
