//! What is left of a piece.

ghost use Rattle.std.specs.Prelude.{◌≡◌, true, false, Bool, List, ◌++◌, ◌+◌, ◌<◌, ◌≤◌, length, OnOk};
ghost use Rattle.search_tree.specs.Rest.{live_side, live_sides, besides};

use crate::path::Path;
use crate::walk::enter;
use solid_model::{Memory, Prefix};

/// Adds the present prefix with one value more to the rest, if it is live.
fn keep_side<P: Path>(path: &mut P, full: bool, rest: &mut Vec<Prefix>) -> Result<(), Memory>
    requires { length (P.prefix path.old) < P.blocks path.old }
    ensures live { P.live path.new ≡ P.live path.old }
    ensures blocks { P.blocks path.new ≡ P.blocks path.old }
    ensures prefix { OnOk result (P.prefix path.new ≡ P.prefix path.old) }
    ensures rest { OnOk result (rest.new.items
        ≡ rest.old.items ++ live_side (P.live path.old) (P.prefix path.old) full) }
{
    if enter(path, full) {
        rest.push(path.to_prefix()?)?;
        path.go_up();
    }
    Ok(())
}

/// Adds the live prefixes that are the present one with one value more.
fn keep_sides<P: Path>(path: &mut P, rest: &mut Vec<Prefix>) -> Result<(), Memory>
    ensures live { P.live path.new ≡ P.live path.old }
    ensures blocks { P.blocks path.new ≡ P.blocks path.old }
    ensures prefix { OnOk result (P.prefix path.new ≡ P.prefix path.old) }
    ensures rest { OnOk result (rest.new.items
        ≡ rest.old.items ++ live_sides (P.live path.old) (P.prefix path.old)) }
{
    if path.depth() < path.block_count() {
        keep_side(path, true, rest)?;
        keep_side(path, false, rest)?;
    }
    Ok(())
}

/// Takes the last value back. If it was full, adds the prefix with the empty one in its place, if
/// that is live.
fn keep_beside<P: Path>(path: &mut P, floor: usize, rest: &mut Vec<Prefix>) -> Result<(), Memory>
    requires floor { floor < length (P.prefix path.old) }
    requires within { length (P.prefix path.old) ≤ P.blocks path.old }
    ensures live { P.live path.new ≡ P.live path.old }
    ensures blocks { P.blocks path.new ≡ P.blocks path.old }
    ensures shorter { OnOk result (length (P.prefix path.old) ≡ length (P.prefix path.new) + 1) }
    ensures rest { OnOk result (
        rest.old.items ++ besides (P.live path.old) floor (P.prefix path.old)
        ≡ rest.new.items ++ besides (P.live path.old) floor (P.prefix path.new)) }
{
    match path.go_up() {
        Some(true) => keep_side(path, false, rest),
        Some(false) => Ok(()),
        None => Ok(()),
    }
}

/// Adds what is left where the path stands at the last prefix that was opened of the piece with so
/// many values: its own live sides, and then, upwards, the live empty sides beside it.
pub fn keep_rest<P: Path>(path: &mut P, floor: usize, rest: &mut Vec<Prefix>) -> Result<(), Memory>
    requires floor { floor ≤ length (P.prefix path.old) }
    requires within { length (P.prefix path.old) ≤ P.blocks path.old }
    ensures live { P.live path.new ≡ P.live path.old }
    ensures blocks { P.blocks path.new ≡ P.blocks path.old }
    ensures rest { OnOk result (rest.new.items ≡ rest.old.items
        ++ (live_sides (P.live path.old) (P.prefix path.old)
        ++ besides (P.live path.old) floor (P.prefix path.old))) }
{
    keep_sides(path, rest)?;
    while path.depth() > floor {
        keep_beside(path, floor, rest)?;
    }
    Ok(())
}
