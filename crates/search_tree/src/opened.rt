//! The first live prefixes that begin with a piece.

ghost use Rattle.std.specs.Prelude.{◌≡◌, Bool, List, [], ◌∷◌, ◌++◌, ◌≤◌, length, filter, IsTrue, IfOk, OnOk};
ghost use Rattle.solid_model.specs.Tree.{is_whole, opened_of, found_of};
ghost use Rattle.search_tree.specs.Opened.{StandsAtLast};

use crate::path::Path;
use crate::walk::go_on;
use solid_model::{Choice, Memory};

/// Whether the present prefix says of every block whether it is full.
pub fn is_whole<P: Path>(path: &P) -> bool
    ensures { result ≡ is_whole (P.blocks path.now) (P.prefix path.now) }
{
    path.depth() == path.block_count()
}

/// Adds the present prefix to those found, if it is of full length.
pub fn keep_whole<P: Path>(path: &P, found: &mut Vec<Choice>) -> Result<(), Memory>
    ensures { OnOk result (found.new.items
        ≡ found.old.items ++ filter (is_whole (P.blocks path.now)) (P.prefix path.now ∷ [])) }
{
    if is_whole(path) {
        found.push(path.to_prefix()?.into_choice())?;
    }
    Ok(())
}

/// Opens the first live prefixes that begin with the present one, a live one: as many as the
/// quantum says, or all if they are fewer. Those of full length are added to those found. Says how
/// many were opened, and stands at the last of them if they are as many as the quantum.
pub fn open_first<P: Path>(
    path: &mut P,
    quantum: u32,
    found: &mut Vec<Choice>,
) -> Result<u32, Memory>
    requires live { IsTrue (P.live path.old (P.prefix path.old)) }
    requires within { length (P.prefix path.old) ≤ P.blocks path.old }
    requires quantum { 1 ≤ quantum }
    ensures live { P.live path.new ≡ P.live path.old }
    ensures blocks { P.blocks path.new ≡ P.blocks path.old }
    ensures opened { IfOk result (λ opened. opened ≡ length (opened_of
        (P.live path.old) (P.blocks path.old) (P.prefix path.old) quantum)) }
    ensures found { OnOk result (found.new.items ≡ found.old.items
        ++ found_of (P.live path.old) (P.blocks path.old) (P.prefix path.old) quantum) }
    ensures last { IfOk result (λ opened. opened ≡ quantum → StandsAtLast
        (P.live path.old) (P.blocks path.old) (P.prefix path.old) quantum (P.prefix path.new)) }
{
    let floor = path.depth();
    keep_whole(path, found)?;
    let mut opened = 1;
    while opened < quantum {
        if !go_on(path, floor) {
            return Ok(opened);
        }
        keep_whole(path, found)?;
        opened += 1;
    }
    Ok(opened)
}
