//! The way to a piece.
//!
//! `expand_from` takes a way that goes down the tree of the problem's prefixes (`IsWayOf`),
//! wherever it stands, and goes up no farther than where the piece parts from it; so a search makes
//! one `Partial`.

ghost use Rattle.std.specs.Prelude.{◌≡◌, ◌≤◌, length, take};
ghost use Rattle.solid_model.specs.Forcing.{is_live};

use crate::block_path::BlockPath;
use crate::path::Path;
use solid_model::Prefix;

/// Goes up to where so many values are left, if there are more.
fn go_up_to<P: Path>(path: &mut P, height: usize)
    ensures live { P.live path.new ≡ P.live path.old }
    ensures blocks { P.blocks path.new ≡ P.blocks path.old }
    ensures prefix { P.prefix path.new ≡ take height (P.prefix path.old) }
{
    while path.depth() > height {
        path.go_up();
    }
}

/// Goes from the present prefix to a piece: up to what both begin with, and down from there.
pub fn go_to(path: &mut BlockPath, piece: &Prefix)
    requires within { length piece.now ≤ path.old.problem.blocks.count }
    ensures live { is_live path.new.problem ≡ is_live path.old.problem }
    ensures blocks { path.new.problem.blocks.count ≡ path.old.problem.blocks.count }
    ensures there { path.new.values ≡ piece.now }
{
    let height = path.shared(piece);
    go_up_to(path, height);
    for at in height..piece.len() {
        path.go_down(piece.get(at));
    }
}
