//! The walk through the tree of prefixes, in the stated order, without a stack of its own.

ghost use Rattle.std.specs.Prelude.{◌≡◌, true, false, Bool, List, [], ◌∷◌, ◌++◌, ◌+◌, ◌<◌, ◌≤◌, length, drop, IsTrue};
ghost use Rattle.solid_model.specs.Tree.{live_from};
ghost use Rattle.search_tree.specs.Walk.{later, coming, StandsAtFirst};

use crate::path::Path;

/// Goes to the prefix with one value more if that is live, else stays; then nothing that begins
/// with it is live.
pub fn enter<P: Path>(path: &mut P, full: bool) -> bool
    requires { length (P.prefix path.old) < P.blocks path.old }
    ensures live { P.live path.new ≡ P.live path.old }
    ensures blocks { P.blocks path.new ≡ P.blocks path.old }
    ensures asked { result ≡ P.live path.old (P.prefix path.old ++ full ∷ []) }
    ensures entered { result ≡ true → P.prefix path.new ≡ P.prefix path.old ++ full ∷ [] }
    ensures stays { result ≡ false → P.prefix path.new ≡ P.prefix path.old }
    ensures none { result ≡ false
        → live_from (P.live path.old) (P.blocks path.old) (P.prefix path.old ++ full ∷ []) ≡ [] }
{
    path.go_down(full);
    if path.is_live() {
        return true;
    }
    path.go_up();
    false
}

/// Goes from a live prefix to the first live one that begins with it and is longer, if there is
/// one.
fn go_below<P: Path>(path: &mut P, floor: usize) -> bool
    requires live { IsTrue (P.live path.old (P.prefix path.old)) }
    requires floor { floor ≤ length (P.prefix path.old) }
    ensures live { P.live path.new ≡ P.live path.old }
    ensures blocks { P.blocks path.new ≡ P.blocks path.old }
    ensures found { result ≡ true → StandsAtFirst (P.live path.old) (P.blocks path.old) floor
        (coming (P.live path.old) (P.blocks path.old) floor (P.prefix path.old))
        (P.prefix path.new) }
    ensures stays { result ≡ false → P.prefix path.new ≡ P.prefix path.old }
    ensures none { result ≡ false
        → drop 1 (live_from (P.live path.old) (P.blocks path.old) (P.prefix path.old)) ≡ [] }
    ensures within { length (P.prefix path.old) ≤ P.blocks path.old }
{
    path.depth() < path.block_count() && (enter(path, true) || enter(path, false))
}

/// Takes the last value back. If it was full, goes to the empty one in its place, if that is live.
fn step_back<P: Path>(path: &mut P, floor: usize) -> bool
    requires floor { floor < length (P.prefix path.old) }
    requires within { length (P.prefix path.old) ≤ P.blocks path.old }
    ensures live { P.live path.new ≡ P.live path.old }
    ensures blocks { P.blocks path.new ≡ P.blocks path.old }
    ensures found { result ≡ true → StandsAtFirst (P.live path.old) (P.blocks path.old) floor
        (later (P.live path.old) (P.blocks path.old) floor (P.prefix path.old))
        (P.prefix path.new) }
    ensures shorter { result ≡ false → length (P.prefix path.old) ≡ length (P.prefix path.new) + 1 }
    ensures left { result ≡ false → later (P.live path.old) (P.blocks path.old) floor
        (P.prefix path.old)
        ≡ later (P.live path.old) (P.blocks path.old) floor (P.prefix path.new) }
{
    match path.go_up() {
        Some(true) => enter(path, false),
        Some(false) => false,
        None => false,
    }
}

/// Leaves a prefix, with all that begins with it, for the next live one among those that begin with
/// its first `floor` values, if there is one.
fn leave<P: Path>(path: &mut P, floor: usize) -> bool
    requires floor { floor ≤ length (P.prefix path.old) }
    requires within { length (P.prefix path.old) ≤ P.blocks path.old }
    ensures live { P.live path.new ≡ P.live path.old }
    ensures blocks { P.blocks path.new ≡ P.blocks path.old }
    ensures found { result ≡ true → StandsAtFirst (P.live path.old) (P.blocks path.old) floor
        (later (P.live path.old) (P.blocks path.old) floor (P.prefix path.old))
        (P.prefix path.new) }
    ensures none { result ≡ false
        → later (P.live path.old) (P.blocks path.old) floor (P.prefix path.old) ≡ [] }
{
    while path.depth() > floor {
        if step_back(path, floor) {
            return true;
        }
    }
    false
}

/// Goes from a live prefix to the next live one in the stated order, among those that begin with
/// its first `floor` values. Where none is left it says so.
pub fn go_on<P: Path>(path: &mut P, floor: usize) -> bool
    requires live { IsTrue (P.live path.old (P.prefix path.old)) }
    requires floor { floor ≤ length (P.prefix path.old) }
    ensures live { P.live path.new ≡ P.live path.old }
    ensures blocks { P.blocks path.new ≡ P.blocks path.old }
    ensures found { result ≡ true → StandsAtFirst (P.live path.old) (P.blocks path.old) floor
        (coming (P.live path.old) (P.blocks path.old) floor (P.prefix path.old))
        (P.prefix path.new) }
    ensures none { result ≡ false
        → coming (P.live path.old) (P.blocks path.old) floor (P.prefix path.old) ≡ [] }
{
    go_below(path, floor) || leave(path, floor)
}
