//! Ways down the tree of prefixes.
//!
//! A path is a trait: what is proved of the walk holds for every word live, and for every partial
//! state to come.

ghost use Rattle.std.specs.Prelude.{◌≡◌, Bool, List, [], ◌∷◌, ◌++◌, ℕ, ◌<◌, length, IfOk, MatchOption};
ghost use Rattle.solid_model.specs.Tree.{IsTree};

use solid_model::{Memory, Prefix};

/// A way down the tree of prefixes: it stands at one prefix, goes down to one with a value more,
/// and up again. Which prefixes are live, and how many blocks there are, stays the same on the way.
pub trait Path {
    /// Which prefixes are live.
    ghost live: { Self → List Bool → Bool };

    /// How many blocks there are.
    ghost blocks: { Self → ℕ };

    /// The present prefix.
    ghost prefix: { Self → List Bool };

    /// How many values the present prefix has.
    fn depth(&self) -> usize
        ensures { result ≡ length (prefix self.now) };

    /// A copy of the present prefix. An `Err` is out of memory.
    fn to_prefix(&self) -> Result<Prefix, Memory>
        ensures { IfOk result (λ copy. copy ≡ prefix self.now) };

    /// How many blocks there are. No live prefix is longer.
    fn block_count(&self) -> usize
        ensures count { result ≡ blocks self.now }
        ensures tree { IsTree (live self.now) (blocks self.now) };

    /// Whether the present prefix is live. What a live prefix begins with is live. The way stays
    /// where it is, but may note what it finds out.
    fn is_live(&mut self) -> bool
        ensures asked { result ≡ live self.old (prefix self.old) }
        ensures tree { IsTree (live self.old) (blocks self.old) }
        ensures live { live self.new ≡ live self.old }
        ensures blocks { blocks self.new ≡ blocks self.old }
        ensures prefix { prefix self.new ≡ prefix self.old };

    /// Goes to the present prefix with one value more.
    fn go_down(&mut self, full: bool)
        requires { length (prefix self.old) < blocks self.old }
        ensures live { live self.new ≡ live self.old }
        ensures blocks { blocks self.new ≡ blocks self.old }
        ensures prefix { prefix self.new ≡ prefix self.old ++ full ∷ [] };

    /// Takes the last value back and gives it, unless there is none.
    fn go_up(&mut self) -> Option<bool>
        ensures live { live self.new ≡ live self.old }
        ensures blocks { blocks self.new ≡ blocks self.old }
        ensures prefix { MatchOption result
            ((prefix self.old ≡ []) × (prefix self.new ≡ []))
            (λ full. prefix self.old ≡ prefix self.new ++ full ∷ []) };
}
