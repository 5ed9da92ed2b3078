//! Successions on finitely many nodes.
//!
//! `onward` passes over nodes that surely aren't inside; a type needn't pass over any, so that one
//! without an order of its own is a succession too.

ghost use Rattle.std.specs.Prelude.{◌≡◌, Bool, false, IsTrue, ℕ, ◌<◌, ◌≤◌};
ghost use Rattle.rounds.specs.Succession.{IsInside, IsOneToOne};

/// A succession: some of finitely many nodes, numbered from 0, are inside. Each inside node is
/// followed by an inside node, and follows one alone.
pub trait Succession {
    /// How many nodes there are.
    ghost nodes: { Self → ℕ };

    /// A node is inside.
    ghost inside: { Self → ℕ → Bool };

    /// The node that follows a node.
    ghost next: { Self → ℕ → ℕ };

    /// How many nodes there are.
    fn node_count(&self) -> usize
        ensures { result ≡ nodes self.now };

    /// A node is inside.
    fn has(&self, node: usize) -> bool
        requires { node < nodes self.now }
        ensures { result ≡ inside self.now node };

    /// Of a node, or of the end, the first node from there on that may be inside, or the end: none
    /// before it is. What a type can't pass over stays where it is.
    fn onward(&self, node: usize) -> usize
        requires { node ≤ nodes self.now }
        ensures later { node ≤ result }
        ensures within { result ≤ nodes self.now }
        ensures none { (a : ℕ) → node ≤ a → a < result → inside self.now a ≡ false }
    {
        node
    }

    /// The node that follows an inside node.
    fn following(&self, node: usize) -> usize
        requires { IsInside (nodes self.now) (inside self.now) node }
        ensures next { result ≡ next self.now node }
        ensures inside { IsInside (nodes self.now) (inside self.now) result }
        ensures one_to_one { IsOneToOne (nodes self.now) (inside self.now) (next self.now) };
}
