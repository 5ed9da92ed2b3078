//! Which pairs a reader gives.

/// A question about group codes: those that are wanted.
pub trait CodeTest {
    ghost use Rattle.std.specs.Prelude.{◌≡◌, ℤ, Bool};

    /// Whether a code is wanted.
    ghost wanted: { Self → ℤ → Bool };

    /// Whether the code is wanted.
    fn wants(&self, code: i32) -> bool
        ensures { result ≡ wanted self.now code };
}
