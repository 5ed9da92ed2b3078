//! Where bytes come from.
//!
//! A read that fails loses at most as many bytes as its buffer has: that is a clause (`lost`), since
//! nothing else says what is left after it. So what was read can be bounded whatever `read_all`
//! answers.

ghost use Rattle.std.specs.Prelude.{◌≡◌, ℕ, ◌<◌, ◌≤◌, List, Option, length, take, IfOk, OnErr};
ghost use Rattle.std.specs.Io.KnownBytes.{Consumes, IsAtEnd};
ghost use Rattle.tv_base.specs.Faults.{Rose};
ghost use Rattle.tv_base.specs.Pieces.{ReadsWithin};

/// A fault of an object that was handed in.
#[derive(Clone, Copy, Debug, PartialEq, Eq)]
pub struct Failed;

/// Gives bytes from the first to the last, in pieces of any length.
pub trait Source {
    /// The bytes that are not yet read, where the source tells them.
    ghost left: { Self → Option (List ℕ) };

    /// How often the source has failed. The count stands still at the greatest `u64`.
    ghost faults: { Self → ℕ };

    /// Puts the next bytes at the beginning of the buffer, and says how many they are. 0 bytes into
    /// a buffer that isn't empty is the end. `Failed` comes only where the count of faults rose in
    /// this call, and then no more bytes are lost than the buffer has.
    fn read(&mut self, buffer: &mut [u8]) -> Result<usize, Failed>
        ensures later { faults self.old ≤ faults self.new }
        ensures fits { IfOk result (λ n. n ≤ length buffer.new) }
        ensures bytes { IfOk result (λ n.
            Consumes (left self.old) (left self.new) (take n buffer.new)) }
        ensures end { IfOk result (λ n. n ≡ 0 → 0 < length buffer.new → IsAtEnd (left self.new)) }
        ensures failed { OnErr result (Rose (faults self.old) (faults self.new)) }
        ensures lost { OnErr result
            (ReadsWithin (left self.old) (left self.new) (length buffer.new)) };
}
