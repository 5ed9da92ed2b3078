//! Where bytes go.

ghost use Rattle.std.specs.Prelude.{◌≡◌, ℕ, ◌≤◌, List, Option, OnOk, OnErr, IsErrOf};
ghost use Rattle.std.specs.Io.KnownBytes.{Appends};
ghost use Rattle.tv_base.specs.Faults.{Rose};
ghost use Rattle.tv_base.specs.Pieces.{AppendsPrefix};
ghost use Rattle.tv_base.specs.declared.sink.SinkError.TheVariants.{Memory};

use std::alloc::AllocError;

/// Why a piece was not written whole.
#[derive(Clone, Copy, Debug, PartialEq, Eq)]
pub enum SinkError {
    /// The sink has failed.
    Failed,
    /// Out of memory.
    Memory,
}

impl From<AllocError> for SinkError {
    ghost from_gives = { λ _ e. e ≡ Memory };

    fn from(_: AllocError) -> Self {
        SinkError::Memory
    }
}

/// Takes bytes, piece by piece.
pub trait Sink {
    /// The bytes that the sink holds, where it tells them.
    ghost held: { Self → Option (List ℕ) };

    /// How often the sink has failed. The count stands still at the greatest `u64`.
    ghost faults: { Self → ℕ };

    /// Appends the piece. At an `Err` some prefix of it was appended, or nothing: `Failed` comes
    /// only where the count of faults rose in this call, `Memory` where memory ran out.
    fn write_all(&mut self, piece: &[u8]) -> Result<(), SinkError>
        ensures later { faults self.old ≤ faults self.new }
        ensures written { OnOk result (Appends (held self.old) (held self.new) piece.now) }
        ensures prefix { OnErr result (AppendsPrefix (held self.old) (held self.new) piece.now) }
        ensures failed { IsErrOf result SinkError.Failed →
            Rose (faults self.old) (faults self.new) };
}
