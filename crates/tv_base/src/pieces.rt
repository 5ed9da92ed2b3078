//! Texts that go to a sink piece by piece, so that of each only a piece is held.
//!
//! What is put together stands in a piece, a `Vec`; `write_if_full` writes it once it is nearly
//! full, and `write_piece`, at the end, what is left. That no piece is longer than 65,536 bytes is
//! what `write_piece` asks for, so that each call keeps it.

ghost use Rattle.std.specs.Prelude.{◌≤◌, length, OnOk, OnErr, IsErrOf};
ghost use Rattle.std.specs.Io.KnownBytes.{Appends};
ghost use Rattle.tv_base.specs.Faults.{Rose};
ghost use Rattle.tv_base.specs.Pieces.{AppendsPrefix, WritesOn};

use crate::sink::{Sink, SinkError};

/// The most bytes that are written at once.
pub const PIECE: usize = 65_536;

/// With so many bytes a piece may have no room for what is added at once.
const FULL: usize = 64_000;

/// Writes a piece.
pub fn write_piece<K: Sink>(sink: &mut K, piece: &[u8]) -> Result<(), SinkError>
    requires { length piece.now ≤ 65536 }
    ensures later { K.faults sink.old ≤ K.faults sink.new }
    ensures ok { OnOk result (Appends (K.held sink.old) (K.held sink.new) piece.now) }
    ensures err { OnErr result (AppendsPrefix (K.held sink.old) (K.held sink.new) piece.now) }
    ensures failed { IsErrOf result SinkError.Failed →
        Rose (K.faults sink.old) (K.faults sink.new) }
{
    sink.write_all(piece)
}

/// Has 1,536 bytes free then: writes the piece where it is full, and begins another one.
pub fn write_if_full<K: Sink>(piece: &mut Vec<u8>, sink: &mut K) -> Result<(), SinkError>
    requires { length piece.old.items ≤ 65536 }
    ensures later { K.faults sink.old ≤ K.faults sink.new }
    ensures ok { OnOk result (WritesOn (K.held sink.old) (K.held sink.new)
        piece.old.items piece.new.items) }
    ensures room { OnOk result (length piece.new.items ≤ 64000) }
    ensures err { OnErr result
        (AppendsPrefix (K.held sink.old) (K.held sink.new) piece.old.items) }
    ensures failed { IsErrOf result SinkError.Failed →
        Rose (K.faults sink.old) (K.faults sink.new) }
{
    if piece.len() > FULL {
        write_piece(sink, piece)?;
        piece.clear();
    }
    Ok(())
}
