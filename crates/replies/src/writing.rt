//! Writing a text in one call of the sink.

ghost use Rattle.std.specs.Prelude.{◌≡◌, ◌≤◌};
ghost use Rattle.replies.specs.Writings.{EndsText, EndsWriting, IsReply};
ghost use Rattle.tv_base.specs.Faults.{Rose};

use crate::status::{Answer, Failure, Status};
use tv_base::{Sink, SinkError};

/// Writes a text in one piece. `WriteFault` comes where the sink fails, and only where its count of
/// faults rises; `Memory` where it has no memory for the text.
pub fn write_text<K: Sink>(sink: &mut K, text: &[u8]) -> Result<(), Failure>
    ensures later { K.faults sink.old ≤ K.faults sink.new }
    ensures ends { EndsText (λ told. told ≡ text.now) (λ told. told ≡ text.now)
        (K.held sink.old) (K.held sink.new) (Rose (K.faults sink.old) (K.faults sink.new)) result }
{
    match sink.write_all(text) {
        Ok(()) => Ok(()),
        Err(SinkError::Failed) => Err(Failure::WriteFault),
        Err(SinkError::Memory) => Err(Failure::Memory),
    }
}

/// Writes the text of an answer in one piece, and is that answer, or fails as [`write_text`] does.
pub fn write_reply<K: Sink>(answer: Answer, text: &[u8], sink: &mut K) -> Status
    ensures { EndsWriting (IsReply answer text.now) (IsReply answer text.now) (K.held sink.old)
        (K.held sink.new) (Rose (K.faults sink.old) (K.faults sink.new)) result }
{
    write_text(sink, text)?;
    Ok(answer)
}
