//! std's writers as sinks. As sinks they tell nothing of their bytes; what a writer itself tells is
//! kept.

ghost use Rattle.std.specs.Prelude.{◌≡◌, ◌≢◌, ◌≤◌, None, OnOk, OnErr, IsErrOf, is_ok, if◌then◌else◌};
ghost use Rattle.std.specs.Io.KnownBytes.{Appends};
ghost use Rattle.tv_base.specs.Faults.{Rose, one_more};
ghost use Rattle.tv_base.specs.Pieces.{AppendsPrefix};
ghost use Rattle.tv_base.specs.Standard.{writer_of, sink_faults};

use crate::{Failed, Sink, SinkError};
use std::io::Write;

/// A writer of std as a sink, which is flushed after each piece. Each `Err` of the writer or of the
/// flush is a fault, and so is a writer that takes no byte of a piece that has some.
#[derive(Debug, Drop)]
pub struct StdSink<W> {
    writer: W,
    faults: u64,
}

impl<W: Write> StdSink<W> {
    /// A sink that passes its pieces to the writer, and hasn't failed yet.
    pub fn new(writer: W) -> Self
        ensures writer { writer_of result ≡ writer }
        ensures faults { sink_faults result ≡ 0 }
    {
        StdSink { writer, faults: 0 }
    }
}

/// Writes the piece and flushes the writer.
fn write_and_flush<W: Write>(writer: &mut W, piece: &[u8]) -> Result<(), Failed>
    ensures ok { OnOk result (Appends (W.contents writer.old) (W.contents writer.new) piece.now) }
    ensures err { OnErr result
        (AppendsPrefix (W.contents writer.old) (W.contents writer.new) piece.now) }
{
    let mut rest = piece;
    while !rest.is_empty() {
        match writer.write(rest) {
            Ok(0) | Err(_) => return Err(Failed),
            Ok(count) => rest = &rest[count..],
        }
    }
    match writer.flush() {
        Ok(()) => Ok(()),
        Err(_) => Err(Failed),
    }
}

impl<W: Write> Sink for StdSink<W> {
    ghost held = { λ _. None };

    ghost faults = { sink_faults };

    fn write_all(&mut self, piece: &[u8]) -> Result<(), SinkError>
        ensures later { sink_faults self.old ≤ sink_faults self.new }
        ensures written { OnOk result (Appends None None piece.now) }
        ensures prefix { OnErr result (AppendsPrefix None None piece.now) }
        ensures failed { IsErrOf result SinkError.Failed →
            Rose (sink_faults self.old) (sink_faults self.new) }

        // Each Err is counted, and nothing else is. It takes no memory.
        ensures counted { sink_faults self.new
            ≡ (if is_ok result then sink_faults self.old else one_more (sink_faults self.old)) }
        ensures memory { result ≢ Err SinkError.Memory }

        // What the writer itself tells of its bytes.
        ensures writer { OnOk result (Appends
            (W.contents (writer_of self.old)) (W.contents (writer_of self.new)) piece.now) }
        ensures writer_prefix { OnErr result (AppendsPrefix
            (W.contents (writer_of self.old)) (W.contents (writer_of self.new)) piece.now) }
    {
        match write_and_flush(&mut self.writer, piece) {
            Ok(()) => Ok(()),
            Err(Failed) => {
                self.faults = self.faults.saturating_add(1);
                Err(SinkError::Failed)
            }
        }
    }
}
