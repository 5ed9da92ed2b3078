//! A sink in memory, whose calls fail where they are told to.
//!
//! In a call that is to fail after some bytes there may be no memory for these: then the call
//! answers Memory and not Failed.

ghost use Rattle.std.specs.Prelude.{◌≡◌, ℕ, ◌≤◌, [], ◌++◌, take, Some, None, IsErrOf, OnOk, OnErr};
ghost use Rattle.std.specs.Io.KnownBytes.{Appends};
ghost use Rattle.tv_base.specs.Faults.{Rose, one_more};
ghost use Rattle.tv_base.specs.Memory.{cut_of};
ghost use Rattle.tv_base.specs.Pieces.{AppendsPrefix};

use crate::{Sink, SinkError};
use std::marker::Model;

/// A sink that holds what is written to it. Its calls are numbered from 1, and those whose numbers
/// it was given take some bytes and fail.
#[derive(Debug, Drop)]
pub struct MemSink {
    bytes: Vec<u8>,
    fail: Vec<(u32, usize)>,
    calls: u64,
    faults: u64,
}

impl Model for MemSink {
    ghost use Rattle.tv_base.specs.Memory.{SinkState};

    ghost Value = { SinkState };

    ghost view = { λ s. record {
      held = s.bytes.items;
      fail = s.fail.items;
      calls = s.calls;
      faults = s.faults;
    } };
}

impl MemSink {
    /// An empty sink. A pair of a call's number and a count of bytes makes that call take so many
    /// bytes of its piece, or all of a shorter one, and then fail: of two pairs for one call the
    /// first counts. A number of a call is a `u64` that stays at its greatest value.
    pub fn new(fail: Vec<(u32, usize)>) -> Self
        ensures { result ≡ record { held = []; fail = fail.items; calls = 0; faults = 0 } }
    {
        MemSink {
            bytes: Vec::new(*fail.allocator()),
            fail,
            calls: 0,
            faults: 0,
        }
    }

    /// All that was written.
    pub fn bytes(&self) -> &[u8]
        ensures { result.now ≡ self.now.held }
    {
        &self.bytes
    }
}

/// How many bytes the call of this number takes before it fails, or `None` if it doesn't fail.
fn cut_at(fail: &[(u32, usize)], call: u64) -> Option<usize>
    ensures { result ≡ cut_of fail.now call }
{
    fail.iter()
        .find(|pair| u64::from(pair.0) == call)
        .map(|pair| pair.1)
}

impl Sink for MemSink {
    ghost held = { λ s. Some s.held };

    ghost faults = { λ s. s.faults };

    fn write_all(&mut self, piece: &[u8]) -> Result<(), SinkError>
        ensures later { self.old.faults ≤ self.new.faults }
        ensures written { OnOk result
            (Appends (Some self.old.held) (Some self.new.held) piece.now) }
        ensures prefix { OnErr result
            (AppendsPrefix (Some self.old.held) (Some self.new.held) piece.now) }
        ensures failed { IsErrOf result SinkError.Failed → Rose self.old.faults self.new.faults }

        // A call whose number is listed takes the bytes that are named there and fails, and each
        // other takes its piece. Where memory runs out, either takes nothing.
        ensures ok { OnOk result ((cut_of self.old.fail (one_more self.old.calls) ≡ None)
            × (self.new ≡ record self.old {
              held = self.old.held ++ piece.now;
              calls = one_more self.old.calls;
            })) }
        ensures cut { IsErrOf result SinkError.Failed → ((kept : ℕ)
            × (cut_of self.old.fail (one_more self.old.calls) ≡ Some kept)
            × (self.new ≡ record self.old {
              held = self.old.held ++ take kept piece.now;
              calls = one_more self.old.calls;
              faults = one_more self.old.faults;
            })) }
        ensures memory { IsErrOf result SinkError.Memory →
            self.new ≡ record self.old { calls = one_more self.old.calls } }
    {
        self.calls = self.calls.saturating_add(1);
        let Some(kept) = cut_at(&self.fail, self.calls) else {
            self.bytes.extend_from_slice(piece)?;
            return Ok(());
        };
        self.bytes
            .extend_from_slice(&piece[..kept.min(piece.len())])?;
        self.faults = self.faults.saturating_add(1);
        Err(SinkError::Failed)
    }
}
