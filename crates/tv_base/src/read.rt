//! All the bytes of a source.
//!
//! `From` is written by hand, since clauses name the error that `?` makes.

ghost use Rattle.std.specs.Prelude.{◌≡◌, ℕ, ◌+◌, ◌-◌, ◌<◌, ◌≤◌, List, ◌++◌, length, IfOk, OnOk, OnErr, IsErrOf};
ghost use Rattle.std.specs.Io.KnownBytes.{Consumes, IsAtEnd};
ghost use Rattle.tv_base.specs.Faults.{Rose};
ghost use Rattle.tv_base.specs.Pieces.{ReadsAll, ReadsPast, ReadsWithin};
ghost use Rattle.tv_base.specs.declared.read.ReadEnd.TheVariants.{Failed as SourceFailed, Memory};

use crate::{Failed, Source};
use std::alloc::{AllocError, Global};

/// Why a source was not read to its end.
#[derive(Clone, Copy, Debug, PartialEq, Eq)]
pub enum ReadEnd {
    /// The source has failed.
    Failed,
    /// The source has more bytes than may be read.
    TooLong,
    /// Out of memory.
    Memory,
}

impl From<AllocError> for ReadEnd {
    ghost from_gives = { λ _ e. e ≡ Memory };

    fn from(_: AllocError) -> Self {
        ReadEnd::Memory
    }
}

impl From<Failed> for ReadEnd {
    ghost from_gives = { λ _ e. e ≡ SourceFailed };

    fn from(_: Failed) -> Self {
        ReadEnd::Failed
    }
}

/// The most bytes of one read.
const BUFFER: usize = 65_536;

/// Reads to the source's end, which is at most `most` bytes away: at one byte more it stops
/// reading, and answers `TooLong`. It answers `Failed` where the source does, and `Memory` where
/// memory ran out. Whatever it answers, it has read at most `most + 1` bytes.
pub fn read_all<S: Source>(alloc: Global, source: &mut S, most: usize) -> Result<Vec<u8>, ReadEnd>
    ensures later { S.faults source.old ≤ S.faults source.new }
    ensures ok { IfOk result (λ bytes.
        ReadsAll (S.left source.old) (S.left source.new) bytes.items) }
    ensures fits { IfOk result (λ bytes. length bytes.items ≤ most) }
    ensures too_long { IsErrOf result ReadEnd.TooLong →
        ReadsPast (S.left source.old) (S.left source.new) most }
    ensures within { ReadsWithin (S.left source.old) (S.left source.new) (most + 1) }
    ensures failed { IsErrOf result ReadEnd.Failed →
        Rose (S.faults source.old) (S.faults source.new) }
{
    let mut buffer = vec![in alloc; 0u8; BUFFER.min(most.saturating_add(1))]?;
    let mut bytes = Vec::new(alloc);
    loop {
        let count = read_more(source, &mut buffer, &mut bytes, most)?;
        if count == 0 {
            return Ok(bytes);
        }
    }
}

/// Reads once, at most one byte more than the bytes may still grow by, appends what was read and
/// says how many bytes it is.
fn read_more<S: Source>(
    source: &mut S,
    buffer: &mut [u8],
    bytes: &mut Vec<u8>,
    most: usize,
) -> Result<usize, ReadEnd>
    requires fits { length bytes.old.items ≤ most }
    requires buffer { 0 < length buffer.old }
    ensures later { S.faults source.old ≤ S.faults source.new }
    ensures ok { IfOk result (λ count. (piece : List ℕ) × (length piece ≡ count)
        × (bytes.new.items ≡ bytes.old.items ++ piece)
        × Consumes (S.left source.old) (S.left source.new) piece) }
    ensures end { IfOk result (λ count. count ≡ 0 → IsAtEnd (S.left source.new)) }
    ensures fits { OnOk result (length bytes.new.items ≤ most) }
    ensures too_long { IsErrOf result ReadEnd.TooLong → ((piece : List ℕ)
        × (length bytes.old.items + length piece ≡ most + 1)
        × Consumes (S.left source.old) (S.left source.new) piece) }
    ensures within { OnErr result (ReadsWithin
        (S.left source.old) (S.left source.new) (most + 1 - length bytes.old.items)) }
    ensures failed { IsErrOf result ReadEnd.Failed →
        Rose (S.faults source.old) (S.faults source.new) }
{
    let spare = most - bytes.len();
    let open = buffer.len().min(spare.saturating_add(1));
    let count = source.read(&mut buffer[..open])?;
    if count > spare {
        return Err(ReadEnd::TooLong);
    }
    bytes.extend_from_slice(&buffer[..count])?;
    Ok(count)
}
