//! std's readers as sources. As sources they tell nothing of their bytes; what a reader itself
//! tells is kept.

ghost use Rattle.std.specs.Prelude.{◌≡◌, ◌<◌, ◌≤◌, length, take, None, IfOk, OnErr, is_ok, if◌then◌else◌};
ghost use Rattle.std.specs.Io.KnownBytes.{Consumes, IsAtEnd, ReadConsumes};
ghost use Rattle.tv_base.specs.Faults.{Rose, one_more};
ghost use Rattle.tv_base.specs.Standard.{reader_of, source_faults};

use crate::{Failed, Source};
use std::io::Read;

/// A reader of std as a source. Each `Err` of the reader is a fault.
#[derive(Debug, Drop)]
pub struct StdSource<R> {
    reader: R,
    faults: u64,
}

impl<R: Read> StdSource<R> {
    /// A source of what the reader gives, which hasn't failed yet.
    pub fn new(reader: R) -> Self
        ensures reader { reader_of result ≡ reader }
        ensures faults { source_faults result ≡ 0 }
    {
        StdSource { reader, faults: 0 }
    }
}

impl<R: Read> Source for StdSource<R> {
    ghost left = { λ _. None };

    ghost faults = { source_faults };

    fn read(&mut self, buffer: &mut [u8]) -> Result<usize, Failed>
        ensures later { source_faults self.old ≤ source_faults self.new }
        ensures fits { IfOk result (λ n. n ≤ length buffer.new) }
        ensures bytes { IfOk result (λ n. Consumes None None (take n buffer.new)) }
        ensures end { IfOk result (λ n. n ≡ 0 → 0 < length buffer.new → IsAtEnd None) }
        ensures failed { OnErr result (Rose (source_faults self.old) (source_faults self.new)) }

        // Each Err is counted, and nothing else is.
        ensures counted { source_faults self.new
            ≡ (if is_ok result then source_faults self.old else one_more (source_faults self.old)) }

        // What the reader itself tells of its bytes.
        ensures reader { ReadConsumes (R.remaining (reader_of self.old))
            (R.remaining (reader_of self.new)) result buffer.new }
    {
        match self.reader.read(buffer) {
            Ok(count) => Ok(count),
            Err(_) => {
                self.faults = self.faults.saturating_add(1);
                Err(Failed)
            }
        }
    }
}
