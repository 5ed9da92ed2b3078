//! What std's readers give and its writers hold, and that pieces are flushed.

use std::alloc::Global;
use std::io;
use std::io::{Read, Write};
use std::test::Fail;
use tv_base::{MemSink, Sink, SinkError, StdSink, StdSource, read_all};

#[test]
fn what_a_reader_gives_comes_to_a_sink(rt: HostRuntime) -> Result<(), Fail> {
    let alloc = rt.alloc();
    let bytes = read_all(alloc, &mut StdSource::new(b"edge".as_slice()), 4)?;
    let mut sink = MemSink::new(Vec::new(alloc));
    assert_eq!(rt; sink.write_all(&bytes), Ok(()));
    assert_eq!(rt; sink.bytes(), b"edge".as_slice());
    Ok(())
}

/// A writer that takes at most two bytes a call while it has room, and can be flushed so many
/// times.
#[derive(Drop)]
struct Choppy {
    taken: Vec<u8>,
    capacity: usize,
    flushes: u8,
}

impl Write for Choppy {
    fn write(&mut self, piece: &[u8]) -> io::Result<usize> {
        let count = piece.len().min(2).min(self.capacity);
        self.taken.extend_from_slice(&piece[..count])?;
        self.capacity -= count;
        Ok(count)
    }

    fn flush(&mut self) -> io::Result<()> {
        if self.flushes == 0 {
            return Err(io::Error::other("not flushed"));
        }
        self.flushes -= 1;
        Ok(())
    }
}

impl Choppy {
    /// A writer with room for so many bytes, which can be flushed once.
    fn with_capacity(alloc: Global, capacity: usize) -> Choppy {
        Choppy {
            taken: Vec::new(alloc),
            capacity,
            flushes: 1,
        }
    }
}

#[test]
fn each_piece_is_written_and_flushed(rt: HostRuntime) -> Result<(), Fail> {
    let mut choppy = Choppy::with_capacity(rt.alloc(), 5);
    let mut sink = StdSink::new(&mut choppy);
    assert_eq!(rt; sink.write_all(b"abc"), Ok(()));
    assert_eq!(rt; sink.write_all(b"de"), Err(SinkError::Failed));
    assert_eq!(rt; choppy.taken.as_slice(), b"abcde".as_slice());
    Ok(())
}

#[test]
fn a_full_writer_fails(rt: HostRuntime) -> Result<(), Fail> {
    let mut choppy = Choppy::with_capacity(rt.alloc(), 3);
    let mut sink = StdSink::new(&mut choppy);
    assert_eq!(rt; sink.write_all(b"abcd"), Err(SinkError::Failed));
    Ok(())
}

/// A reader that has nothing, and keeps how large a buffer each call gave it.
#[derive(Drop)]
struct Buffers {
    buffers: Vec<usize>,
}

impl Read for Buffers {
    fn read(&mut self, buffer: &mut [u8]) -> io::Result<usize> {
        self.buffers.push(buffer.len())?;
        Ok(0)
    }
}

/// How large a buffer `read_all` gives a reader that has nothing, where so many bytes are the most.
fn buffers_for(alloc: Global, most: usize) -> Result<Vec<usize>, Fail> {
    let mut seen = Buffers {
        buffers: Vec::new(alloc),
    };
    read_all(alloc, &mut StdSource::new(&mut seen), most)?;
    Ok(seen.buffers)
}

#[test]
fn reads_have_a_buffer_for_so_many_bytes(rt: HostRuntime) -> Result<(), Fail> {
    assert_eq!(rt;
        buffers_for(rt.alloc(), 16_777_216)?.as_slice(),
        [65_536usize].as_slice()
    );
    assert_eq!(rt; buffers_for(rt.alloc(), 4)?.as_slice(), [5usize].as_slice());
    Ok(())
}
