//! The outside: where bytes come from, where they go, and the gate that workers pass.
#![tactic(auto)]

mod gate;
mod mem_sink;
mod mem_source;
mod pieces;
mod read;
mod sink;
mod source;
mod std_sink;
mod std_source;

pub use gate::{Gate, OpenGate, Point};
pub use mem_sink::MemSink;
pub use mem_source::MemSource;
pub use pieces::{PIECE, write_if_full, write_piece};
pub use read::{ReadEnd, read_all};
pub use sink::{Sink, SinkError};
pub use source::{Failed, Source};
pub use std_sink::StdSink;
pub use std_source::StdSource;
