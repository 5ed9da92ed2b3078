//! The laws that join the writer of files to the reader: what is written reads back.
//!
//! In a crate of their own, so that the writer doesn't stand on the reader, nor the reader on the
//! writer.
#![tactic(auto)]

mod laws;

pub use laws::{
    drawings_read_back_as_they_are, plain_files_are_read, plain_files_are_short,
    printed_numbers_are_read, written_files_read_back,
};
