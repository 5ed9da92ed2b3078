//! A book of the solids of a problem: one writer publishes them, and up to 16 readers read them,
//! page by page, without a lock.
//!
//! What is published at a moment is an edition: the problem, and the list of the solids so far.
//! Each publishing shows a new one at one step, and its list begins with that of the one before. A
//! reader that looks sees one edition, whose list begins with each one that it has seen or learnt.
#![tactic(auto)]

mod batch;
mod book;
mod edition;
mod laws;
mod reader;
mod receipt;
mod rule;
mod shared;
mod shown;
mod solids;
mod writer;

pub use book::Book;
pub use laws::{pages_are_one_list, pages_are_short_at_the_end, pages_only_grow};
pub use reader::{BookReader, Page};
pub use receipt::Receipt;
pub use writer::BookWriter;
