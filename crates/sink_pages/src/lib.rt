//! Pages that go to a sink, as texts.
//!
//! A crate of its own below `recon_run`: what a sink gains by pages needs nothing of the stages,
//! and an edit of it is tried over a small crate. It owns the sink while the search goes on, and
//! gives it back; what the sink held before is a ghost parameter of its type (`Begun`). The pages
//! are kept, so that a search's contract on its calls says what the sink gained. A refused page is
//! the last, since a page behind a part of one would be no prefix of a right text. Where further
//! views are asked for, pages are numbered as they are written, not as they were handed out.
#![tactic(auto)]

mod next;
mod pages;

pub use pages::{Begun, SinkPages};
