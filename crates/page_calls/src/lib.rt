//! Calls that hand out pages of choices, while a search goes on and at its end: what takes them,
//! which choices it keeps, and what may be wrong with them.
//!
//! A crate of its own low in the chain: what writes pages and sifts them stands on it, and on
//! nothing of the search, or of what the choices have to fit.
#![tactic(auto)]

mod page_out;
mod sieve;

pub use page_out::{NoPages, PageOut, RunFault};
pub use sieve::{Sieve, sift};
