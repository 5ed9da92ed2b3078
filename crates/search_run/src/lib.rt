//! The search of a problem by workers at one desk, with pages of choices as it goes on.
#![tactic(auto)]

mod bench;
mod monitor;
mod opening;
mod paging;
mod running;
mod search;
mod shared;
mod worker;
mod workshop;

pub use monitor::Monitor;
pub use opening::{Opened, open_at, readers_of};
pub use page_calls::{NoPages, PageOut, RunFault};
pub use running::run_search;
pub use search::{Search, SearchSeat};
pub use search_end::SearchEnd;
pub use worker::start_workers;
pub use workshop::Workshop;
