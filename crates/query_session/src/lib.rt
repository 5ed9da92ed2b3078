//! Readers of a book: what they are asked, how that is read, and what they tell.
#![tactic(auto)]

mod ask;
mod laws;
mod playing;
mod reading;
mod scripts;
mod telling;

pub use ask::{Ask, AskFault, AskKind, AskRefused, Asking, ReaderTale, Waiter};
pub use laws::{askings_are_read_as_spelled, pages_are_of_one_list, pages_keep_what_was_seen};
pub use playing::play;
pub use scripts::asks_of;
pub use telling::tale_of;
