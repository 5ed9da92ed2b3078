//! The pieces of work that wait for the workers of a search: each worker puts its own into a deque,
//! takes them from there, and steals from the others where it has none.
//!
//! [`Pool::open`] hands out a seat for each worker, and [`Pool::close`] wants all of them back. A
//! seat stays the seat that it is, whatever it puts, takes and steals: every call leaves `seat_of`
//! as it was (`specs/WorkerSeats.antt`). So a worker promises `seat_of result ≡ seat_of seat`, a
//! thread that runs it promises the same, and the condition of `close`, that the seats are the
//! pool's (`map seat_of seats.items ≡ pool`), is then the clause of `open`.
#![tactic(auto)]

mod laws;
mod owner;
mod pool;
mod rule;
mod seat;
mod thief;

pub use laws::a_lone_owner_takes_in_order;
pub use owner::OwnerSeat;
pub use pool::{Pool, Remains};
pub use seat::WorkerSeat;
pub use thief::ThiefSeat;
