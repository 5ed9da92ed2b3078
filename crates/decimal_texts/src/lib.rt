//! Numbers that are printed with a point: whole numbers of a unit that is one divided by ten to a
//! power.
#![tactic(auto)]

mod decimal;
mod laws;

pub use decimal::push_decimal;
pub use laws::{printed_digits, small_decimals};
