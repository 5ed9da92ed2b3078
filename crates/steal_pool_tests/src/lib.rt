//! Tests of the pool: a small one by hand, and workers in threads, which show too how a caller
//! proves that it closes a pool with all its seats.
#![tactic(auto)]

#[cfg(test)]
mod tests;
