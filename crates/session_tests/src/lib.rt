//! Tests of readers: what they are asked, the lines that are refused, and sessions beside a search.
#![tactic(auto)]

#[cfg(test)]
mod askings;
#[cfg(test)]
mod sessions;
