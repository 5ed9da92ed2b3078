//! Tests of searches, by one and by many, of what they stand on, and of the book that they publish.
#![tactic(auto)]

#[cfg(test)]
mod books;
#[cfg(test)]
mod columns_anew;
#[cfg(test)]
mod deep;
#[cfg(test)]
mod demands;
#[cfg(test)]
mod ends;
#[cfg(test)]
mod forced;
#[cfg(test)]
mod masks;
#[cfg(test)]
mod searches;
#[cfg(test)]
mod trees;
#[cfg(test)]
mod workers;
