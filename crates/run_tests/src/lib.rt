//! Tests of whole runs: the very bytes that come out, that memory is found, and that the
//! definitions mean what they say.
#![tactic(auto)]

#[cfg(test)]
mod asked;
#[cfg(test)]
mod blocks_told;
#[cfg(test)]
mod decimals;
#[cfg(test)]
mod deep;
#[cfg(test)]
mod drawings;
#[cfg(test)]
mod entities;
#[cfg(test)]
mod further;
#[cfg(test)]
mod held;
#[cfg(test)]
mod hostile;
#[cfg(test)]
mod logs;
#[cfg(test)]
mod options;
#[cfg(test)]
mod pages;
#[cfg(test)]
mod polylines;
#[cfg(test)]
mod redraws;
#[cfg(test)]
mod rows;
#[cfg(test)]
mod runs;
#[cfg(test)]
mod sections;
#[cfg(test)]
mod sets;
#[cfg(test)]
mod texts;
#[cfg(test)]
mod triangles;
#[cfg(test)]
mod two_views;
#[cfg(test)]
mod values;
#[cfg(test)]
mod workers;
