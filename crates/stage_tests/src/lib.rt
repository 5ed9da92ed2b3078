//! Tests of the stages from a file to its columns by their public calls: what no clause says.
//! Expected values were found by hand.
#![tactic(auto)]

#[cfg(test)]
mod arguments;
#[cfg(test)]
mod column_styles;
#[cfg(test)]
mod columns_met;
#[cfg(test)]
mod drawn_columns;
#[cfg(test)]
mod graphs;
#[cfg(test)]
mod grids;
#[cfg(test)]
mod six_layers;
#[cfg(test)]
mod sources;
#[cfg(test)]
mod successions;
#[cfg(test)]
mod view_runs;
#[cfg(test)]
mod wanted_pairs;
