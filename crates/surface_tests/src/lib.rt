//! Tests of the faces, texts and further views of solids by the stages' public calls: what no clause
//! says. Expected values were found by hand.
#![tactic(auto)]

#[cfg(test)]
mod face_lists;
#[cfg(test)]
mod fitting_solids;
#[cfg(test)]
mod planes;
#[cfg(test)]
mod problems;
#[cfg(test)]
mod surface_texts;
#[cfg(test)]
mod surfaces;
#[cfg(test)]
mod texts;
