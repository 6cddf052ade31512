//! Tests of the texts of a run and of an image, and of the lines that are not coherent.
#![tactic(auto)]

#[cfg(test)]
mod breaks;
#[cfg(test)]
mod consoles;
#[cfg(test)]
mod ends;
#[cfg(test)]
mod listings;
#[cfg(test)]
mod machines;
#[cfg(test)]
mod notes;
#[cfg(test)]
mod races;
