//! Runs cycle by cycle that leap: cycles in which no core can hear of another are gone over at once.
#![tactic(auto)]

pub mod laws;
mod leaps;
mod messages;
mod outlook;
pub mod runs;
mod sweeps;

pub use laws::law_of_leaps;
pub use runs::{run, run_to};
