//! Checkpoints: a mark over a whole state, to come back to it or to go on from what came after.
#![tactic(auto)]

pub mod checkpoints;
mod marks;

pub use checkpoints::Checkpoint;
