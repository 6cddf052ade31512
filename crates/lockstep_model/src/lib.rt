//! The RISC-V machine: its cores and channels as a target, and its state before the first cycle.
#![tactic(auto)]

pub mod rules;
pub mod rv_targets;
pub mod starting;

pub use rv_targets::RvTarget;
pub use starting::{Machine, start};
