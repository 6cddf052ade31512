//! Running an image in one of the modes.
#![tactic(auto)]

pub mod modes;
pub mod runs;

pub use runs::{Ran, run_image};
