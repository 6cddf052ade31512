//! Generated programs and generated interleavings: what they are depends on a seed alone.
#![tactic(auto)]

mod choices;
mod draws;
mod interleavings;
pub mod laws;
mod programs;
mod registers;

pub use interleavings::steps;
pub use programs::program;
pub use slack_base::{Config, Image, OutOfMemory, Step, StepList};
