//! Speculative runs: each interval is a drift by threads, which is taken back where its monitors saw something.
#![tactic(auto)]

mod intervals;
pub mod runs;

pub use runs::{Run, Speculated, speculate};
