//! Drifts by threads, each core in a thread of its own and the manager beside them, and drifts on one thread.
#![tactic(auto)]

pub mod crews;
pub mod drifts;
pub mod finishes;
pub mod legs;
pub mod parts;
pub mod rigs;
pub mod runs;

pub use drifts::{Pace, drift, drift_serial};
pub use runs::bounded_run;
