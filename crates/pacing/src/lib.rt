//! Drifts that keep pace by pieces: the cores wait for each other every few cycles.
#![tactic(auto)]

pub mod drifts;
pub mod ends;
pub mod lanes;
pub mod laws;
pub mod runs;
pub mod sweeps;
pub mod turns;
pub mod underway;

pub use drifts::quantum_drift;
pub use runs::quantum_run;
