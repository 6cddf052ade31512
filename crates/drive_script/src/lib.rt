//! Drifts of given interleavings.
#![tactic(auto)]

pub mod drives;
pub mod ends;
pub mod finishing;
pub mod lanes;
pub mod laws;
pub mod runs;
pub mod worlds;

pub use drives::drive;
pub use lanes::Lane;
pub use runs::script_run;
