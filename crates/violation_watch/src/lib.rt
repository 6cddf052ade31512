//! Monitors of a drift: what was handled out of the order of its stamps.
#![tactic(auto)]

pub mod laws;
pub mod scans;
pub mod watches;

pub use scans::scan;
pub use watches::Watch;
