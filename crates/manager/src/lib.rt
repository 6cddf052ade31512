//! The manager of a drift by threads: it owns the channels, serves the asks of the cores, and raises global time.
#![tactic(auto)]

pub mod laws;
pub mod legs;
pub mod managers;
pub mod picking;
pub mod serving;
pub mod turns;

pub use managers::{Desk, Manager};
