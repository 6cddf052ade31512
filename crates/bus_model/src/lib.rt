//! The channels that asks go to: the buses, each with the status map of its lines, and the console.
#![tactic(auto)]

mod buses;
pub mod channels;
mod consoles;
mod counters;
pub mod laws;
mod lines;
mod posts;
mod settings;
mod starting;

pub use channels::{Channel, channel_of};
