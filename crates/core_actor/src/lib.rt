//! The actor of a core: it runs the core in a thread of its own, in legs.
#![tactic(auto)]

pub mod actors;
pub mod laws;
pub mod legs;
pub mod turns;

pub use actors::{ActorParts, CoreActor};
