//! A core of the machine: its registers, its cache and its inbox, and what it does in a cycle.
#![tactic(auto)]

pub mod accesses;
pub mod code;
pub mod effects;
mod harts;
mod kept;
pub mod laws;
mod marks;
mod noted_caches;
mod noted_sets;
mod outcomes;
pub mod timed_cores;

pub use accesses::Access;
pub use code::Code;
pub use effects::Effect;
pub use timed_cores::TimedCore;
