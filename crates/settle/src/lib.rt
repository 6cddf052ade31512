//! How a drift by threads is finished, once all ends of its rings are in one thread.
#![tactic(auto)]

pub mod gathers;
pub mod parts;
pub mod settles;
pub mod watching;

pub use parts::Part;
pub use settles::{Settled, settle};
pub use watching::{watch_served, watch_taken};
