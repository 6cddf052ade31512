//! Targets: what a machine of cores and channels is, its cycles, and its runs from checkpoint to checkpoint.
#![tactic(auto)]

pub mod advances;
pub mod cycles;
pub mod in_sight;
pub mod laws;
pub mod states;
pub mod targets;
pub mod ticks;
pub mod trio;

pub use advances::advance_to;
pub use cycles::{close_all, cycle, deliver_all, run_to, serve_all, stopped};
pub use in_sight::InSight;
pub use states::{Bounded, Drifted, State};
pub use targets::Target;
pub use ticks::{drift_ticks, replay_ticks};
pub use trio::{Trio, TrioChan, TrioCore};
