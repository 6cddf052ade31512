//! The clock table: global time and the clock of each core, in words that threads share, under the rule that global time
//! is at most every clock and no clock is more than the slack ahead of it.
#![tactic(auto)]

pub mod clock_tables;
pub mod laws;
pub mod overseers;
pub mod pacers;
pub mod rules;
pub mod views;

pub use clock_tables::ClockTable;
pub use overseers::Overseer;
pub use pacers::{Pacer, PacerList};
