//! The calendar of a bus: when each ask got the bus since the calendar was closed, and where an ask that comes out of
//! order still fits in.
#![tactic(auto)]

pub mod calendars;
mod entries;
mod inserting;
pub mod laws;
mod openings;
pub mod slots;

pub use calendars::Calendar;
pub use slots::Slot;
