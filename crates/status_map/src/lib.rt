//! The status map of a bus: for each line of memory who holds it, and what an ask for the line makes of that.
#![tactic(auto)]

pub mod batches;
pub mod cores;
pub mod entries;
pub mod laws;
pub mod views;

pub use batches::PostBatch;
pub use entries::Entry;
pub use views::{Delays, EntryKind, EntryView};
