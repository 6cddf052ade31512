//! The cache of a core: sets of lines, the most recently used first, each line in a state of MESI.
#![tactic(auto)]

pub mod caches;
pub mod laws;
pub mod lines;
pub mod places;
mod sets;
pub mod words;

pub use caches::Cache;
pub use caches::copies::SetCopy;
pub use lines::{CacheLine, Held, HeldLine, Victim};
pub use places::Found;
pub use words::word_at;
