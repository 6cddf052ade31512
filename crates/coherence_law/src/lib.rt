//! Coherence of the machine's caches: which lines break it, and that none ever does.
#![tactic(auto)]

mod broken;
pub mod laws;
mod texts;

pub use broken::{LineList, breaks};
pub use texts::coherence_text;
