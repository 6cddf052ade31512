//! What memory holds before the first cycle: the bytes of an image's segments, and zeros everywhere else.
#![tactic(auto)]

mod loading;

pub use loading::loaded_bytes;
