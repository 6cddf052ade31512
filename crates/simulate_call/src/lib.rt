//! The one call that the program makes: what a command makes of its input, and how it ends.
#![tactic(auto)]

mod answers;
mod faults;
mod inputs;
mod outputs;
mod runs;
mod simulation;
mod texts;

pub use answers::{Answer, Finish};
pub use faults::fault_text;
pub use simulation::simulate;
