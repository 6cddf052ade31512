//! Reads the command words of the simulator: the order that they give, or their first fault.
#![tactic(auto)]

mod commands;
mod given;
mod items;
mod numerals;
mod options;
mod orders;
mod pairs;
mod reading;
mod settings;
mod steps;
mod tables;
mod values;

pub use commands::Command;
pub use orders::Order;
pub use reading::{WordError, read_words, word_fault};
pub use values::{Format, Mode};
