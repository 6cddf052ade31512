//! Plain text that is read and written: digits and the numbers that they spell, and a text that grows.
#![tactic(auto)]

mod numerals;
mod texts;

pub use numerals::numeral_of;
pub use texts::{Text, hex_digit};
