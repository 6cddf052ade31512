//! The effects of the operations of RV32IMA on words.
//!
//! A word is a number below 2^32, and arithmetic on words is modulo 2^32. A word is read as a signed number in
//! two's complement. The rules are those of the RISC-V Unprivileged ISA (20191213), chapters 2, 7 and 8.
#![tactic(auto)]

pub mod alignment;
pub mod atomics;
pub mod branches;
mod divisions;
pub mod laws;
pub mod loads;
pub mod operations;
mod products;
pub mod stores;
pub mod targets;
pub mod words;

pub use alignment::{is_aligned_load, is_aligned_store};
pub use atomics::amo_result;
pub use branches::branch_taken;
pub use loads::load_part;
pub use operations::alu;
pub use stores::store_part;
pub use targets::target;
pub use words::word;
