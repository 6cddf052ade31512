//! An assembler for RV32IMA: the texts of instructions, labels, some pseudo-instructions and words of data.
#![tactic(auto)]

mod assembling;
mod bytes;
mod instructions;
mod labels;
pub mod laws;
mod lines;
mod mnemonics;
mod numbers;
mod operands;
mod operations;
mod registers;
mod tables;

pub use assembling::{AsmError, assemble};
