//! Machine words of RV32IMA and the instructions that they stand for: decoding and encoding, after the tables of
//! the RISC-V Unprivileged ISA (20191213, chapter 24).
#![tactic(auto)]

mod codes;
mod decoding;
mod encoding;
mod fields;
mod formats;
pub mod laws;
mod mnemonics;
mod opcodes;
mod operations;
mod ranges;
mod texts;

pub use decoding::decode;
pub use encoding::encode;
pub use ranges::is_in_range;
pub use slack_base::{
    AmoOp, BranchOp, ByteList, ImmOp, Instr, LoadOp, OutOfMemory, RegOp, ShiftOp, StoreOp,
};
pub use texts::{InstrText, text_of};
