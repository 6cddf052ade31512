//! What mnemonics stand for.

use slack_base::{AmoOp, BranchOp, ImmOp, LoadOp, RegOp, ShiftOp, StoreOp};

/// An instruction or pseudo-instruction, without its operands.
#[derive(Clone, Copy)]
pub enum Operation {
    Lui,
    Auipc,
    Jal,
    Jalr,
    Branch(BranchOp),
    Load(LoadOp),
    Store(StoreOp),
    Imm(ImmOp),
    Shift(ShiftOp),
    Reg(RegOp),
    Lr { aq: bool, rl: bool },
    Sc { aq: bool, rl: bool },
    Amo { op: AmoOp, aq: bool, rl: bool },
    Fence,
    Ecall,
    Ebreak,
    /// Does nothing.
    Nop,
    /// Copies a register.
    Mv,
    /// Inverts the bits of a register.
    Not,
    /// Takes a register from zero.
    Neg,
    /// Jumps, and keeps no address to return to.
    J,
    /// Returns from a function.
    Ret,
    /// Branches by a register against zero.
    BranchZero(BranchOp),
}
