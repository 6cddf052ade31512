//! The ranges of an instruction's fields.
ghost use Rattle.std.specs.Prelude.{◌≡◌, ◌↔◌, ◌<◌, ◌^◌, IsTrue, pos};
ghost use Rattle.rv_decode.specs.Ranges.{IsRegister, IsWithin, IsImmediate, IsBranchOffset, IsJumpOffset, IsInRange};
ghost use Rattle.rv_decode.specs.Fields.{opcode_of, f3_of};

use crate::{fields, opcodes};
use slack_base::Instr;

/// Whether each field of an instruction is in its range.
pub fn is_in_range(instr: &Instr) -> bool
    ensures { IsTrue result ↔ IsInRange instr.now }
{
    match *instr {
        Instr::Lui { rd, upper } | Instr::Auipc { rd, upper } => {
            is_register(rd) && upper < 1 << 20
        }
        Instr::Jal { rd, offset } => is_register(rd) && is_jump_offset(offset),
        Instr::Jalr { rd, rs1, offset } => are_registers(rd, rs1) && is_immediate(offset),
        Instr::Load {
            rd,
            rs1,
            offset,
            ..
        } => are_registers(rd, rs1) && is_immediate(offset),
        Instr::Branch {
            rs1,
            rs2,
            offset,
            ..
        } => are_registers(rs1, rs2) && is_branch_offset(offset),
        Instr::Store {
            rs1,
            rs2,
            offset,
            ..
        } => are_registers(rs1, rs2) && is_immediate(offset),
        Instr::Imm { rd, rs1, value, .. } => are_registers(rd, rs1) && is_immediate(value),
        Instr::Shift {
            rd,
            rs1,
            amount,
            ..
        } => are_registers(rd, rs1) && amount < 32,
        Instr::Reg { rd, rs1, rs2, .. }
        | Instr::Sc { rd, rs1, rs2, .. }
        | Instr::Amo { rd, rs1, rs2, .. } => are_registers(rd, rs1) && is_register(rs2),
        Instr::Lr { rd, rs1, .. } => are_registers(rd, rs1),
        Instr::Fence { word } => is_fence(word),
        Instr::Ecall | Instr::Ebreak => true,
    }
}

fn is_register(register: u32) -> bool
    ensures { IsTrue result ↔ IsRegister register }
{
    register < 32
}

fn are_registers(first: u32, second: u32) -> bool
    ensures { IsTrue result ↔ (IsRegister first × IsRegister second) }
{
    is_register(first) && is_register(second)
}

fn is_immediate(value: i32) -> bool
    ensures { IsTrue result ↔ IsImmediate value }
{
    -(1 << 11) <= value && value < 1 << 11
}

fn is_branch_offset(offset: i32) -> bool
    ensures { IsTrue result ↔ IsBranchOffset offset }
{
    -(1 << 12) <= offset && offset < 1 << 12 && offset.unsigned_abs() % 2 == 0
}

fn is_jump_offset(offset: i32) -> bool
    ensures { IsTrue result ↔ IsJumpOffset offset }
{
    -(1 << 20) <= offset && offset < 1 << 20 && offset.unsigned_abs() % 2 == 0
}

fn is_fence(word: u32) -> bool
    ensures { IsTrue result ↔ ((opcode_of word ≡ 0b0001111) × (f3_of word ≡ 0b000)) }
{
    fields::opcode(word) == opcodes::MISC_MEM && fields::f3(word) == 0b000
}
