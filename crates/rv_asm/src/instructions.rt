//! The instructions of a program.
ghost use Rattle.std.specs.Prelude.{◌≡◌};
ghost use Rattle.rv_asm.specs.Instructions.{register_upper, register_displaced, register_target, registers_target, registers_number, registers_address, instruction, code_of, data_of, operation_code, GivesWord};
ghost use Rattle.rv_asm.specs.LabelTables.{places_in};
ghost use Rattle.rv_asm.specs.Ranges.{signed, unsigned, word_of};

use crate::bytes::{parts_at_blank, trim_start};
use crate::labels::Labels;
use crate::mnemonics::operation_of;
use crate::numbers::number_of;
use crate::operands::{
    address, displaced, nothing, register_and, target, three_registers, two_registers,
    two_registers_and,
};
use crate::operations::Operation;
use rv_decode::{encode, is_in_range};
use slack_base::{AsmKind, ImmOp, Instr, RegOp};

/// The word of FENCE as the assembler writes it: it orders all accesses before all after.
const FENCE: u32 = 0x0ff0_000f;

/// A number for a field with a sign.
#[tactic(auto, unfolding(crate::specs::Ranges::signed))]
fn signed(number: i64) -> Result<i32, AsmKind>
    ensures { result ≡ signed number }
{
    i32::try_from(number).map_err(|_| AsmKind::Range)
}

/// A number for a field without a sign.
#[tactic(auto, unfolding(crate::specs::Ranges::unsigned))]
fn unsigned(number: i64) -> Result<u32, AsmKind>
    ensures { result ≡ unsigned number }
{
    u32::try_from(number).map_err(|_| AsmKind::Range)
}

/// A number for a whole word, which stands for what is below zero in two's complement.
#[tactic(auto, unfolding(crate::specs::Ranges::word_of))]
fn word_of(number: i64) -> Result<u32, AsmKind>
    ensures { result ≡ word_of number }
{
    if let Ok(word) = u32::try_from(number) {
        return Ok(word);
    }
    let word = i32::try_from(number).map_err(|_| AsmKind::Range)?;
    Ok(word.cast_unsigned())
}

#[tactic(auto, unfolding(crate::specs::Instructions::register_upper))]
fn register_upper(text: &[u8]) -> Result<(u32, u32), AsmKind>
    ensures { result ≡ register_upper text.now }
{
    let (rd, last) = register_and(text)?;
    let upper = unsigned(number_of(last)?)?;
    Ok((rd, upper))
}

#[tactic(auto, unfolding(crate::specs::Instructions::register_displaced))]
fn register_displaced(text: &[u8]) -> Result<(u32, u32, i32), AsmKind>
    ensures { result ≡ register_displaced text.now }
{
    let (first, last) = register_and(text)?;
    let (number, base) = displaced(last)?;
    let offset = signed(number)?;
    Ok((first, base, offset))
}

#[tactic(auto, unfolding(crate::specs::Instructions::register_target))]
fn register_target<'a>(
    labels: &Labels<'a>,
    here: u32,
    text: &'a [u8],
) -> Result<(u32, i32), AsmKind>
    ensures { result ≡ register_target (places_in labels.now) here text.now }
{
    let (first, last) = register_and(text)?;
    let offset = signed(target(labels, here, last)?)?;
    Ok((first, offset))
}

#[tactic(auto, unfolding(crate::specs::Instructions::registers_target))]
fn registers_target<'a>(
    labels: &Labels<'a>,
    here: u32,
    text: &'a [u8],
) -> Result<(u32, u32, i32), AsmKind>
    ensures { result ≡ registers_target (places_in labels.now) here text.now }
{
    let (first, second, last) = two_registers_and(text)?;
    let offset = signed(target(labels, here, last)?)?;
    Ok((first, second, offset))
}

#[tactic(auto, unfolding(crate::specs::Instructions::registers_number))]
fn registers_number(text: &[u8]) -> Result<(u32, u32, i64), AsmKind>
    ensures { result ≡ registers_number text.now }
{
    let (first, second, last) = two_registers_and(text)?;
    Ok((first, second, number_of(last)?))
}

#[tactic(auto, unfolding(crate::specs::Instructions::registers_address))]
fn registers_address(text: &[u8]) -> Result<(u32, u32, u32), AsmKind>
    ensures { result ≡ registers_address text.now }
{
    let (first, second, last) = two_registers_and(text)?;
    Ok((first, second, address(last)?))
}

/// What the operation and its operands make, at a place of the program.
#[tactic(auto, unfolding(crate::specs::Instructions::instruction))]
fn instruction<'a>(
    labels: &Labels<'a>,
    here: u32,
    operation: Operation,
    text: &'a [u8],
) -> Result<Instr, AsmKind>
    ensures { result ≡ instruction (places_in labels.now) here operation text.now }
{
    match operation {
        Operation::Lui => {
            let (rd, upper) = register_upper(text)?;
            Ok(Instr::Lui { rd, upper })
        }
        Operation::Auipc => {
            let (rd, upper) = register_upper(text)?;
            Ok(Instr::Auipc { rd, upper })
        }
        Operation::Jal => {
            let (rd, offset) = register_target(labels, here, text)?;
            Ok(Instr::Jal { rd, offset })
        }
        Operation::Jalr => {
            let (rd, rs1, offset) = register_displaced(text)?;
            Ok(Instr::Jalr { rd, rs1, offset })
        }
        Operation::Branch(op) => {
            let (rs1, rs2, offset) = registers_target(labels, here, text)?;
            Ok(Instr::Branch {
                op,
                rs1,
                rs2,
                offset,
            })
        }
        Operation::Load(op) => {
            let (rd, rs1, offset) = register_displaced(text)?;
            Ok(Instr::Load {
                op,
                rd,
                rs1,
                offset,
            })
        }
        Operation::Store(op) => {
            let (rs2, rs1, offset) = register_displaced(text)?;
            Ok(Instr::Store {
                op,
                rs1,
                rs2,
                offset,
            })
        }
        Operation::Imm(op) => {
            let (rd, rs1, number) = registers_number(text)?;
            let value = signed(number)?;
            Ok(Instr::Imm { op, rd, rs1, value })
        }
        Operation::Shift(op) => {
            let (rd, rs1, number) = registers_number(text)?;
            let amount = unsigned(number)?;
            Ok(Instr::Shift {
                op,
                rd,
                rs1,
                amount,
            })
        }
        Operation::Reg(op) => {
            let (rd, rs1, rs2) = three_registers(text)?;
            Ok(Instr::Reg { op, rd, rs1, rs2 })
        }
        Operation::Lr { aq, rl } => {
            let (rd, last) = register_and(text)?;
            let rs1 = address(last)?;
            Ok(Instr::Lr { rd, rs1, aq, rl })
        }
        Operation::Sc { aq, rl } => {
            let (rd, rs2, rs1) = registers_address(text)?;
            Ok(Instr::Sc {
                rd,
                rs1,
                rs2,
                aq,
                rl,
            })
        }
        Operation::Amo { op, aq, rl } => {
            let (rd, rs2, rs1) = registers_address(text)?;
            Ok(Instr::Amo {
                op,
                rd,
                rs1,
                rs2,
                aq,
                rl,
            })
        }
        Operation::Fence => {
            nothing(text)?;
            Ok(Instr::Fence { word: FENCE })
        }
        Operation::Ecall => {
            nothing(text)?;
            Ok(Instr::Ecall)
        }
        Operation::Ebreak => {
            nothing(text)?;
            Ok(Instr::Ebreak)
        }
        Operation::Nop => {
            nothing(text)?;
            Ok(Instr::Imm {
                op: ImmOp::Addi,
                rd: 0,
                rs1: 0,
                value: 0,
            })
        }
        Operation::Mv => {
            let (rd, rs1) = two_registers(text)?;
            Ok(Instr::Imm {
                op: ImmOp::Addi,
                rd,
                rs1,
                value: 0,
            })
        }
        Operation::Not => {
            let (rd, rs1) = two_registers(text)?;
            Ok(Instr::Imm {
                op: ImmOp::Xori,
                rd,
                rs1,
                value: -1,
            })
        }
        Operation::Neg => {
            let (rd, rs2) = two_registers(text)?;
            Ok(Instr::Reg {
                op: RegOp::Sub,
                rd,
                rs1: 0,
                rs2,
            })
        }
        Operation::J => {
            let offset = signed(target(labels, here, text)?)?;
            Ok(Instr::Jal { rd: 0, offset })
        }
        Operation::Ret => {
            nothing(text)?;
            Ok(Instr::Jalr {
                rd: 0,
                rs1: 1,
                offset: 0,
            })
        }
        Operation::BranchZero(op) => {
            let (rs1, offset) = register_target(labels, here, text)?;
            Ok(Instr::Branch {
                op,
                rs1,
                rs2: 0,
                offset,
            })
        }
    }
}

/// The word of a number.
#[tactic(auto, unfolding(crate::specs::Instructions::data_of))]
fn data_of(text: &[u8]) -> Result<u32, AsmKind>
    ensures { GivesWord result (data_of text.now) }
{
    word_of(number_of(text)?)
}

/// The word of a mnemonic and its operands, at a place of the program.
#[tactic(auto, unfolding(crate::specs::Instructions::operation_code))]
fn operation_code<'a>(
    labels: &Labels<'a>,
    here: u32,
    name: &'a [u8],
    operands: &'a [u8],
) -> Result<u32, AsmKind>
    ensures { GivesWord result (operation_code (places_in labels.now) here name.now operands.now) }
{
    let operation = operation_of(name).ok_or(AsmKind::Mnemonic)?;
    let instr = instruction(labels, here, operation, operands)?;
    if is_in_range(&instr) {
        Ok(encode(&instr))
    } else {
        Err(AsmKind::Range)
    }
}

/// The word of a statement, at a place of the program.
#[tactic(auto, unfolding(crate::specs::Instructions::code_of))]
pub(crate) fn word_at<'a>(labels: &Labels<'a>, here: u32, text: &'a [u8]) -> Result<u32, AsmKind>
    ensures { GivesWord result (code_of (places_in labels.now) here text.now) }
{
    let (name, after) = parts_at_blank(text);
    let operands = trim_start(after);
    if name == b".word".as_slice() {
        data_of(operands)
    } else {
        operation_code(labels, here, name, operands)
    }
}
