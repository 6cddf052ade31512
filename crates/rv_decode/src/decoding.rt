//! From a word to its instruction.
ghost use Rattle.std.specs.Prelude.{◌≡◌, IfSome, IfNone};
ghost use Rattle.slack_base.specs.declared.instructions.Instr.{Instr};
ghost use Rattle.rv_decode.specs.Decoding.{jalr_of, branch_of, load_of, store_of, imm_of, shift_of, reg_of, fence_of, lr_of, sc_of, amo_of, atomic_of, system_of, instr_of};
ghost use Rattle.rv_decode.specs.Encodes.{Encodes};
ghost use Rattle.rv_decode.specs.Ranges.{IsInRange};

use crate::{fields, opcodes, operations};
use slack_base::Instr;

/// The instruction that a word stands for, with its fields in their ranges: none exactly where no row of the table
/// of RV32IMA has these bits. It takes no memory.
pub fn decode(bits: u32) -> Option<Instr>
    ensures found { IfSome result (λ i. Encodes bits i × IsInRange i) }
    ensures none { IfNone result ((i : Instr) → Encodes bits i → ⊥) }
    ensures only { (i : Instr) → Encodes bits i → result ≡ Some i }
    // The same, as a function of the word.
    ensures value { result ≡ instr_of bits }
{
    instruction(bits)
}

#[tactic(auto, unfolding(crate::specs::Decoding::instr_by))]
fn instruction(bits: u32) -> Option<Instr>
    ensures { result ≡ instr_of bits }
{
    let rd = fields::rd(bits);
    match fields::opcode(bits) {
        opcodes::LUI => Some(Instr::Lui {
            rd,
            upper: fields::upper(bits),
        }),
        opcodes::AUIPC => Some(Instr::Auipc {
            rd,
            upper: fields::upper(bits),
        }),
        opcodes::JAL => Some(Instr::Jal {
            rd,
            offset: fields::immediate_j(bits),
        }),
        opcodes::JALR => jalr(bits),
        opcodes::BRANCH => branch(bits),
        opcodes::LOAD => load(bits),
        opcodes::STORE => store(bits),
        opcodes::OP_IMM => imm(bits).or_else(|| shift(bits)),
        opcodes::OP => reg(bits),
        opcodes::MISC_MEM => fence(bits),
        opcodes::SYSTEM => system(bits),
        opcodes::AMO => atomic(bits),
        _ => None,
    }
}

fn jalr(bits: u32) -> Option<Instr>
    ensures { result ≡ jalr_of bits }
{
    (fields::f3(bits) == 0b000).then_some(Instr::Jalr {
        rd: fields::rd(bits),
        rs1: fields::rs1(bits),
        offset: fields::immediate_i(bits),
    })
}

fn branch(bits: u32) -> Option<Instr>
    ensures { result ≡ branch_of bits }
{
    let op = operations::branch_op(fields::f3(bits))?;
    Some(Instr::Branch {
        op,
        rs1: fields::rs1(bits),
        rs2: fields::rs2(bits),
        offset: fields::immediate_b(bits),
    })
}

fn load(bits: u32) -> Option<Instr>
    ensures { result ≡ load_of bits }
{
    let op = operations::load_op(fields::f3(bits))?;
    Some(Instr::Load {
        op,
        rd: fields::rd(bits),
        rs1: fields::rs1(bits),
        offset: fields::immediate_i(bits),
    })
}

fn store(bits: u32) -> Option<Instr>
    ensures { result ≡ store_of bits }
{
    let op = operations::store_op(fields::f3(bits))?;
    Some(Instr::Store {
        op,
        rs1: fields::rs1(bits),
        rs2: fields::rs2(bits),
        offset: fields::immediate_s(bits),
    })
}

fn imm(bits: u32) -> Option<Instr>
    ensures { result ≡ imm_of bits }
{
    let op = operations::imm_op(fields::f3(bits))?;
    Some(Instr::Imm {
        op,
        rd: fields::rd(bits),
        rs1: fields::rs1(bits),
        value: fields::immediate_i(bits),
    })
}

fn shift(bits: u32) -> Option<Instr>
    ensures { result ≡ shift_of bits }
{
    let op = operations::shift_op(fields::f7(bits), fields::f3(bits))?;
    Some(Instr::Shift {
        op,
        rd: fields::rd(bits),
        rs1: fields::rs1(bits),
        amount: fields::rs2(bits),
    })
}

fn reg(bits: u32) -> Option<Instr>
    ensures { result ≡ reg_of bits }
{
    let op = operations::reg_op(fields::f7(bits), fields::f3(bits))?;
    Some(Instr::Reg {
        op,
        rd: fields::rd(bits),
        rs1: fields::rs1(bits),
        rs2: fields::rs2(bits),
    })
}

fn fence(bits: u32) -> Option<Instr>
    ensures { result ≡ fence_of bits }
{
    (fields::f3(bits) == 0b000).then_some(Instr::Fence { word: bits })
}

fn system(bits: u32) -> Option<Instr>
    ensures { result ≡ system_of bits }
{
    match bits {
        opcodes::ECALL => Some(Instr::Ecall),
        opcodes::EBREAK => Some(Instr::Ebreak),
        _ => None,
    }
}

fn atomic(bits: u32) -> Option<Instr>
    ensures { result ≡ atomic_of bits }
{
    if fields::f3(bits) != 0b010 {
        return None;
    }
    match fields::funct5(bits) {
        0b00010 => lr(bits),
        0b00011 => Some(sc(bits)),
        _ => amo(bits),
    }
}

fn lr(bits: u32) -> Option<Instr>
    ensures { result ≡ lr_of bits }
{
    (fields::rs2(bits) == 0).then_some(Instr::Lr {
        rd: fields::rd(bits),
        rs1: fields::rs1(bits),
        aq: fields::aq(bits),
        rl: fields::rl(bits),
    })
}

fn sc(bits: u32) -> Instr
    ensures { Some result ≡ sc_of bits }
{
    Instr::Sc {
        rd: fields::rd(bits),
        rs1: fields::rs1(bits),
        rs2: fields::rs2(bits),
        aq: fields::aq(bits),
        rl: fields::rl(bits),
    }
}

fn amo(bits: u32) -> Option<Instr>
    ensures { result ≡ amo_of bits }
{
    let op = operations::amo_op(fields::funct5(bits))?;
    Some(Instr::Amo {
        op,
        rd: fields::rd(bits),
        rs1: fields::rs1(bits),
        rs2: fields::rs2(bits),
        aq: fields::aq(bits),
        rl: fields::rl(bits),
    })
}
