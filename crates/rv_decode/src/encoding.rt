//! From an instruction to its word.
ghost use Rattle.std.specs.Prelude.{◌≡◌, ℕ, ◌^◌, ◌<◌};
ghost use Rattle.slack_base.specs.declared.instructions.Instr.{Instr};
ghost use Rattle.rv_decode.specs.Encodes.{Encodes};
ghost use Rattle.rv_decode.specs.Operations.{branch_f3, load_f3, store_f3, imm_f3, shift_f3, shift_f7, reg_f3, reg_f7, amo_funct5};
ghost use Rattle.rv_decode.specs.Ranges.{IsInRange};

use crate::formats::{atomic, b_type, i_type, j_type, r_type, s_type, u_type};
use crate::{codes, opcodes};
use slack_base::Instr;

/// The one word that stands for an instruction whose fields are in their ranges. It takes no memory.
pub fn encode(instr: &Instr) -> u32
    requires { IsInRange instr.now }
    ensures row { Encodes result instr.now }
    ensures only { (word : ℕ) → word < 2 ^ 32 → Encodes word instr.now → word ≡ result }
{
    word(*instr)
}

fn word(instr: Instr) -> u32
    requires { IsInRange instr }
    ensures { Encodes result instr }
{
    match instr {
        Instr::Lui { rd, upper } => u_type(opcodes::LUI, rd, upper),
        Instr::Auipc { rd, upper } => u_type(opcodes::AUIPC, rd, upper),
        Instr::Jal { rd, offset } => j_type(opcodes::JAL, rd, offset),
        Instr::Jalr { rd, rs1, offset } => i_type(opcodes::JALR, 0b000, rd, rs1, offset),
        Instr::Branch {
            op,
            rs1,
            rs2,
            offset,
        } => b_type(opcodes::BRANCH, codes::branch_f3(op), rs1, rs2, offset),
        Instr::Load {
            op,
            rd,
            rs1,
            offset,
        } => i_type(opcodes::LOAD, codes::load_f3(op), rd, rs1, offset),
        Instr::Store {
            op,
            rs1,
            rs2,
            offset,
        } => s_type(opcodes::STORE, codes::store_f3(op), rs1, rs2, offset),
        Instr::Imm { op, rd, rs1, value } => i_type(
            opcodes::OP_IMM,
            codes::imm_f3(op),
            rd,
            rs1,
            value,
        ),
        Instr::Shift {
            op,
            rd,
            rs1,
            amount,
        } => {
            let f7 = codes::shift_f7(op);
            r_type(opcodes::OP_IMM, codes::shift_f3(op), f7, rd, rs1, amount)
        }
        Instr::Reg { op, rd, rs1, rs2 } => {
            r_type(
                opcodes::OP,
                codes::reg_f3(op),
                codes::reg_f7(op),
                rd,
                rs1,
                rs2,
            )
        }
        Instr::Lr { rd, rs1, aq, rl } => atomic(0b00010, aq, rl, rd, rs1, 0),
        Instr::Sc {
            rd,
            rs1,
            rs2,
            aq,
            rl,
        } => atomic(0b00011, aq, rl, rd, rs1, rs2),
        Instr::Amo {
            op,
            rd,
            rs1,
            rs2,
            aq,
            rl,
        } => atomic(codes::amo_funct5(op), aq, rl, rd, rs1, rs2),
        Instr::Fence { word } => word,
        Instr::Ecall => opcodes::ECALL,
        Instr::Ebreak => opcodes::EBREAK,
    }
}
