//! From an instruction to its text.
ghost use Rattle.std.specs.Prelude.{◌≡◌, IfOk};
ghost use Rattle.rv_decode.specs.Texts.{text};

use crate::mnemonics::{
    amo_name, branch_name, ending, imm_name, load_name, reg_name, shift_name, store_name,
};
use slack_base::{ByteList, Instr, OutOfMemory};
use std::alloc::Global;
use std::fmt;

/// The text of an instruction: a mnemonic in lower case, registers as `x0` to `x31` and decimal numbers.
pub fn text_of(alloc: Global, instr: &Instr) -> Result<ByteList, OutOfMemory>
    ensures { IfOk result (λ bytes. bytes ≡ text instr.now) }
{
    let text = InstrText(*instr).to_string(alloc)?;
    Ok(ByteList::of(text.into_bytes()))
}

/// An instruction that prints as its text, the one that `text_of` gives.
#[derive(Clone, Copy, Debug)]
pub struct InstrText(pub Instr);

impl fmt::Display for InstrText {
    ghost use Rattle.std.specs.Prelude.{Some};
    ghost use Rattle.rv_decode.specs.Texts.{text};

    ghost output = { λ t. Some (text t.0) };

    fn fmt<W: fmt::Write>(&self, f: &mut fmt::Formatter<W>) -> fmt::Result {
        match self.0 {
            Instr::Lui { rd, upper } => write!(f, "lui x{rd}, {upper}"),
            Instr::Auipc { rd, upper } => write!(f, "auipc x{rd}, {upper}"),
            Instr::Jal { rd, offset } => write!(f, "jal x{rd}, {offset}"),
            Instr::Jalr { rd, rs1, offset } => write!(f, "jalr x{rd}, {offset}(x{rs1})"),
            Instr::Branch {
                op,
                rs1,
                rs2,
                offset,
            } => {
                let name = branch_name(op);
                write!(f, "{name} x{rs1}, x{rs2}, {offset}")
            }
            Instr::Load {
                op,
                rd,
                rs1,
                offset,
            } => {
                let name = load_name(op);
                write!(f, "{name} x{rd}, {offset}(x{rs1})")
            }
            Instr::Store {
                op,
                rs1,
                rs2,
                offset,
            } => {
                let name = store_name(op);
                write!(f, "{name} x{rs2}, {offset}(x{rs1})")
            }
            Instr::Imm { op, rd, rs1, value } => {
                let name = imm_name(op);
                write!(f, "{name} x{rd}, x{rs1}, {value}")
            }
            Instr::Shift {
                op,
                rd,
                rs1,
                amount,
            } => {
                let name = shift_name(op);
                write!(f, "{name} x{rd}, x{rs1}, {amount}")
            }
            Instr::Reg { op, rd, rs1, rs2 } => {
                let name = reg_name(op);
                write!(f, "{name} x{rd}, x{rs1}, x{rs2}")
            }
            Instr::Lr { rd, rs1, aq, rl } => {
                let ending = ending(aq, rl);
                write!(f, "lr.w{ending} x{rd}, (x{rs1})")
            }
            Instr::Sc {
                rd,
                rs1,
                rs2,
                aq,
                rl,
            } => {
                let ending = ending(aq, rl);
                write!(f, "sc.w{ending} x{rd}, x{rs2}, (x{rs1})")
            }
            Instr::Amo {
                op,
                rd,
                rs1,
                rs2,
                aq,
                rl,
            } => {
                let name = amo_name(op);
                let ending = ending(aq, rl);
                write!(f, "{name}{ending} x{rd}, x{rs2}, (x{rs1})")
            }
            Instr::Fence { word: _ } => write!(f, "fence"),
            Instr::Ecall => write!(f, "ecall"),
            Instr::Ebreak => write!(f, "ebreak"),
        }
    }
}
