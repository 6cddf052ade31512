//! What a drawn word chooses.
ghost use Rattle.std.specs.Prelude.{◌≡◌, ◌<◌, ◌≤◌};
ghost use Rattle.rv_decode.specs.Ranges.{IsInRange};
ghost use Rattle.workload_gen.specs.Choices.{register, instruction, step};

use crate::registers::{COMPUTED, DATA, SUM};
use slack_base::{AmoOp, ImmOp, Instr, LoadOp, RegOp, Step, StoreOp};

/// The instruction that a word chooses.
#[tactic(auto, unfolding(crate::specs::Choices::instruction))]
pub(crate) fn instruction(word: u32) -> Instr
    ensures value { result ≡ instruction word }
    ensures range { IsInRange result }
{
    let rd = register(word / 8);
    let rs1 = register(word / 64);
    let rs2 = register(word / 512);
    let number = word / 4096 % 64;
    match word % 8 {
        0 => Instr::Reg {
            op: RegOp::Add,
            rd,
            rs1,
            rs2,
        },
        1 => Instr::Reg {
            op: RegOp::Xor,
            rd,
            rs1,
            rs2,
        },
        2 => Instr::Imm {
            op: ImmOp::Addi,
            rd,
            rs1,
            value: number as i32,
        },
        3 => Instr::Reg {
            op: RegOp::Mul,
            rd,
            rs1,
            rs2,
        },
        4 => Instr::Load {
            op: LoadOp::Lw,
            rd,
            rs1: DATA,
            offset: (4 * number) as i32,
        },
        5 => Instr::Store {
            op: StoreOp::Sw,
            rs1: DATA,
            rs2,
            offset: (4 * number) as i32,
        },
        6 => Instr::Amo {
            op: AmoOp::Amoadd,
            rd,
            rs1: SUM,
            rs2,
            aq: false,
            rl: false,
        },
        _ => Instr::Reg {
            op: RegOp::Divu,
            rd,
            rs1,
            rs2,
        },
    }
}

/// The register that the lowest three bits choose.
fn register(choice: u32) -> u32
    ensures value { result ≡ register choice }
    ensures range { result < 32 }
{
    COMPUTED[(choice % 8) as usize]
}

/// The step that a word chooses, of so many cores.
#[tactic(auto, unfolding(crate::specs::Choices::step))]
pub(crate) fn step(word: u32, cores: u32) -> Step
    requires { 1 ≤ cores }
    ensures { result ≡ step cores word }
{
    let core = word / 4 % cores;
    match word % 3 {
        0 => Step::Tick { core },
        1 => Step::Serve { core },
        _ => Step::Take { core },
    }
}
