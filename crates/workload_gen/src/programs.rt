//! Generated programs.
ghost use Rattle.std.specs.Prelude.{◌≡◌, ◌+◌, ◌^◌, ◌<◌, ◌≤◌, All, IfOk, length};
ghost use Rattle.slack_base.specs.declared.bounds.TheConstants.{GENERATED_MEMORY};
ghost use Rattle.slack_base.specs.Images.{Fits};
ghost use Rattle.rv_decode.specs.Ranges.{IsInRange};
ghost use Rattle.workload_gen.specs.Programs.{IsProgram, AreBytesOf, program, head, tail};

use crate::choices::instruction;
use crate::draws::Draws;
use crate::registers::{ARGUMENT, DATA, SERVICE, SUM};
use rv_decode::encode;
use slack_base::{Config, Image, ImmOp, Instr, OutOfMemory};
use std::alloc::Global;

/// How many instructions of a program are drawn.
const DRAWN: u32 = 1000;
/// How far the words that a program loads and stores lie past the base of memory, in bytes.
const DATA_OFFSET: u32 = 65536;
/// How far the word that it adds to lies past the first of them, in bytes.
const SUM_OFFSET: i32 = 128;
/// The number of the service that ends a core.
const EXIT: i32 = 93;

/// The program of a seed: 1005 words from the base of memory on, its entry. It loads and stores the 64 words that
/// lie 65536 bytes further, and then exits with the code 0.
pub fn program(alloc: Global, seed: u32, config: &Config) -> Result<Image, OutOfMemory>
    requires { GENERATED_MEMORY ≤ config.now.memory }
    ensures image { IfOk result (IsProgram seed config.now.base) }
    ensures fits { IfOk result (Fits config.now.base config.now.memory) }
{
    let instructions = instructions(alloc, seed, config.base)?;
    let bytes = bytes_of(alloc, instructions.as_slice())?;
    Image::one_piece(alloc, config.base, config.base, bytes)
}

/// The instructions of the program of a seed.
fn instructions(alloc: Global, seed: u32, base: u32) -> Result<Vec<Instr>, OutOfMemory>
    requires { base + 65536 < 2 ^ 32 }
    ensures value { IfOk result (λ instrs. instrs.items ≡ program seed base) }
    ensures range { IfOk result (λ instrs. All IsInRange instrs.items) }
{
    let mut draws = Draws::new(seed);
    let mut instrs = Vec::new(alloc);
    instrs.extend_from_slice(&head(base))?;
    for _ in 0..DRAWN {
        instrs.push(instruction(draws.draw()))?;
    }
    instrs.extend_from_slice(&tail())?;
    Ok(instrs)
}

/// The instructions that set the addresses of the words that a program loads, stores and adds to.
fn head(base: u32) -> [Instr; 2]
    requires { base + 65536 < 2 ^ 32 }
    ensures value { result ≡ head base }
    ensures range { All IsInRange result }
{
    let upper = (base + DATA_OFFSET) >> 12;
    [Instr::Lui { rd: DATA, upper }, addi(SUM, DATA, SUM_OFFSET)]
}

/// The instructions that exit with the code 0.
fn tail() -> [Instr; 3]
    ensures value { result ≡ tail }
    ensures range { All IsInRange result }
{
    [addi(SERVICE, 0, EXIT), addi(ARGUMENT, 0, 0), Instr::Ecall]
}

fn addi(rd: u32, rs1: u32, value: i32) -> Instr
    ensures { result ≡ Instr.Imm ImmOp.Addi rd rs1 value }
{
    Instr::Imm {
        op: ImmOp::Addi,
        rd,
        rs1,
        value,
    }
}

/// The words of instructions, one after another, each with its least byte first.
fn bytes_of(alloc: Global, instrs: &[Instr]) -> Result<Vec<u8>, OutOfMemory>
    requires { All IsInRange instrs.now }
    ensures { IfOk result (λ bytes. AreBytesOf instrs.now bytes.items) }
{
    let mut bytes = Vec::new(alloc);
    for instr in instrs {
        bytes.extend_from_slice(&encode(instr).to_le_bytes())?;
    }
    Ok(bytes)
}
