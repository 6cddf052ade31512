//! The codes of the operations, as the tables of the RISC-V Unprivileged ISA (20191213, chapter 24) list them.
ghost use Rattle.std.specs.Prelude.{◌≡◌, ◌<◌};
ghost use Rattle.rv_decode.specs.Operations.{branch_f3, load_f3, store_f3, imm_f3, shift_f3, shift_f7, reg_f3, reg_f7, amo_funct5};

use slack_base::{AmoOp, BranchOp, ImmOp, LoadOp, RegOp, ShiftOp, StoreOp};

pub(crate) fn branch_f3(op: BranchOp) -> u32
    ensures code { result ≡ branch_f3 op }
    ensures short { result < 8 }
{
    match op {
        BranchOp::Beq => 0b000,
        BranchOp::Bne => 0b001,
        BranchOp::Blt => 0b100,
        BranchOp::Bge => 0b101,
        BranchOp::Bltu => 0b110,
        BranchOp::Bgeu => 0b111,
    }
}

pub(crate) fn load_f3(op: LoadOp) -> u32
    ensures code { result ≡ load_f3 op }
    ensures short { result < 8 }
{
    match op {
        LoadOp::Lb => 0b000,
        LoadOp::Lh => 0b001,
        LoadOp::Lw => 0b010,
        LoadOp::Lbu => 0b100,
        LoadOp::Lhu => 0b101,
    }
}

pub(crate) fn store_f3(op: StoreOp) -> u32
    ensures code { result ≡ store_f3 op }
    ensures short { result < 8 }
{
    match op {
        StoreOp::Sb => 0b000,
        StoreOp::Sh => 0b001,
        StoreOp::Sw => 0b010,
    }
}

pub(crate) fn imm_f3(op: ImmOp) -> u32
    ensures code { result ≡ imm_f3 op }
    ensures short { result < 8 }
{
    match op {
        ImmOp::Addi => 0b000,
        ImmOp::Slti => 0b010,
        ImmOp::Sltiu => 0b011,
        ImmOp::Xori => 0b100,
        ImmOp::Ori => 0b110,
        ImmOp::Andi => 0b111,
    }
}

pub(crate) fn shift_f3(op: ShiftOp) -> u32
    ensures code { result ≡ shift_f3 op }
    ensures short { result < 8 }
{
    match op {
        ShiftOp::Slli => 0b001,
        ShiftOp::Srli | ShiftOp::Srai => 0b101,
    }
}

pub(crate) fn shift_f7(op: ShiftOp) -> u32
    ensures code { result ≡ shift_f7 op }
    ensures short { result < 128 }
{
    match op {
        ShiftOp::Slli | ShiftOp::Srli => 0b0000000,
        ShiftOp::Srai => 0b0100000,
    }
}

pub(crate) fn reg_f3(op: RegOp) -> u32
    ensures code { result ≡ reg_f3 op }
    ensures short { result < 8 }
{
    match op {
        RegOp::Add | RegOp::Sub | RegOp::Mul => 0b000,
        RegOp::Sll | RegOp::Mulh => 0b001,
        RegOp::Slt | RegOp::Mulhsu => 0b010,
        RegOp::Sltu | RegOp::Mulhu => 0b011,
        RegOp::Xor | RegOp::Div => 0b100,
        RegOp::Srl | RegOp::Sra | RegOp::Divu => 0b101,
        RegOp::Or | RegOp::Rem => 0b110,
        RegOp::And | RegOp::Remu => 0b111,
    }
}

pub(crate) fn reg_f7(op: RegOp) -> u32
    ensures code { result ≡ reg_f7 op }
    ensures short { result < 128 }
{
    match op {
        RegOp::Add
        | RegOp::Sll
        | RegOp::Slt
        | RegOp::Sltu
        | RegOp::Xor
        | RegOp::Srl
        | RegOp::Or
        | RegOp::And => 0b0000000,
        RegOp::Sub | RegOp::Sra => 0b0100000,
        RegOp::Mul
        | RegOp::Mulh
        | RegOp::Mulhsu
        | RegOp::Mulhu
        | RegOp::Div
        | RegOp::Divu
        | RegOp::Rem
        | RegOp::Remu => 0b0000001,
    }
}

pub(crate) fn amo_funct5(op: AmoOp) -> u32
    ensures code { result ≡ amo_funct5 op }
    ensures short { result < 32 }
{
    match op {
        AmoOp::Amoswap => 0b00001,
        AmoOp::Amoadd => 0b00000,
        AmoOp::Amoxor => 0b00100,
        AmoOp::Amoand => 0b01100,
        AmoOp::Amoor => 0b01000,
        AmoOp::Amomin => 0b10000,
        AmoOp::Amomax => 0b10100,
        AmoOp::Amominu => 0b11000,
        AmoOp::Amomaxu => 0b11100,
    }
}
