//! The operations that the codes of a word select.
ghost use Rattle.std.specs.Prelude.{◌≡◌};
ghost use Rattle.rv_decode.specs.Decoding.{branch_op_of, load_op_of, store_op_of, imm_op_of, shift_op_of, reg_op_of, amo_op_of};

use slack_base::{AmoOp, BranchOp, ImmOp, LoadOp, RegOp, ShiftOp, StoreOp};

pub(crate) fn branch_op(f3: u32) -> Option<BranchOp>
    ensures { result ≡ branch_op_of f3 }
{
    match f3 {
        0b000 => Some(BranchOp::Beq),
        0b001 => Some(BranchOp::Bne),
        0b100 => Some(BranchOp::Blt),
        0b101 => Some(BranchOp::Bge),
        0b110 => Some(BranchOp::Bltu),
        0b111 => Some(BranchOp::Bgeu),
        _ => None,
    }
}

pub(crate) fn load_op(f3: u32) -> Option<LoadOp>
    ensures { result ≡ load_op_of f3 }
{
    match f3 {
        0b000 => Some(LoadOp::Lb),
        0b001 => Some(LoadOp::Lh),
        0b010 => Some(LoadOp::Lw),
        0b100 => Some(LoadOp::Lbu),
        0b101 => Some(LoadOp::Lhu),
        _ => None,
    }
}

pub(crate) fn store_op(f3: u32) -> Option<StoreOp>
    ensures { result ≡ store_op_of f3 }
{
    match f3 {
        0b000 => Some(StoreOp::Sb),
        0b001 => Some(StoreOp::Sh),
        0b010 => Some(StoreOp::Sw),
        _ => None,
    }
}

pub(crate) fn imm_op(f3: u32) -> Option<ImmOp>
    ensures { result ≡ imm_op_of f3 }
{
    match f3 {
        0b000 => Some(ImmOp::Addi),
        0b010 => Some(ImmOp::Slti),
        0b011 => Some(ImmOp::Sltiu),
        0b100 => Some(ImmOp::Xori),
        0b110 => Some(ImmOp::Ori),
        0b111 => Some(ImmOp::Andi),
        _ => None,
    }
}

pub(crate) fn shift_op(f7: u32, f3: u32) -> Option<ShiftOp>
    ensures { result ≡ shift_op_of f7 f3 }
{
    match (f7, f3) {
        (0b0000000, 0b001) => Some(ShiftOp::Slli),
        (0b0000000, 0b101) => Some(ShiftOp::Srli),
        (0b0100000, 0b101) => Some(ShiftOp::Srai),
        _ => None,
    }
}

pub(crate) fn reg_op(f7: u32, f3: u32) -> Option<RegOp>
    ensures { result ≡ reg_op_of f7 f3 }
{
    match (f7, f3) {
        (0b0000000, 0b000) => Some(RegOp::Add),
        (0b0000000, 0b001) => Some(RegOp::Sll),
        (0b0000000, 0b010) => Some(RegOp::Slt),
        (0b0000000, 0b011) => Some(RegOp::Sltu),
        (0b0000000, 0b100) => Some(RegOp::Xor),
        (0b0000000, 0b101) => Some(RegOp::Srl),
        (0b0000000, 0b110) => Some(RegOp::Or),
        (0b0000000, 0b111) => Some(RegOp::And),
        (0b0100000, 0b000) => Some(RegOp::Sub),
        (0b0100000, 0b101) => Some(RegOp::Sra),
        (0b0000001, 0b000) => Some(RegOp::Mul),
        (0b0000001, 0b001) => Some(RegOp::Mulh),
        (0b0000001, 0b010) => Some(RegOp::Mulhsu),
        (0b0000001, 0b011) => Some(RegOp::Mulhu),
        (0b0000001, 0b100) => Some(RegOp::Div),
        (0b0000001, 0b101) => Some(RegOp::Divu),
        (0b0000001, 0b110) => Some(RegOp::Rem),
        (0b0000001, 0b111) => Some(RegOp::Remu),
        _ => None,
    }
}

pub(crate) fn amo_op(funct5: u32) -> Option<AmoOp>
    ensures { result ≡ amo_op_of funct5 }
{
    match funct5 {
        0b00001 => Some(AmoOp::Amoswap),
        0b00000 => Some(AmoOp::Amoadd),
        0b00100 => Some(AmoOp::Amoxor),
        0b01100 => Some(AmoOp::Amoand),
        0b01000 => Some(AmoOp::Amoor),
        0b10000 => Some(AmoOp::Amomin),
        0b10100 => Some(AmoOp::Amomax),
        0b11000 => Some(AmoOp::Amominu),
        0b11100 => Some(AmoOp::Amomaxu),
        _ => None,
    }
}
