//! The mnemonics.
ghost use Rattle.std.specs.Prelude.{◌≡◌};
ghost use Rattle.rv_decode.specs.Texts.{branch_name, load_name, store_name, imm_name, shift_name, reg_name, amo_name, ending};

use slack_base::{AmoOp, BranchOp, ImmOp, LoadOp, RegOp, ShiftOp, StoreOp};

pub(crate) fn branch_name(op: BranchOp) -> &'static str
    ensures { result.now ≡ branch_name op }
{
    match op {
        BranchOp::Beq => "beq",
        BranchOp::Bne => "bne",
        BranchOp::Blt => "blt",
        BranchOp::Bge => "bge",
        BranchOp::Bltu => "bltu",
        BranchOp::Bgeu => "bgeu",
    }
}

pub(crate) fn load_name(op: LoadOp) -> &'static str
    ensures { result.now ≡ load_name op }
{
    match op {
        LoadOp::Lb => "lb",
        LoadOp::Lh => "lh",
        LoadOp::Lw => "lw",
        LoadOp::Lbu => "lbu",
        LoadOp::Lhu => "lhu",
    }
}

pub(crate) fn store_name(op: StoreOp) -> &'static str
    ensures { result.now ≡ store_name op }
{
    match op {
        StoreOp::Sb => "sb",
        StoreOp::Sh => "sh",
        StoreOp::Sw => "sw",
    }
}

pub(crate) fn imm_name(op: ImmOp) -> &'static str
    ensures { result.now ≡ imm_name op }
{
    match op {
        ImmOp::Addi => "addi",
        ImmOp::Slti => "slti",
        ImmOp::Sltiu => "sltiu",
        ImmOp::Xori => "xori",
        ImmOp::Ori => "ori",
        ImmOp::Andi => "andi",
    }
}

pub(crate) fn shift_name(op: ShiftOp) -> &'static str
    ensures { result.now ≡ shift_name op }
{
    match op {
        ShiftOp::Slli => "slli",
        ShiftOp::Srli => "srli",
        ShiftOp::Srai => "srai",
    }
}

pub(crate) fn reg_name(op: RegOp) -> &'static str
    ensures { result.now ≡ reg_name op }
{
    match op {
        RegOp::Add => "add",
        RegOp::Sll => "sll",
        RegOp::Slt => "slt",
        RegOp::Sltu => "sltu",
        RegOp::Xor => "xor",
        RegOp::Srl => "srl",
        RegOp::Or => "or",
        RegOp::And => "and",
        RegOp::Sub => "sub",
        RegOp::Sra => "sra",
        RegOp::Mul => "mul",
        RegOp::Mulh => "mulh",
        RegOp::Mulhsu => "mulhsu",
        RegOp::Mulhu => "mulhu",
        RegOp::Div => "div",
        RegOp::Divu => "divu",
        RegOp::Rem => "rem",
        RegOp::Remu => "remu",
    }
}

pub(crate) fn amo_name(op: AmoOp) -> &'static str
    ensures { result.now ≡ amo_name op }
{
    match op {
        AmoOp::Amoswap => "amoswap.w",
        AmoOp::Amoadd => "amoadd.w",
        AmoOp::Amoxor => "amoxor.w",
        AmoOp::Amoand => "amoand.w",
        AmoOp::Amoor => "amoor.w",
        AmoOp::Amomin => "amomin.w",
        AmoOp::Amomax => "amomax.w",
        AmoOp::Amominu => "amominu.w",
        AmoOp::Amomaxu => "amomaxu.w",
    }
}

/// What a mnemonic ends in, by its flags.
pub(crate) fn ending(aq: bool, rl: bool) -> &'static str
    ensures { result.now ≡ ending aq rl }
{
    match (aq, rl) {
        (false, false) => "",
        (true, false) => ".aq",
        (false, true) => ".rl",
        (true, true) => ".aqrl",
    }
}
