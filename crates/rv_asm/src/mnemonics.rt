//! The mnemonics.
ghost use Rattle.std.specs.Prelude.{◌≡◌, IsTrue};
ghost use Rattle.rv_asm.specs.Mnemonics.{mnemonics, operation_of};
ghost use Rattle.rv_asm.specs.Tables.{HasEntriesOf, rows_of, is_sorted};

use crate::operations::Operation;
use crate::tables::{Row, entry_in};
use slack_base::{AmoOp, BranchOp, ImmOp, LoadOp, RegOp, ShiftOp, StoreOp};

/// Each mnemonic, with what it stands for: those of the RISC-V Unprivileged ISA (20191213, chapters 24 and 25).
#[rattlefmt::skip]
pub(crate) static MNEMONICS: [Row<Operation>; 100] = [
    (b"add", Operation::Reg(RegOp::Add)),
    (b"addi", Operation::Imm(ImmOp::Addi)),
    (b"amoadd.w", Operation::Amo { op: AmoOp::Amoadd, aq: false, rl: false }),
    (b"amoadd.w.aq", Operation::Amo { op: AmoOp::Amoadd, aq: true, rl: false }),
    (b"amoadd.w.aqrl", Operation::Amo { op: AmoOp::Amoadd, aq: true, rl: true }),
    (b"amoadd.w.rl", Operation::Amo { op: AmoOp::Amoadd, aq: false, rl: true }),
    (b"amoand.w", Operation::Amo { op: AmoOp::Amoand, aq: false, rl: false }),
    (b"amoand.w.aq", Operation::Amo { op: AmoOp::Amoand, aq: true, rl: false }),
    (b"amoand.w.aqrl", Operation::Amo { op: AmoOp::Amoand, aq: true, rl: true }),
    (b"amoand.w.rl", Operation::Amo { op: AmoOp::Amoand, aq: false, rl: true }),
    (b"amomax.w", Operation::Amo { op: AmoOp::Amomax, aq: false, rl: false }),
    (b"amomax.w.aq", Operation::Amo { op: AmoOp::Amomax, aq: true, rl: false }),
    (b"amomax.w.aqrl", Operation::Amo { op: AmoOp::Amomax, aq: true, rl: true }),
    (b"amomax.w.rl", Operation::Amo { op: AmoOp::Amomax, aq: false, rl: true }),
    (b"amomaxu.w", Operation::Amo { op: AmoOp::Amomaxu, aq: false, rl: false }),
    (b"amomaxu.w.aq", Operation::Amo { op: AmoOp::Amomaxu, aq: true, rl: false }),
    (b"amomaxu.w.aqrl", Operation::Amo { op: AmoOp::Amomaxu, aq: true, rl: true }),
    (b"amomaxu.w.rl", Operation::Amo { op: AmoOp::Amomaxu, aq: false, rl: true }),
    (b"amomin.w", Operation::Amo { op: AmoOp::Amomin, aq: false, rl: false }),
    (b"amomin.w.aq", Operation::Amo { op: AmoOp::Amomin, aq: true, rl: false }),
    (b"amomin.w.aqrl", Operation::Amo { op: AmoOp::Amomin, aq: true, rl: true }),
    (b"amomin.w.rl", Operation::Amo { op: AmoOp::Amomin, aq: false, rl: true }),
    (b"amominu.w", Operation::Amo { op: AmoOp::Amominu, aq: false, rl: false }),
    (b"amominu.w.aq", Operation::Amo { op: AmoOp::Amominu, aq: true, rl: false }),
    (b"amominu.w.aqrl", Operation::Amo { op: AmoOp::Amominu, aq: true, rl: true }),
    (b"amominu.w.rl", Operation::Amo { op: AmoOp::Amominu, aq: false, rl: true }),
    (b"amoor.w", Operation::Amo { op: AmoOp::Amoor, aq: false, rl: false }),
    (b"amoor.w.aq", Operation::Amo { op: AmoOp::Amoor, aq: true, rl: false }),
    (b"amoor.w.aqrl", Operation::Amo { op: AmoOp::Amoor, aq: true, rl: true }),
    (b"amoor.w.rl", Operation::Amo { op: AmoOp::Amoor, aq: false, rl: true }),
    (b"amoswap.w", Operation::Amo { op: AmoOp::Amoswap, aq: false, rl: false }),
    (b"amoswap.w.aq", Operation::Amo { op: AmoOp::Amoswap, aq: true, rl: false }),
    (b"amoswap.w.aqrl", Operation::Amo { op: AmoOp::Amoswap, aq: true, rl: true }),
    (b"amoswap.w.rl", Operation::Amo { op: AmoOp::Amoswap, aq: false, rl: true }),
    (b"amoxor.w", Operation::Amo { op: AmoOp::Amoxor, aq: false, rl: false }),
    (b"amoxor.w.aq", Operation::Amo { op: AmoOp::Amoxor, aq: true, rl: false }),
    (b"amoxor.w.aqrl", Operation::Amo { op: AmoOp::Amoxor, aq: true, rl: true }),
    (b"amoxor.w.rl", Operation::Amo { op: AmoOp::Amoxor, aq: false, rl: true }),
    (b"and", Operation::Reg(RegOp::And)),
    (b"andi", Operation::Imm(ImmOp::Andi)),
    (b"auipc", Operation::Auipc),
    (b"beq", Operation::Branch(BranchOp::Beq)),
    (b"beqz", Operation::BranchZero(BranchOp::Beq)),
    (b"bge", Operation::Branch(BranchOp::Bge)),
    (b"bgeu", Operation::Branch(BranchOp::Bgeu)),
    (b"blt", Operation::Branch(BranchOp::Blt)),
    (b"bltu", Operation::Branch(BranchOp::Bltu)),
    (b"bne", Operation::Branch(BranchOp::Bne)),
    (b"bnez", Operation::BranchZero(BranchOp::Bne)),
    (b"div", Operation::Reg(RegOp::Div)),
    (b"divu", Operation::Reg(RegOp::Divu)),
    (b"ebreak", Operation::Ebreak),
    (b"ecall", Operation::Ecall),
    (b"fence", Operation::Fence),
    (b"j", Operation::J),
    (b"jal", Operation::Jal),
    (b"jalr", Operation::Jalr),
    (b"lb", Operation::Load(LoadOp::Lb)),
    (b"lbu", Operation::Load(LoadOp::Lbu)),
    (b"lh", Operation::Load(LoadOp::Lh)),
    (b"lhu", Operation::Load(LoadOp::Lhu)),
    (b"lr.w", Operation::Lr { aq: false, rl: false }),
    (b"lr.w.aq", Operation::Lr { aq: true, rl: false }),
    (b"lr.w.aqrl", Operation::Lr { aq: true, rl: true }),
    (b"lr.w.rl", Operation::Lr { aq: false, rl: true }),
    (b"lui", Operation::Lui),
    (b"lw", Operation::Load(LoadOp::Lw)),
    (b"mul", Operation::Reg(RegOp::Mul)),
    (b"mulh", Operation::Reg(RegOp::Mulh)),
    (b"mulhsu", Operation::Reg(RegOp::Mulhsu)),
    (b"mulhu", Operation::Reg(RegOp::Mulhu)),
    (b"mv", Operation::Mv),
    (b"neg", Operation::Neg),
    (b"nop", Operation::Nop),
    (b"not", Operation::Not),
    (b"or", Operation::Reg(RegOp::Or)),
    (b"ori", Operation::Imm(ImmOp::Ori)),
    (b"rem", Operation::Reg(RegOp::Rem)),
    (b"remu", Operation::Reg(RegOp::Remu)),
    (b"ret", Operation::Ret),
    (b"sb", Operation::Store(StoreOp::Sb)),
    (b"sc.w", Operation::Sc { aq: false, rl: false }),
    (b"sc.w.aq", Operation::Sc { aq: true, rl: false }),
    (b"sc.w.aqrl", Operation::Sc { aq: true, rl: true }),
    (b"sc.w.rl", Operation::Sc { aq: false, rl: true }),
    (b"sh", Operation::Store(StoreOp::Sh)),
    (b"sll", Operation::Reg(RegOp::Sll)),
    (b"slli", Operation::Shift(ShiftOp::Slli)),
    (b"slt", Operation::Reg(RegOp::Slt)),
    (b"slti", Operation::Imm(ImmOp::Slti)),
    (b"sltiu", Operation::Imm(ImmOp::Sltiu)),
    (b"sltu", Operation::Reg(RegOp::Sltu)),
    (b"sra", Operation::Reg(RegOp::Sra)),
    (b"srai", Operation::Shift(ShiftOp::Srai)),
    (b"srl", Operation::Reg(RegOp::Srl)),
    (b"srli", Operation::Shift(ShiftOp::Srli)),
    (b"sub", Operation::Reg(RegOp::Sub)),
    (b"sw", Operation::Store(StoreOp::Sw)),
    (b"xor", Operation::Reg(RegOp::Xor)),
    (b"xori", Operation::Imm(ImmOp::Xori)),
];

fn mnemonics() -> &'static [Row<Operation>]
    ensures rows { HasEntriesOf mnemonics (rows_of result.now) }
    ensures sorted { IsTrue (is_sorted (rows_of result.now)) }
{
    &MNEMONICS
}

/// What a mnemonic stands for.
#[tactic(auto, unfolding(crate::specs::Mnemonics::operation_of))]
pub(crate) fn operation_of(name: &[u8]) -> Option<Operation>
    ensures { result ≡ operation_of name.now }
{
    entry_in(mnemonics(), name)
}
