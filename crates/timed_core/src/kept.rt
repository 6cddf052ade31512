//! Instructions in little room, as they are kept beside their words.
ghost use Rattle.std.specs.Prelude.{◌≡◌, Some, IfSome};
ghost use Rattle.std.specs.Option.{is_none};
ghost use Rattle.slack_base.specs.declared.instructions.Instr.TheVariants as instr;
ghost use Rattle.rv_decode.specs.Ranges.{IsInRange};
ghost use Rattle.timed_core.specs.Kept.{instr_in};

use slack_base::{AmoOp, BranchOp, ImmOp, Instr, LoadOp, RegOp, ShiftOp, StoreOp};

/// What a word stands for: nothing, or an instruction, by the name that the manual gives it. Its fields stand in the
/// order of `Instr`. A register takes a byte.
#[derive(Clone, Copy)]
pub enum Kept {
    Nothing,
    Lui(u8, u32),
    Auipc(u8, u32),
    Jal(u8, i32),
    Jalr(u8, u8, i32),
    Beq(u8, u8, i32),
    Bne(u8, u8, i32),
    Blt(u8, u8, i32),
    Bge(u8, u8, i32),
    Bltu(u8, u8, i32),
    Bgeu(u8, u8, i32),
    Lb(u8, u8, i32),
    Lh(u8, u8, i32),
    Lw(u8, u8, i32),
    Lbu(u8, u8, i32),
    Lhu(u8, u8, i32),
    Sb(u8, u8, i32),
    Sh(u8, u8, i32),
    Sw(u8, u8, i32),
    Addi(u8, u8, i32),
    Slti(u8, u8, i32),
    Sltiu(u8, u8, i32),
    Xori(u8, u8, i32),
    Ori(u8, u8, i32),
    Andi(u8, u8, i32),
    Slli(u8, u8, u8),
    Srli(u8, u8, u8),
    Srai(u8, u8, u8),
    Add(u8, u8, u8),
    Sll(u8, u8, u8),
    Slt(u8, u8, u8),
    Sltu(u8, u8, u8),
    Xor(u8, u8, u8),
    Srl(u8, u8, u8),
    Or(u8, u8, u8),
    And(u8, u8, u8),
    Sub(u8, u8, u8),
    Sra(u8, u8, u8),
    Mul(u8, u8, u8),
    Mulh(u8, u8, u8),
    Mulhsu(u8, u8, u8),
    Mulhu(u8, u8, u8),
    Div(u8, u8, u8),
    Divu(u8, u8, u8),
    Rem(u8, u8, u8),
    Remu(u8, u8, u8),
    Lr(u8, u8, bool, bool),
    Sc(u8, u8, u8, bool, bool),
    Amo(AmoOp, u8, u8, u8, bool, bool),
    Fence(u32),
    Ecall,
    Ebreak,
}

impl Kept {
    /// An instruction, or none, in little room.
    #[rattlefmt::skip]
    pub fn of(instr: Option<Instr>) -> Kept
        requires { IfSome instr IsInRange }
        ensures { instr_in result ≡ instr }
    {
        let Some(instr) = instr else {
            return Kept::Nothing;
        };
        match instr {
            Instr::Lui { rd, upper } => Kept::Lui(rd as u8, upper),
            Instr::Auipc { rd, upper } => Kept::Auipc(rd as u8, upper),
            Instr::Jal { rd, offset } => Kept::Jal(rd as u8, offset),
            Instr::Jalr { rd, rs1, offset } => Kept::Jalr(rd as u8, rs1 as u8, offset),
            Instr::Branch { op, rs1, rs2, offset } => Kept::branch(op, rs1 as u8, rs2 as u8, offset),
            Instr::Load { op, rd, rs1, offset } => Kept::load(op, rd as u8, rs1 as u8, offset),
            Instr::Store { op, rs1, rs2, offset } => Kept::store(op, rs1 as u8, rs2 as u8, offset),
            Instr::Imm { op, rd, rs1, value } => Kept::immediate(op, rd as u8, rs1 as u8, value),
            Instr::Shift { op, rd, rs1, amount } => Kept::shift(op, rd as u8, rs1 as u8, amount as u8),
            Instr::Reg { op, rd, rs1, rs2 } => Kept::registers(op, rd as u8, rs1 as u8, rs2 as u8),
            Instr::Lr { rd, rs1, aq, rl } => Kept::Lr(rd as u8, rs1 as u8, aq, rl),
            Instr::Sc { rd, rs1, rs2, aq, rl } => Kept::Sc(rd as u8, rs1 as u8, rs2 as u8, aq, rl),
            Instr::Amo { op, rd, rs1, rs2, aq, rl } => Kept::Amo(op, rd as u8, rs1 as u8, rs2 as u8, aq, rl),
            Instr::Fence { word } => Kept::Fence(word),
            Instr::Ecall => Kept::Ecall,
            Instr::Ebreak => Kept::Ebreak,
        }
    }

    /// Whether no instruction is kept.
    #[inline(always)]
    pub fn is_nothing(&self) -> bool
        ensures { result ≡ is_none (instr_in self.now) }
    {
        match *self {
            Kept::Nothing => true,
            _ => false,
        }
    }

    #[rattlefmt::skip]
    fn branch(op: BranchOp, rs1: u8, rs2: u8, offset: i32) -> Kept
        ensures { instr_in result ≡ Some (instr.Branch op rs1 rs2 offset) }
    {
        match op {
            BranchOp::Beq => Kept::Beq(rs1, rs2, offset),
            BranchOp::Bne => Kept::Bne(rs1, rs2, offset),
            BranchOp::Blt => Kept::Blt(rs1, rs2, offset),
            BranchOp::Bge => Kept::Bge(rs1, rs2, offset),
            BranchOp::Bltu => Kept::Bltu(rs1, rs2, offset),
            BranchOp::Bgeu => Kept::Bgeu(rs1, rs2, offset),
        }
    }

    #[rattlefmt::skip]
    fn load(op: LoadOp, rd: u8, rs1: u8, offset: i32) -> Kept
        ensures { instr_in result ≡ Some (instr.Load op rd rs1 offset) }
    {
        match op {
            LoadOp::Lb => Kept::Lb(rd, rs1, offset),
            LoadOp::Lh => Kept::Lh(rd, rs1, offset),
            LoadOp::Lw => Kept::Lw(rd, rs1, offset),
            LoadOp::Lbu => Kept::Lbu(rd, rs1, offset),
            LoadOp::Lhu => Kept::Lhu(rd, rs1, offset),
        }
    }

    #[rattlefmt::skip]
    fn store(op: StoreOp, rs1: u8, rs2: u8, offset: i32) -> Kept
        ensures { instr_in result ≡ Some (instr.Store op rs1 rs2 offset) }
    {
        match op {
            StoreOp::Sb => Kept::Sb(rs1, rs2, offset),
            StoreOp::Sh => Kept::Sh(rs1, rs2, offset),
            StoreOp::Sw => Kept::Sw(rs1, rs2, offset),
        }
    }

    #[rattlefmt::skip]
    fn immediate(op: ImmOp, rd: u8, rs1: u8, value: i32) -> Kept
        ensures { instr_in result ≡ Some (instr.Imm op rd rs1 value) }
    {
        match op {
            ImmOp::Addi => Kept::Addi(rd, rs1, value),
            ImmOp::Slti => Kept::Slti(rd, rs1, value),
            ImmOp::Sltiu => Kept::Sltiu(rd, rs1, value),
            ImmOp::Xori => Kept::Xori(rd, rs1, value),
            ImmOp::Ori => Kept::Ori(rd, rs1, value),
            ImmOp::Andi => Kept::Andi(rd, rs1, value),
        }
    }

    #[rattlefmt::skip]
    fn shift(op: ShiftOp, rd: u8, rs1: u8, amount: u8) -> Kept
        ensures { instr_in result ≡ Some (instr.Shift op rd rs1 amount) }
    {
        match op {
            ShiftOp::Slli => Kept::Slli(rd, rs1, amount),
            ShiftOp::Srli => Kept::Srli(rd, rs1, amount),
            ShiftOp::Srai => Kept::Srai(rd, rs1, amount),
        }
    }

    #[rattlefmt::skip]
    fn registers(op: RegOp, rd: u8, rs1: u8, rs2: u8) -> Kept
        ensures { instr_in result ≡ Some (instr.Reg op rd rs1 rs2) }
    {
        match op {
            RegOp::Add => Kept::Add(rd, rs1, rs2),
            RegOp::Sll => Kept::Sll(rd, rs1, rs2),
            RegOp::Slt => Kept::Slt(rd, rs1, rs2),
            RegOp::Sltu => Kept::Sltu(rd, rs1, rs2),
            RegOp::Xor => Kept::Xor(rd, rs1, rs2),
            RegOp::Srl => Kept::Srl(rd, rs1, rs2),
            RegOp::Or => Kept::Or(rd, rs1, rs2),
            RegOp::And => Kept::And(rd, rs1, rs2),
            RegOp::Sub => Kept::Sub(rd, rs1, rs2),
            RegOp::Sra => Kept::Sra(rd, rs1, rs2),
            RegOp::Mul => Kept::Mul(rd, rs1, rs2),
            RegOp::Mulh => Kept::Mulh(rd, rs1, rs2),
            RegOp::Mulhsu => Kept::Mulhsu(rd, rs1, rs2),
            RegOp::Mulhu => Kept::Mulhu(rd, rs1, rs2),
            RegOp::Div => Kept::Div(rd, rs1, rs2),
            RegOp::Divu => Kept::Divu(rd, rs1, rs2),
            RegOp::Rem => Kept::Rem(rd, rs1, rs2),
            RegOp::Remu => Kept::Remu(rd, rs1, rs2),
        }
    }
}
