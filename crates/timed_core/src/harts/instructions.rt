//! What an instruction does to a hart, as its page of the manual says (RISC-V Unprivileged ISA 20191213, chapters 2, 7
//! and 8).
ghost use Rattle.std.specs.Prelude.{◌≡◌, ◌<◌, ◌≤◌, ◌+◌, IsSomeAnd, length};
ghost use Rattle.slack_base.specs.declared.bounds.TheConstants.{TOP};
ghost use Rattle.rv_decode.specs.Ranges.{IsInRange};
ghost use Rattle.timed_core.specs.Code.{CodeValue};
ghost use Rattle.timed_core.specs.Effects.{even_of, goes_to};
ghost use Rattle.timed_core.specs.declared.effects.Effect.TheVariants.{Jump};
ghost use Rattle.timed_core.specs.Cores.{trapped};
ghost use Rattle.timed_core.specs.Kept.{instr_in};
ghost use Rattle.timed_core.specs.Outcomes.{IsReady, DoesAt, branching, executed};
ghost use Rattle.timed_core.specs.Ticks.{called, performed};

use crate::accesses::Access;
use crate::code::Code;
use crate::harts::Hart;
use crate::kept::Kept;
use crate::outcomes::Outcome;
use rv_exec::{alu, branch_taken, target, word};
use slack_base::{BranchOp, CoreEnd, LoadOp, RegOp, StoreOp, Trap};

/// The address without its lowest bit.
#[inline(always)]
fn even(address: u32) -> u32
    ensures { result ≡ even_of address }
{
    address & !1
}

impl Hart {
    /// Executes the instruction that is kept.
    #[rattlefmt::skip]
    #[inline(always)]
    #[tactic(auto, unfolding(crate::specs::Outcomes::executed, crate::specs::Effects::effect_of, crate::specs::Ticks::performed))]
    pub fn execute(&mut self, code: &Code, kept: &Kept, cycle: u64) -> Outcome
        requires top { cycle ≤ TOP }
        requires ready { IsReady self.old.value }
        requires kept { IsSomeAnd (instr_in kept.now) IsInRange }
        ensures does { DoesAt (λ id. executed code.now (instr_in kept.now) id self.old.value) cycle self.old.value self.new.value result }
        ensures saved { self.new.saved ≡ self.old.saved }
        ensures noted { length self.new.noted ≤ length self.old.noted + 1 }
    {
        match *kept {
            Kept::Nothing => unreachable!(),
            Kept::Lui(rd, upper) => self.give(rd, upper << 12),
            Kept::Auipc(rd, upper) => self.give(rd, self.pc.wrapping_add(upper << 12)),
            Kept::Jal(rd, offset) => self.jump(rd, target(self.pc, offset), cycle),
            Kept::Jalr(rd, rs1, offset) => self.jump(rd, even(target(self.x(rs1), offset)), cycle),
            Kept::Beq(rs1, rs2, offset) => self.branch(BranchOp::Beq, rs1, rs2, target(self.pc, offset), cycle),
            Kept::Bne(rs1, rs2, offset) => self.branch(BranchOp::Bne, rs1, rs2, target(self.pc, offset), cycle),
            Kept::Blt(rs1, rs2, offset) => self.branch(BranchOp::Blt, rs1, rs2, target(self.pc, offset), cycle),
            Kept::Bge(rs1, rs2, offset) => self.branch(BranchOp::Bge, rs1, rs2, target(self.pc, offset), cycle),
            Kept::Bltu(rs1, rs2, offset) => self.branch(BranchOp::Bltu, rs1, rs2, target(self.pc, offset), cycle),
            Kept::Bgeu(rs1, rs2, offset) => self.branch(BranchOp::Bgeu, rs1, rs2, target(self.pc, offset), cycle),
            Kept::Lb(rd, rs1, offset) => self.access(code, Access::Load { op: LoadOp::Lb, rd }, target(self.x(rs1), offset), cycle),
            Kept::Lh(rd, rs1, offset) => self.access(code, Access::Load { op: LoadOp::Lh, rd }, target(self.x(rs1), offset), cycle),
            Kept::Lw(rd, rs1, offset) => self.access(code, Access::Load { op: LoadOp::Lw, rd }, target(self.x(rs1), offset), cycle),
            Kept::Lbu(rd, rs1, offset) => self.access(code, Access::Load { op: LoadOp::Lbu, rd }, target(self.x(rs1), offset), cycle),
            Kept::Lhu(rd, rs1, offset) => self.access(code, Access::Load { op: LoadOp::Lhu, rd }, target(self.x(rs1), offset), cycle),
            Kept::Sb(rs1, rs2, offset) => self.access(code, Access::Store { op: StoreOp::Sb, value: self.x(rs2) }, target(self.x(rs1), offset), cycle),
            Kept::Sh(rs1, rs2, offset) => self.access(code, Access::Store { op: StoreOp::Sh, value: self.x(rs2) }, target(self.x(rs1), offset), cycle),
            Kept::Sw(rs1, rs2, offset) => self.access(code, Access::Store { op: StoreOp::Sw, value: self.x(rs2) }, target(self.x(rs1), offset), cycle),
            Kept::Addi(rd, rs1, value) => self.give(rd, alu(RegOp::Add, self.x(rs1), word(value))),
            Kept::Slti(rd, rs1, value) => self.give(rd, alu(RegOp::Slt, self.x(rs1), word(value))),
            Kept::Sltiu(rd, rs1, value) => self.give(rd, alu(RegOp::Sltu, self.x(rs1), word(value))),
            Kept::Xori(rd, rs1, value) => self.give(rd, alu(RegOp::Xor, self.x(rs1), word(value))),
            Kept::Ori(rd, rs1, value) => self.give(rd, alu(RegOp::Or, self.x(rs1), word(value))),
            Kept::Andi(rd, rs1, value) => self.give(rd, alu(RegOp::And, self.x(rs1), word(value))),
            Kept::Slli(rd, rs1, amount) => self.give(rd, alu(RegOp::Sll, self.x(rs1), u32::from(amount))),
            Kept::Srli(rd, rs1, amount) => self.give(rd, alu(RegOp::Srl, self.x(rs1), u32::from(amount))),
            Kept::Srai(rd, rs1, amount) => self.give(rd, alu(RegOp::Sra, self.x(rs1), u32::from(amount))),
            Kept::Add(rd, rs1, rs2) => self.give(rd, alu(RegOp::Add, self.x(rs1), self.x(rs2))),
            Kept::Sll(rd, rs1, rs2) => self.give(rd, alu(RegOp::Sll, self.x(rs1), self.x(rs2))),
            Kept::Slt(rd, rs1, rs2) => self.give(rd, alu(RegOp::Slt, self.x(rs1), self.x(rs2))),
            Kept::Sltu(rd, rs1, rs2) => self.give(rd, alu(RegOp::Sltu, self.x(rs1), self.x(rs2))),
            Kept::Xor(rd, rs1, rs2) => self.give(rd, alu(RegOp::Xor, self.x(rs1), self.x(rs2))),
            Kept::Srl(rd, rs1, rs2) => self.give(rd, alu(RegOp::Srl, self.x(rs1), self.x(rs2))),
            Kept::Or(rd, rs1, rs2) => self.give(rd, alu(RegOp::Or, self.x(rs1), self.x(rs2))),
            Kept::And(rd, rs1, rs2) => self.give(rd, alu(RegOp::And, self.x(rs1), self.x(rs2))),
            Kept::Sub(rd, rs1, rs2) => self.give(rd, alu(RegOp::Sub, self.x(rs1), self.x(rs2))),
            Kept::Sra(rd, rs1, rs2) => self.give(rd, alu(RegOp::Sra, self.x(rs1), self.x(rs2))),
            Kept::Mul(rd, rs1, rs2) => self.give_slowly(rd, alu(RegOp::Mul, self.x(rs1), self.x(rs2)), 3),
            Kept::Mulh(rd, rs1, rs2) => self.give_slowly(rd, alu(RegOp::Mulh, self.x(rs1), self.x(rs2)), 3),
            Kept::Mulhsu(rd, rs1, rs2) => self.give_slowly(rd, alu(RegOp::Mulhsu, self.x(rs1), self.x(rs2)), 3),
            Kept::Mulhu(rd, rs1, rs2) => self.give_slowly(rd, alu(RegOp::Mulhu, self.x(rs1), self.x(rs2)), 3),
            Kept::Div(rd, rs1, rs2) => self.give_slowly(rd, alu(RegOp::Div, self.x(rs1), self.x(rs2)), 16),
            Kept::Divu(rd, rs1, rs2) => self.give_slowly(rd, alu(RegOp::Divu, self.x(rs1), self.x(rs2)), 16),
            Kept::Rem(rd, rs1, rs2) => self.give_slowly(rd, alu(RegOp::Rem, self.x(rs1), self.x(rs2)), 16),
            Kept::Remu(rd, rs1, rs2) => self.give_slowly(rd, alu(RegOp::Remu, self.x(rs1), self.x(rs2)), 16),
            Kept::Lr(rd, rs1, _, _) => self.access(code, Access::LoadReserved { rd }, self.x(rs1), cycle),
            Kept::Sc(rd, rs1, rs2, _, _) => self.access(code, Access::StoreConditional { rd, value: self.x(rs2) }, self.x(rs1), cycle),
            Kept::Amo(op, rd, rs1, rs2, _, _) => self.access(code, Access::Amo { op, rd, operand: self.x(rs2) }, self.x(rs1), cycle),
            Kept::Fence(_) => self.go_on(),
            Kept::Ecall => self.call(cycle),
            Kept::Ebreak => self.trap_break(cycle),
        }
    }

    /// Jumps to the target, and puts the address of the next instruction into a register.
    #[inline(always)]
    #[tactic(auto, unfolding(crate::specs::Ticks::performed))]
    fn jump(&mut self, rd: u8, target: u32, cycle: u64) -> Outcome
        requires top { cycle ≤ TOP }
        requires ready { IsReady self.old.value }
        requires register { rd < 32 }
        ensures does { (code : CodeValue) → DoesAt (λ id. performed code (goes_to target (Jump rd target)) 1 id self.old.value) cycle self.old.value self.new.value result }
        ensures saved { self.new.saved ≡ self.old.saved }
        ensures noted { self.new.noted ≡ self.old.noted }
    {
        if target % 4 != 0 {
            self.trap_target(cycle, target);
            return Outcome::Rests;
        }
        self.write(rd, self.pc.wrapping_add(4));
        self.complete(target)
    }

    /// Branches to the target where the condition holds, and else goes on to the next instruction.
    #[inline(always)]
    #[tactic(auto, unfolding(crate::specs::Ticks::performed))]
    fn branch(&mut self, op: BranchOp, rs1: u8, rs2: u8, target: u32, cycle: u64) -> Outcome
        requires top { cycle ≤ TOP }
        requires ready { IsReady self.old.value }
        requires registers { (rs1 < 32) × (rs2 < 32) }
        ensures does { (code : CodeValue) → DoesAt (λ id. performed code (branching op rs1 rs2 target self.old.value.registers) 1 id self.old.value) cycle self.old.value self.new.value result }
        ensures saved { self.new.saved ≡ self.old.saved }
        ensures noted { self.new.noted ≡ self.old.noted }
    {
        if !branch_taken(op, self.x(rs1), self.x(rs2)) {
            return self.go_on();
        }
        if target % 4 != 0 {
            self.trap_target(cycle, target);
            return Outcome::Rests;
        }
        self.complete(target)
    }

    /// Calls the service that x17 names.
    #[inline(always)]
    #[tactic(auto, unfolding(crate::specs::Ticks::called))]
    fn call(&mut self, cycle: u64) -> Outcome
        requires { cycle ≤ TOP }
        ensures does { DoesAt (λ id. called 4 id self.old.value) cycle self.old.value self.new.value result }
        ensures saved { self.new.saved ≡ self.old.saved }
        ensures noted { self.new.noted ≡ self.old.noted }
    {
        let service = self.registers[17];
        let argument = self.registers[10];
        if service == 1 {
            self.go_on_slowly(4);
            return Outcome::Put { word: argument };
        }
        if service != 93 {
            self.trap_call(cycle, service);
            return Outcome::Rests;
        }
        self.go_on_slowly(4);
        self.ended = CoreEnd::Exit {
            at: cycle,
            code: argument,
        };
        Outcome::Rests
    }

    /// Ends the hart at EBREAK.
    #[inline(always)]
    fn trap_break(&mut self, cycle: u64) -> Outcome
        requires { cycle ≤ TOP }
        ensures after { self.new ≡ record self.old { value = trapped self.old.value cycle (Trap.Break self.old.value.pc) } }
        ensures outcome { result ≡ Outcome.Rests }
    {
        self.trap(cycle, Trap::Break { pc: self.pc });
        Outcome::Rests
    }

    /// Ends the hart at a call of a service that there isn't.
    #[cold]
    #[inline(never)]
    fn trap_call(&mut self, cycle: u64, number: u32)
        requires { cycle ≤ TOP }
        ensures { self.new ≡ record self.old { value = trapped self.old.value cycle (Trap.Call number) } }
    {
        self.trap(cycle, Trap::Call { number });
    }
}
