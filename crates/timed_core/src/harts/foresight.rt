//! For how many cycles a hart certainly asks for nothing, as its next instructions tell.
ghost use Rattle.std.specs.Prelude.{◌≡◌, ◌+◌, ◌<◌, ◌≤◌, min, length, IfSome, slice_index, slice_index_or, slice_set};
ghost use Rattle.mesi_cache.specs.Caches.{IsCache};
ghost use Rattle.rv_decode.specs.Ranges.{IsInRange};
ghost use Rattle.timed_core.specs.Code.{instr_at};
ghost use Rattle.timed_core.specs.Foresight.{here, hits_ahead, after_write, after_pass, after_jump, course_of, cycles_by, goes_on, cycles_ahead, hits_line, load_course, store_course, rest_of};
ghost use Rattle.timed_core.specs.Kept.{instr_in};

use crate::code::Code;
use crate::harts::Hart;
use crate::kept::Kept;
use rv_exec::target;
use slack_base::CoreEnd;

/// How many instructions are looked at.
const INSTRUCTIONS: u32 = 64;

/// Where an instruction ahead stands, and which registers those before it write.
#[derive(Clone, Copy, Debug)]
pub struct Ahead {
    pub address: u32,
    pub written: [bool; 32],
}

/// What is known of an instruction ahead.
#[derive(Clone, Copy, Debug, PartialEq, Eq)]
pub enum Course {
    /// It may ask for something.
    MayAsk,
    /// It asks for nothing; which one comes after it isn't known.
    Turns,
    /// It asks for nothing, and takes so many cycles; the next one is known.
    GoesOn(u32),
}

impl Course {
    /// In how many cycles of the instruction nothing is asked for, where so many follow it.
    #[inline(always)]
    fn cycles(self) -> u32
        ensures { result ≡ cycles_by self 0 }
    {
        match self {
            Course::MayAsk => 0,
            Course::Turns => 1,
            Course::GoesOn(cost) => cost,
        }
    }

    /// Whether the next instruction is known.
    #[inline(always)]
    fn goes_on(self) -> bool
        ensures { result ≡ goes_on self }
    {
        matches!(self, Course::GoesOn(_))
    }
}

/// What is so of the registers. Nothing is computed here.
#[inline(always)]
fn all_registers(registers: &[u32; 32])
    ensures { length registers.now ≡ 32 }
{}

impl Ahead {
    /// Goes on to the next address, after an instruction of so many cycles that writes this register.
    #[inline(always)]
    fn write(&mut self, rd: u8, cost: u32) -> Course
        requires { rd < 32 }
        ensures course { result ≡ Course.GoesOn cost }
        ensures next { self.new ≡ after_write rd self.old }
    {
        self.address = self.address.wrapping_add(4);
        self.written[rd as usize] = true;
        Course::GoesOn(cost)
    }

    /// Goes on to the next address, after an instruction of one cycle that writes no register.
    #[inline(always)]
    fn pass(&mut self) -> Course
        ensures course { result ≡ Course.GoesOn 1 }
        ensures next { self.new ≡ after_pass self.old }
    {
        self.address = self.address.wrapping_add(4);
        Course::GoesOn(1)
    }

    /// Goes on to the target of JAL, which writes this register.
    #[inline(always)]
    fn jump(&mut self, rd: u8, offset: i32) -> Course
        requires { rd < 32 }
        ensures course { result ≡ Course.GoesOn 1 }
        ensures next { self.new ≡ after_jump rd offset self.old }
    {
        self.address = target(self.address, offset);
        self.written[rd as usize] = true;
        Course::GoesOn(1)
    }
}

impl Hart {
    /// For how many of so many cycles the hart surely asks for nothing, if no post comes in: for all of them once it has
    /// ended or while it waits for a line, and else while it is busy and as far as its next instructions tell.
    pub fn rest(&self, code: &Code, most: u64) -> u64
        ensures count { result ≡ rest_of code.now self.now.value most }
        ensures cache { IsCache self.now.value.cache }
        ensures registers { length self.now.value.registers ≡ 32 }
    {
        self.cache.shape();
        all_registers(&self.registers);
        if self.ended == CoreEnd::Running && !self.waiting {
            self.foresee(code, most)
        } else {
            most
        }
    }

    /// For how many of so many cycles the hart is busy or its next instructions certainly ask for nothing. The cycles of
    /// 64 instructions are counted at most.
    fn foresee(&self, code: &Code, most: u64) -> u64
        ensures { result ≡ min most (self.now.value.busy + cycles_ahead code.now self.now.value 64 (here self.now.value)) }
    {
        let mut at = Ahead {
            address: self.pc,
            written: [false; 32],
        };
        let mut left = INSTRUCTIONS;
        let mut cycles = u64::from(self.busy);
        while left > 0 && cycles < most {
            let course = self.look(code, &mut at);
            cycles += u64::from(course.cycles());
            left = if course.goes_on() { left - 1 } else { 0 };
        }
        cycles.min(most)
    }

    /// What is known of the instruction ahead; the next one is ahead then.
    #[inline(always)]
    fn look(&self, code: &Code, at: &mut Ahead) -> Course
        ensures course { result ≡ (course_of code.now self.now.value at.old (instr_at code.now at.old.address)).0 }
        ensures next { at.new ≡ (course_of code.now self.now.value at.old (instr_at code.now at.old.address)).1 }
        ensures short { cycles_by result 0 ≤ 16 }
    {
        match code.kept(at.address) {
            Some(kept) => self.course(code, kept, at),
            None => Course::MayAsk,
        }
    }

    /// What is known of an instruction that is kept; the next one is ahead then.
    #[rattlefmt::skip]
    #[inline(always)]
    fn course(&self, code: &Code, kept: &Kept, at: &mut Ahead) -> Course
        requires { IfSome (instr_in kept.now) IsInRange }
        ensures course { result ≡ (course_of code.now self.now.value at.old (instr_in kept.now)).0 }
        ensures next { at.new ≡ (course_of code.now self.now.value at.old (instr_in kept.now)).1 }
        ensures short { cycles_by result 0 ≤ 16 }
    {
        match *kept {
            Kept::Nothing | Kept::Lr(..) | Kept::Sc(..) | Kept::Amo(..) | Kept::Ecall => Course::MayAsk,
            Kept::Jalr(..) | Kept::Beq(..) | Kept::Bne(..) | Kept::Blt(..) | Kept::Bge(..) | Kept::Bltu(..) | Kept::Bgeu(..) | Kept::Ebreak => Course::Turns,
            Kept::Jal(rd, offset) => at.jump(rd, offset),
            Kept::Lb(rd, rs1, offset) => self.load_ahead(code, rd, rs1, offset, at),
            Kept::Lh(rd, rs1, offset) => self.load_ahead(code, rd, rs1, offset, at),
            Kept::Lw(rd, rs1, offset) => self.load_ahead(code, rd, rs1, offset, at),
            Kept::Lbu(rd, rs1, offset) => self.load_ahead(code, rd, rs1, offset, at),
            Kept::Lhu(rd, rs1, offset) => self.load_ahead(code, rd, rs1, offset, at),
            Kept::Sb(rs1, _, offset) => self.store_ahead(code, rs1, offset, at),
            Kept::Sh(rs1, _, offset) => self.store_ahead(code, rs1, offset, at),
            Kept::Sw(rs1, _, offset) => self.store_ahead(code, rs1, offset, at),
            Kept::Fence(_) => at.pass(),
            Kept::Lui(rd, _) | Kept::Auipc(rd, _) => at.write(rd, 1),
            Kept::Addi(rd, _, _) | Kept::Slti(rd, _, _) | Kept::Sltiu(rd, _, _) | Kept::Xori(rd, _, _) | Kept::Ori(rd, _, _) | Kept::Andi(rd, _, _) => at.write(rd, 1),
            Kept::Slli(rd, _, _) | Kept::Srli(rd, _, _) | Kept::Srai(rd, _, _) => at.write(rd, 1),
            Kept::Add(rd, _, _) | Kept::Sll(rd, _, _) | Kept::Slt(rd, _, _) | Kept::Sltu(rd, _, _) | Kept::Xor(rd, _, _) => at.write(rd, 1),
            Kept::Srl(rd, _, _) | Kept::Or(rd, _, _) | Kept::And(rd, _, _) | Kept::Sub(rd, _, _) | Kept::Sra(rd, _, _) => at.write(rd, 1),
            Kept::Mul(rd, _, _) | Kept::Mulh(rd, _, _) | Kept::Mulhsu(rd, _, _) | Kept::Mulhu(rd, _, _) => at.write(rd, 3),
            Kept::Div(rd, _, _) | Kept::Divu(rd, _, _) | Kept::Rem(rd, _, _) | Kept::Remu(rd, _, _) => at.write(rd, 16),
        }
    }

    /// What is known of a load ahead.
    #[inline(always)]
    fn load_ahead(&self, code: &Code, rd: u8, rs1: u8, offset: i32, at: &mut Ahead) -> Course
        requires { (rd < 32) × (rs1 < 32) }
        ensures course { result ≡ (load_course code.now self.now.value at.old rd rs1 offset).0 }
        ensures next { at.new ≡ (load_course code.now self.now.value at.old rd rs1 offset).1 }
        ensures short { cycles_by result 0 ≤ 16 }
    {
        if self.hits_ahead(code, at, false, rs1, offset) {
            at.write(rd, 1)
        } else {
            Course::MayAsk
        }
    }

    /// What is known of a store ahead.
    #[inline(always)]
    fn store_ahead(&self, code: &Code, rs1: u8, offset: i32, at: &mut Ahead) -> Course
        requires { rs1 < 32 }
        ensures course { result ≡ (store_course code.now self.now.value at.old rs1 offset).0 }
        ensures next { at.new ≡ (store_course code.now self.now.value at.old rs1 offset).1 }
        ensures short { cycles_by result 0 ≤ 16 }
    {
        if self.hits_ahead(code, at, true, rs1, offset) {
            at.pass()
        } else {
            Course::MayAsk
        }
    }

    /// Whether a load or store ahead certainly hits its line: nothing before it writes its base register, and the line is
    /// held so now.
    #[inline(always)]
    fn hits_ahead(&self, code: &Code, at: &Ahead, stores: bool, rs1: u8, offset: i32) -> bool
        requires { rs1 < 32 }
        ensures { result ≡ hits_ahead code.now self.now.value at.now stores rs1 offset }
    {
        if at.written[rs1 as usize] {
            return false;
        }
        let address = target(self.x(rs1), offset);
        code.is_in_memory(address) && self.hits_line(stores, code.offset(address) / 16)
    }

    /// Whether a load or store of a line hits it.
    #[inline(always)]
    fn hits_line(&self, stores: bool, line: u32) -> bool
        ensures { result ≡ hits_line stores self.now.value.cache line }
    {
        match self.cache.find(line) {
            Some(found) => !stores || found.held.may_write(),
            None => false,
        }
    }
}
