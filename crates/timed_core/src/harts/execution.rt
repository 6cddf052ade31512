//! What a hart does in a cycle in which it executes an instruction.
ghost use Rattle.std.specs.Prelude.{◌≡◌, ◌≤◌, ◌+◌, None, length};
ghost use Rattle.slack_base.specs.declared.bounds.TheConstants.{TOP};
ghost use Rattle.timed_core.specs.Code.{word_at, instr_at};
ghost use Rattle.timed_core.specs.Outcomes.{IsReady, DoesAt};
ghost use Rattle.timed_core.specs.Ticks.{fetched};

use crate::code::Code;
use crate::harts::Hart;
use crate::outcomes::Outcome;
use slack_base::Trap;

impl Hart {
    /// Executes the instruction at pc, or ends the hart where none is.
    #[inline(always)]
    pub fn fetch(&mut self, code: &Code, cycle: u64) -> Outcome
        requires top { cycle ≤ TOP }
        requires ready { IsReady self.old.value }
        ensures does { DoesAt (λ id. fetched code.now (word_at code.now self.old.value.pc) id self.old.value) cycle self.old.value self.new.value result }
        ensures saved { self.new.saved ≡ self.old.saved }
        ensures noted { length self.new.noted ≤ length self.old.noted + 1 }
    {
        let Some(kept) = code.kept(self.pc) else {
            return self.refuse(code, cycle);
        };
        if kept.is_nothing() {
            return self.refuse(code, cycle);
        }
        self.execute(code, kept, cycle)
    }

    /// Ends the hart by the trap of an address at which there is no instruction.
    #[cold]
    #[inline(never)]
    #[tactic(auto, unfolding(crate::specs::Ticks::fetched, crate::specs::Ticks::decoded))]
    fn refuse(&mut self, code: &Code, cycle: u64) -> Outcome
        requires top { cycle ≤ TOP }
        requires none { instr_at code.now self.old.value.pc ≡ None }
        ensures does { DoesAt (λ id. fetched code.now (word_at code.now self.old.value.pc) id self.old.value) cycle self.old.value self.new.value result }
        ensures saved { self.new.saved ≡ self.old.saved }
        ensures noted { self.new.noted ≡ self.old.noted }
    {
        let trap = match code.word(self.pc) {
            Some(bits) => Trap::Illegal { bits },
            None => Trap::Fetch { pc: self.pc },
        };
        self.trap(cycle, trap);
        Outcome::Rests
    }
}
