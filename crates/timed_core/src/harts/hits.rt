//! What an access to memory does to a hart: it hits or misses its line, fails or ends the hart.
ghost use Rattle.std.specs.Prelude.{◌≡◌, ◌≤◌, ◌<◌, ◌+◌, ◌%◌, ℕ, Some, IfSome, IsTrue, length};
ghost use Rattle.std.specs.Option.{option_map};
ghost use Rattle.slack_base.specs.declared.bounds.TheConstants.{TOP};
ghost use Rattle.mesi_cache.specs.Caches.{line_in, read_line, write_line};
ghost use Rattle.mesi_cache.specs.Lines.{may_write};
ghost use Rattle.mesi_cache.specs.Places.{IsFoundIn};
ghost use Rattle.timed_core.specs.Accesses.{is_aligned, hits, word_in_line, with_access, hit, missed, looked_up, failed, tried, accessed, held_in};
ghost use Rattle.timed_core.specs.Cores.{line_number};
ghost use Rattle.timed_core.specs.Effects.{WritesRegister};
ghost use Rattle.timed_core.specs.Outcomes.{IsReady, DoesAt};
ghost use Rattle.timed_core.specs.TouchedCaches.{IsPrepared};
ghost use Rattle.timed_core.specs.Views.{cache_in};

use crate::accesses::Access;
use crate::code::Code;
use crate::harts::Hart;
use crate::outcomes::Outcome;
use mesi_cache::Found;
use rv_exec::{amo_result, load_part, store_part};
use slack_base::raised;

/// Which of the four words of its line an address is in.
#[inline(always)]
fn word_in_line(address: u32) -> u32
    ensures value { result ≡ word_in_line address }
    ensures within { result < 4 }
{
    address / 4 % 4
}

impl Hart {
    /// Accesses memory: alignment is checked first, then that the address is in memory. An access that passes both touches
    /// its line's set, which is noted first.
    #[inline(always)]
    #[tactic(auto, unfolding(crate::specs::Accesses::accessed))]
    pub fn access(&mut self, code: &Code, access: Access, address: u32, cycle: u64) -> Outcome
        requires top { cycle ≤ TOP }
        requires ready { IsReady self.old.value }
        requires register { WritesRegister access }
        ensures does { DoesAt (λ id. accessed code.now access address 1 id self.old.value) cycle self.old.value self.new.value result }
        ensures saved { self.new.saved ≡ self.old.saved }
        ensures noted { length self.new.noted ≤ length self.old.noted + 1 }
    {
        if !access.is_aligned(address) {
            self.trap_misaligned(cycle, address);
            return Outcome::Rests;
        }
        if !code.is_in_memory(address) {
            self.trap_outside(cycle, address);
            return Outcome::Rests;
        }
        let line = code.offset(address) / 16;
        let found = self.cache.find(line);
        self.prepare(line);
        self.touch(line, cycle);
        self.try_access(access, line, found, address, cycle)
    }

    /// Does an access whose line was found or isn't held, but for an SC whose address isn't the reservation, which fails.
    #[inline(always)]
    #[tactic(auto, unfolding(crate::specs::Accesses::tried))]
    fn try_access(
        &mut self,
        access: Access,
        line: u32,
        found: Option<Found>,
        address: u32,
        cycle: u64,
    ) -> Outcome
        requires ready { IsReady self.old.value }
        requires aligned { IsTrue (is_aligned access (address % 4)) }
        requires register { WritesRegister access }
        requires prepared { IsPrepared line (cache_in self.old) }
        requires held { option_map (λ f. f.held) found ≡ option_map (λ l. l.held) (line_in self.old.value.cache line) }
        requires line { IfSome found (λ f. f.line ≡ line) }
        requires found { IfSome found (λ f. IsFoundIn self.old.value.cache f) }
        ensures does { (base : ℕ) → line ≡ line_number base address → DoesAt (λ id. tried access base address 1 id self.old.value) cycle self.old.value self.new.value result }
        ensures saved { self.new.saved ≡ self.old.saved }
        ensures noted { self.new.noted ≡ self.old.noted }
    {
        match access {
            Access::StoreConditional { rd, .. } => {
                if self.reservation != Some(address) {
                    return self.fail(rd);
                }
                self.look_up(access, line, found, address, cycle)
            }
            _ => self.look_up(access, line, found, address, cycle),
        }
    }

    /// An SC that fails gives 1, and loses the reservation.
    #[inline(always)]
    fn fail(&mut self, rd: u8) -> Outcome
        requires free { self.old.value.busy ≡ 0 }
        requires register { rd < 32 }
        ensures after { self.new ≡ record self.old { value = failed rd 1 self.old.value } }
        ensures outcome { result ≡ Outcome.Ready }
    {
        self.reservation = None;
        self.give(rd, 1)
    }

    /// Does an access to its line if the cache holds it so that the access hits, and else asks for the line.
    #[inline(always)]
    fn look_up(
        &mut self,
        access: Access,
        line: u32,
        found: Option<Found>,
        address: u32,
        cycle: u64,
    ) -> Outcome
        requires ready { IsReady self.old.value }
        requires aligned { IsTrue (is_aligned access (address % 4)) }
        requires register { WritesRegister access }
        requires prepared { IsPrepared line (cache_in self.old) }
        requires held { option_map (λ f. f.held) found ≡ option_map (λ l. l.held) (line_in self.old.value.cache line) }
        requires line { IfSome found (λ f. f.line ≡ line) }
        requires found { IfSome found (λ f. IsFoundIn self.old.value.cache f) }
        ensures does { (base : ℕ) → line ≡ line_number base address → DoesAt (λ id. looked_up (held_in self.old.value.cache line) access base address 1 id self.old.value) cycle self.old.value self.new.value result }
        ensures saved { self.new.saved ≡ self.old.saved }
        ensures noted { self.new.noted ≡ self.old.noted }
    {
        let Some(found) = found else {
            return self.miss(access, line);
        };
        if !access.hits(found.held) {
            return self.miss(access, line);
        }
        let old = self.cache.word(found, word_in_line(address));
        self.hit(access, found, address, old)
    }

    /// Does an access to a line that it hits, where the word of the address is `old`.
    #[inline(always)]
    #[tactic(auto, unfolding(crate::specs::Accesses::hit))]
    fn hit(&mut self, access: Access, found: Found, address: u32, old: u32) -> Outcome
        requires free { self.old.value.busy ≡ 0 }
        requires found { IsFoundIn self.old.value.cache found }
        requires hits { IsTrue (hits access found.held) }
        requires aligned { IsTrue (is_aligned access (address % 4)) }
        requires register { WritesRegister access }
        requires prepared { IsPrepared found.line (cache_in self.old) }
        ensures after { (base : ℕ) → found.line ≡ line_number base address → self.new.value ≡ hit access base address old 1 self.old.value }
        ensures saved { self.new.saved ≡ self.old.saved }
        ensures noted { self.new.noted ≡ self.old.noted }
        ensures outcome { result ≡ Outcome.Ready }
    {
        match access {
            Access::Load { op, rd } => {
                self.read_at(found);
                self.give(rd, load_part(op, old, address % 4))
            }
            Access::Store { op, value } => {
                self.write_at(found, address, store_part(op, old, address % 4, value));
                self.go_on()
            }
            Access::LoadReserved { rd } => {
                self.read_at(found);
                self.reservation = Some(address);
                self.give(rd, old)
            }
            Access::StoreConditional { rd, value } => {
                self.write_at(found, address, value);
                self.reservation = None;
                self.give(rd, 0)
            }
            Access::Amo { op, rd, operand } => {
                self.write_at(found, address, amo_result(op, old, operand));
                self.give(rd, old)
            }
        }
    }

    /// Reads a word of the line that was found: the line becomes the most recent of its set.
    #[inline(always)]
    fn read_at(&mut self, found: Found)
        requires found { IsFoundIn self.old.value.cache found }
        requires prepared { IsPrepared found.line (cache_in self.old) }
        ensures { self.new ≡ record self.old { value = with_access self.old.value (read_line self.old.value.cache found.line) } }
    {
        self.cache.use_found(found);
        self.counts.accesses = raised(self.counts.accesses);
    }

    /// Writes the word of the address in the line that was found: the line becomes Modified, and the most recent of
    /// its set.
    #[inline(always)]
    fn write_at(&mut self, found: Found, address: u32, value: u32)
        requires found { IsFoundIn self.old.value.cache found }
        requires writable { IsTrue (may_write found.held) }
        requires prepared { IsPrepared found.line (cache_in self.old) }
        ensures { self.new ≡ record self.old { value = with_access self.old.value (write_line self.old.value.cache found.line (word_in_line address) value) } }
    {
        self.cache.write_found(found, word_in_line(address), value);
        self.counts.accesses = raised(self.counts.accesses);
    }

    /// Waits for the line, which the access asks for.
    #[inline(always)]
    fn miss(&mut self, access: Access, line: u32) -> Outcome
        ensures does { (cycle : ℕ) → DoesAt (λ id. missed access id line self.old.value) cycle self.old.value self.new.value result }
        ensures saved { self.new.saved ≡ self.old.saved }
        ensures noted { self.new.noted ≡ self.old.noted }
    {
        self.waiting = true;
        self.counts.misses = raised(self.counts.misses);
        access.miss(line)
    }
}
