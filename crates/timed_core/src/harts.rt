//! A core without its inbox: the hart that executes instructions, and its cache.
ghost use Rattle.std.specs.Prelude.{◌≡◌, ◌-◌, ◌/◌};
ghost use Rattle.timed_core.specs.Cores.{line_number};

mod execution;
mod foresight;
mod hits;
mod instructions;
mod posts;
mod stretches;

use crate::marks::Parts;
use crate::noted_caches::NotedCache;
use crate::outcomes::Outcome;
use mesi_cache::HeldLine;
use slack_base::{Config, CoreEnd, Counts, OutOfMemory, Trap, raised};
use std::alloc::Global;
use std::marker::Model;

/// A hart with its cache. A contract sees the record of its fields, the cache with its touches as they were at its mark,
/// and the numbers of the sets that were noted since.
#[derive(Drop)]
pub struct Hart {
    number: u32,
    pc: u32,
    registers: [u32; 32],
    /// The address of the word that LR reserved, until the reservation is lost.
    reservation: Option<u32>,
    cache: NotedCache,
    /// The cycles that the last instruction still takes.
    busy: u32,
    /// A line was asked for, and the answer hasn't come.
    waiting: bool,
    ended: CoreEnd,
    counts: Counts,
}

impl Model for Hart {
    ghost use Rattle.slack_base.specs.declared.bounds.TheConstants.{TOP};
    ghost use Rattle.timed_core.specs.Cores.{IsBy};
    ghost use Rattle.timed_core.specs.Views.{NotedHart};

    ghost Value = { NotedHart };

    ghost view = { λ c. record {
      value = record {
        number = c.number;
        pc = c.pc;
        registers = c.registers;
        reservation = c.reservation;
        cache = c.cache.value.cache;
        touches = c.cache.value.touches;
        busy = c.busy;
        waiting = c.waiting;
        ended = c.ended;
        counts = c.counts;
      };
      saved = c.cache.saved;
      noted = c.cache.noted;
    } };

    ghost invariant = { λ c. IsBy TOP c.ended };
}

/// The number of the line of an address, in a memory that begins at `base`.
#[inline(always)]
fn line_number(base: u32, address: u32) -> u32
    ensures { result ≡ line_number base address }
{
    address.saturating_sub(base) / 16
}

impl Hart {
    ghost use Rattle.std.specs.Prelude.{◌≡◌, ◌+◌, ◌<◌, ◌≤◌, ◌%◌, [], IfOk, IfSome, None, OnErr, OnOk, Some, length, slice_index};
    ghost use Rattle.slack_base.specs.declared.bounds.TheConstants.{TOP};
    ghost use Rattle.slack_base.specs.Numbers.{numbers_of};
    ghost use Rattle.timed_core.specs.Accesses.{held_in};
    ghost use Rattle.timed_core.specs.Noting.{AreNotedSince};
    ghost use Rattle.timed_core.specs.Parts.{hart_of, parts_of};
    ghost use Rattle.timed_core.specs.TouchedCaches.{cache_of, IsPrepared};
    ghost use Rattle.timed_core.specs.Views.{cache_in};
    ghost use Rattle.timed_core.specs.Touches.{touch_of, touched_at};
    ghost use Rattle.timed_core.specs.Cores.{IsBy, first_core, is_running, with_register, completed, goes_on, gives, trapped};

    /// A hart before the first cycle.
    pub fn new(alloc: Global, number: u32, config: &Config, entry: u32) -> Result<Hart, OutOfMemory>
        requires { number < config.now.cores }
        ensures { IfOk result (λ hart. hart ≡ record { value = first_core (numbers_of config.now) entry number; saved = None; noted = [] }) }
    {
        let end = u64::from(config.base) + u64::from(config.memory);
        let mut registers = [0; 32];
        registers[10] = number;
        registers[2] = ((end - 4096 * u64::from(number)) % (1 << 32)) as u32;
        Ok(Hart {
            number,
            pc: entry,
            registers,
            reservation: None,
            cache: NotedCache::new(alloc, config.sets, config.ways)?,
            busy: 0,
            waiting: false,
            ended: CoreEnd::Running,
            counts: Counts {
                retired: 0,
                accesses: 0,
                misses: 0,
                retries: 0,
                waits: 0,
                snoops: 0,
                writebacks: 0,
            },
        })
    }

    /// All of the hart but its cache and its touches.
    pub fn parts(&self) -> Parts
        ensures { result ≡ parts_of self.now.value }
    {
        Parts {
            number: self.number,
            pc: self.pc,
            registers: self.registers,
            reservation: self.reservation,
            busy: self.busy,
            waiting: self.waiting,
            ended: self.ended,
            counts: self.counts,
        }
    }

    /// Marks the cache with its touches. The rest of the hart is to be kept by the caller.
    pub fn mark(&mut self) -> Result<(), OutOfMemory>
        ensures ok { OnOk result (self.new ≡ record { value = self.old.value; saved = Some (cache_of self.old.value); noted = [] }) }
        ensures err { OnErr result (self.new ≡ self.old) }
    {
        self.cache.mark()
    }

    /// Takes the cache with its touches back to its mark, which is used up, and the rest of the hart to these parts.
    pub fn undo(&mut self, parts: &Parts)
        ensures marked { IfSome self.old.saved (λ cache. self.new.value ≡ hart_of parts.now cache) }
        ensures saved { self.new.saved ≡ None }
        ensures noted { self.new.noted ≡ [] }
    {
        self.cache.undo();
        self.take_parts(parts);
    }

    /// The parts replace all of the hart but its cache and its touches.
    fn take_parts(&mut self, parts: &Parts)
        ensures { self.new ≡ record self.old { value = hart_of parts.now (cache_of self.old.value) } }
    {
        self.number = parts.number;
        self.pc = parts.pc;
        self.registers = parts.registers;
        self.reservation = parts.reservation;
        self.busy = parts.busy;
        self.waiting = parts.waiting;
        self.ended = parts.ended;
        self.counts = parts.counts;
    }

    /// Gives up the mark, and leaves the hart as it is.
    pub fn keep(&mut self)
        ensures { self.new ≡ record { value = self.old.value; saved = None; noted = [] } }
    {
        self.cache.keep();
    }

    /// How many sets of the cache were noted since the mark.
    pub fn noted(&self) -> u64
        ensures count { result ≡ length self.now.noted }
        ensures since { IfSome self.now.saved (λ cache. AreNotedSince cache (cache_of self.now.value) result) }
    {
        self.cache.noted()
    }

    pub fn number(&self) -> u32
        ensures { result ≡ self.now.value.number }
    {
        self.number
    }

    pub fn pc(&self) -> u32
        ensures { result ≡ self.now.value.pc }
    {
        self.pc
    }

    pub fn reg(&self, n: u32) -> u32
        requires { n < 32 }
        ensures { result ≡ slice_index self.now.value.registers n }
    {
        self.registers[n as usize]
    }

    pub fn reservation(&self) -> Option<u32>
        ensures { result ≡ self.now.value.reservation }
    {
        self.reservation
    }

    /// What the cache holds of a line.
    pub fn held(&self, line: u32) -> Option<HeldLine>
        ensures { result ≡ held_in self.now.value.cache line }
    {
        self.cache.peek(line)
    }

    /// The touch of the set of a line.
    pub fn touch_of(&self, line: u32) -> u64
        ensures { result ≡ touch_of self.now.value.touches line }
    {
        self.cache.touch_of(line)
    }

    /// Makes the set of a line and its touch ready to change.
    #[inline(always)]
    fn prepare(&mut self, line: u32)
        ensures value { self.new.value ≡ self.old.value }
        ensures saved { self.new.saved ≡ self.old.saved }
        ensures prepared { IsPrepared line (cache_in self.new) }
        ensures noted { length self.new.noted ≤ length self.old.noted + 1 }
    {
        self.cache.prepare(line);
    }

    /// Touches the set of a line at a cycle.
    #[inline(always)]
    fn touch(&mut self, line: u32, cycle: u64)
        requires top { cycle ≤ TOP }
        requires prepared { IsPrepared line (cache_in self.old) }
        ensures { self.new ≡ record self.old { value = touched_at cycle line self.old.value } }
    {
        self.cache.touch(line, cycle);
    }

    pub fn end(&self) -> CoreEnd
        ensures end { result ≡ self.now.value.ended }
        ensures bound { IsBy TOP result }
    {
        self.ended
    }

    pub fn is_running(&self) -> bool
        ensures { result ≡ is_running self.now.value.ended }
    {
        self.ended == CoreEnd::Running
    }

    pub fn counts(&self) -> Counts
        ensures { result ≡ self.now.value.counts }
    {
        self.counts
    }

    /// The word of a register.
    #[inline(always)]
    fn x(&self, n: u8) -> u32
        requires { n < 32 }
        ensures { result ≡ slice_index self.now.value.registers n }
    {
        self.registers[n as usize]
    }

    /// Writes a register. x0 stays 0.
    #[inline(always)]
    fn write(&mut self, rd: u8, value: u32)
        requires { rd < 32 }
        ensures { self.new ≡ record self.old { value = record self.old.value { registers = with_register self.old.value.registers rd value } } }
    {
        if rd != 0 {
            self.registers[rd as usize] = value;
        }
    }

    /// Completes an instruction of one cycle.
    #[inline(always)]
    fn complete(&mut self, pc: u32) -> Outcome
        requires { self.old.value.busy ≡ 0 }
        ensures after { self.new ≡ record self.old { value = completed self.old.value self.old.value.registers pc 1 } }
        ensures outcome { result ≡ Outcome.Ready }
    {
        self.pc = pc;
        self.counts.retired = raised(self.counts.retired);
        Outcome::Ready
    }

    /// Completes an instruction of one cycle, and goes on to the next.
    #[inline(always)]
    fn go_on(&mut self) -> Outcome
        requires { self.old.value.busy ≡ 0 }
        ensures after { self.new ≡ record self.old { value = goes_on 1 self.old.value } }
        ensures outcome { result ≡ Outcome.Ready }
    {
        let next = self.pc.wrapping_add(4);
        self.complete(next)
    }

    /// Completes an instruction of one cycle that writes a register, and goes on to the next.
    #[inline(always)]
    fn give(&mut self, rd: u8, value: u32) -> Outcome
        requires free { self.old.value.busy ≡ 0 }
        requires register { rd < 32 }
        ensures after { self.new ≡ record self.old { value = gives rd value 1 self.old.value } }
        ensures outcome { result ≡ Outcome.Ready }
    {
        self.write(rd, value);
        self.go_on()
    }

    /// Completes an instruction of several cycles, and goes on to the next.
    #[inline(always)]
    fn go_on_slowly(&mut self, cost: u32) -> Outcome
        requires { 1 < cost }
        ensures after { self.new ≡ record self.old { value = goes_on cost self.old.value } }
        ensures outcome { result ≡ Outcome.Rests }
    {
        self.pc = self.pc.wrapping_add(4);
        self.busy = cost - 1;
        self.counts.retired = raised(self.counts.retired);
        Outcome::Rests
    }

    /// Completes an instruction of several cycles that writes a register, and goes on to the next.
    #[inline(always)]
    fn give_slowly(&mut self, rd: u8, value: u32, cost: u32) -> Outcome
        requires register { rd < 32 }
        requires some { 1 < cost }
        ensures after { self.new ≡ record self.old { value = gives rd value cost self.old.value } }
        ensures outcome { result ≡ Outcome.Rests }
    {
        self.write(rd, value);
        self.go_on_slowly(cost)
    }

    /// Ends the hart by a trap.
    fn trap(&mut self, cycle: u64, trap: Trap)
        requires { cycle ≤ TOP }
        ensures { self.new ≡ record self.old { value = trapped self.old.value cycle trap } }
    {
        self.ended = CoreEnd::Trapped { at: cycle, trap };
    }

    /// Ends the hart at a jump to no address of an instruction.
    #[cold]
    #[inline(never)]
    fn trap_target(&mut self, cycle: u64, target: u32)
        requires { cycle ≤ TOP }
        ensures { self.new ≡ record self.old { value = trapped self.old.value cycle (Trap.Target target) } }
    {
        self.trap(cycle, Trap::Target { target });
    }

    /// Ends the hart at an access that isn't aligned.
    #[cold]
    #[inline(never)]
    fn trap_misaligned(&mut self, cycle: u64, address: u32)
        requires { cycle ≤ TOP }
        ensures { self.new ≡ record self.old { value = trapped self.old.value cycle (Trap.Misaligned address) } }
    {
        self.trap(cycle, Trap::Misaligned { address });
    }

    /// Ends the hart at an access outside memory.
    #[cold]
    #[inline(never)]
    fn trap_outside(&mut self, cycle: u64, address: u32)
        requires { cycle ≤ TOP }
        ensures { self.new ≡ record self.old { value = trapped self.old.value cycle (Trap.Outside address) } }
    {
        self.trap(cycle, Trap::Outside { address });
    }
}
