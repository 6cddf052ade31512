//! Cycles of a hart in which no post is due: those in which it executes nothing are gone over in one step.
ghost use Rattle.std.specs.Prelude.{◌≡◌, ◌+◌, ◌-◌, ◌<◌, ◌≤◌, true, length, ℕ};
ghost use Rattle.slack_base.specs.Growing.{capped};
ghost use Rattle.slack_base.specs.declared.bounds.TheConstants.{TOP};
ghost use Rattle.timed_core.specs.Noting.{executions};
ghost use Rattle.timed_core.specs.Outcomes.{IsReady, asks};
ghost use Rattle.timed_core.specs.Stretches.{IsStretch, IsLeap};

use crate::code::Code;
use crate::harts::Hart;
use crate::outcomes::Outcome;
use slack_base::capped;

/// The end of a stretch: the cycle after it, and what its last cycle came to.
#[derive(Clone, Copy)]
pub struct Stretch {
    pub next: u64,
    pub outcome: Outcome,
}

impl Hart {
    /// Goes over cycles in which no instruction is executed, up to so many: how many they are.
    #[inline(always)]
    fn leap(&mut self, most: u64) -> u64
        requires { 0 < most }
        ensures within { result ≤ most }
        ensures leap { IsLeap result self.old.value self.new.value }
        ensures saved { self.new.saved ≡ self.old.saved }
        ensures noted { self.new.noted ≡ self.old.noted }
        ensures number { self.new.value.number ≡ self.old.value.number }
        ensures ready { result ≡ 0 → IsReady self.new.value }
    {
        if !self.is_running() {
            return most;
        }
        if self.busy > 0 {
            let spent = most.min(u64::from(self.busy));
            self.spend(spent as u32);
            return spent;
        }
        if self.waiting {
            self.wait(most);
            return most;
        }
        0
    }

    /// Spends cycles of those that the last instruction still takes.
    fn spend(&mut self, cycles: u32)
        requires { cycles ≤ self.old.value.busy }
        ensures { self.new ≡ record self.old { value = record self.old.value { busy = self.old.value.busy - cycles } } }
    {
        self.busy -= cycles;
    }

    /// Waits for some cycles more.
    fn wait(&mut self, cycles: u64)
        ensures { self.new ≡ record self.old { value = record self.old.value { counts = record self.old.value.counts { waits = capped (self.old.value.counts.waits + cycles) } } } }
    {
        self.counts.waits = capped(self.counts.waits.saturating_add(cycles));
    }

    /// Some of the cycles from one on, up to another: those in which nothing is executed, or else as many as there are up to
    /// the first in which something is asked for. No post is due in them.
    #[inline(always)]
    pub fn stretch(&mut self, code: &Code, from: u64, until: u64) -> Stretch
        requires order { from < until }
        requires top { until ≤ TOP + 1 }
        ensures next { (from < result.next) × (result.next ≤ until) }
        ensures stretch { (number : ℕ) → IsStretch code.now number from self.old.value self.new.value result }
        ensures saved { self.new.saved ≡ self.old.saved }
        ensures noted { (number : ℕ) → length self.new.noted ≤ length self.old.noted + executions code.now number from (result.next - from) self.old.value }
    {
        let gone = self.leap(until - from);
        if gone > 0 {
            return Stretch {
                next: from + gone,
                outcome: Outcome::Rests,
            };
        }
        self.long_stretch(code, from, until)
    }

    /// The cycles from one on, up to another, or to the first in which something is asked for.
    #[inline(never)]
    fn long_stretch(&mut self, code: &Code, from: u64, until: u64) -> Stretch
        requires order { from < until }
        requires top { until ≤ TOP + 1 }
        ensures next { (from < result.next) × (result.next ≤ until) }
        ensures stretch { (number : ℕ) → IsStretch code.now number from self.old.value self.new.value result }
        ensures saved { self.new.saved ≡ self.old.saved }
        ensures noted { (number : ℕ) → length self.new.noted ≤ length self.old.noted + executions code.now number from (result.next - from) self.old.value }
        ensures stops { result.next < until → asks result.outcome ≡ true }
    {
        let mut next = from;
        while next < until {
            let part = self.part(code, next, until);
            if part.outcome.asks() {
                return part;
            }
            next = part.next;
        }
        Stretch {
            next,
            outcome: Outcome::Rests,
        }
    }

    /// Some of the cycles from one on, up to another: those in which nothing is executed, or else some in which an
    /// instruction is.
    #[inline(always)]
    fn part(&mut self, code: &Code, from: u64, until: u64) -> Stretch
        requires order { from < until }
        requires top { until ≤ TOP + 1 }
        ensures next { (from < result.next) × (result.next ≤ until) }
        ensures stretch { (number : ℕ) → IsStretch code.now number from self.old.value self.new.value result }
        ensures saved { self.new.saved ≡ self.old.saved }
        ensures noted { (number : ℕ) → length self.new.noted ≤ length self.old.noted + executions code.now number from (result.next - from) self.old.value }
    {
        let gone = self.leap(until - from);
        if gone > 0 {
            return Stretch {
                next: from + gone,
                outcome: Outcome::Rests,
            };
        }
        self.run(code, from, until)
    }

    /// The cycles from one on, up to another, in each of which an instruction is executed: up to the first after which
    /// the hart isn't ready for another.
    #[inline(always)]
    fn run(&mut self, code: &Code, from: u64, until: u64) -> Stretch
        requires order { from < until }
        requires top { until ≤ TOP + 1 }
        requires ready { IsReady self.old.value }
        ensures next { (from < result.next) × (result.next ≤ until) }
        ensures stretch { (number : ℕ) → IsStretch code.now number from self.old.value self.new.value result }
        ensures saved { self.new.saved ≡ self.old.saved }
        ensures noted { (number : ℕ) → length self.new.noted ≤ length self.old.noted + executions code.now number from (result.next - from) self.old.value }
    {
        let mut next = from;
        loop {
            let outcome = self.fetch(code, next);
            next += 1;
            if !outcome.is_ready() || next == until {
                return Stretch { next, outcome };
            }
        }
    }
}
