//! A core and its tick.
ghost use Rattle.std.specs.Prelude.{◌≡◌, ◌+◌, ◌≤◌, ◌++◌, nat_le, nat_lt, filter, length, OnOk};
ghost use Rattle.slack_base.specs.declared.bounds.TheConstants.{TOP};
ghost use Rattle.timed_core.specs.Ticks.{asks_of, id_at, applied_all};

use crate::code::Code;
use crate::harts::Hart;
use crate::marks::Saved;
use mesi_cache::HeldLine;
use slack_base::{Ask, AskList, Config, CoreEnd, Counts, Id, OutOfMemory, Post};
use stamp_queue::Inbox;
use std::alloc::Global;
use std::marker::Model;

/// A core: its registers, its cache, what is counted of it, and the posts that wait for it; and what leads back to the
/// core as it was at its mark, where it is marked. The readers tell of the core as it is now. A contract also sees the
/// numbers of the sets of its cache that were noted since the mark.
#[derive(Drop)]
pub struct TimedCore {
    hart: Hart,
    inbox: Inbox,
    saved: Option<Saved>,
}

impl Model for TimedCore {
    ghost use Rattle.std.specs.Prelude.{◌≡◌, is_some};
    ghost use Rattle.timed_core.specs.Views.{core_then, MarkedCore};

    ghost Value = { MarkedCore };

    ghost view = { λ c. record { value = record { inner = c.hart.value; inbox = c.inbox }; saved = core_then c.saved c.hart.saved; noted = c.hart.noted } };

    ghost invariant = { λ c. is_some c.saved ≡ is_some c.hart.saved };
}

impl TimedCore {
    ghost use Rattle.std.specs.Prelude.{◌≡◌, ◌+◌, ◌-◌, ◌<◌, ◌≤◌, ◌++◌, [], IfNone, IfOk, IfSome, IsSome, OnOk, OnErr, None, Some, length, not, slice_index};
    ghost use Rattle.slack_base.specs.Numbers.{numbers_of};
    ghost use Rattle.slack_base.specs.Inboxes.{with_put, tick_by, ticks_by};
    ghost use Rattle.slack_base.specs.declared.bounds.TheConstants.{TOP};
    ghost use Rattle.timed_core.specs.Accesses.{held_in};
    ghost use Rattle.timed_core.specs.Code.{CodeValue};
    ghost use Rattle.timed_core.specs.Noting.{AreNotedSince, work, works};
    ghost use Rattle.timed_core.specs.Cores.{IsBy, first_core, is_running};
    ghost use Rattle.timed_core.specs.Stretches.{AreTicks, quiet_of};
    ghost use Rattle.timed_core.specs.Ticks.{tick};
    ghost use Rattle.timed_core.specs.TouchedCaches.{cache_of};
    ghost use Rattle.timed_core.specs.Touches.{touched_of};

    /// A core before the first cycle, whose pc is `entry`. It isn't marked.
    pub fn new(
        alloc: Global,
        number: u32,
        config: &Config,
        entry: u32,
    ) -> Result<TimedCore, OutOfMemory>
        requires { number < config.now.cores }
        ensures { IfOk result (λ core. core ≡ record { value = record { inner = first_core (numbers_of config.now) entry number; inbox = [] }; saved = None; noted = [] }) }
    {
        Ok(TimedCore {
            hart: Hart::new(alloc, number, config, entry)?,
            inbox: Inbox::new(alloc),
            saved: None,
        })
    }

    /// The core's number.
    pub fn number(&self) -> u32
        ensures { result ≡ self.now.value.inner.number }
    {
        self.hart.number()
    }

    /// The address of the next instruction.
    pub fn pc(&self) -> u32
        ensures { result ≡ self.now.value.inner.pc }
    {
        self.hart.pc()
    }

    /// The register of this number, below 32.
    pub fn reg(&self, n: u32) -> u32
        requires { n < 32 }
        ensures { result ≡ slice_index self.now.value.inner.registers n }
    {
        self.hart.reg(n)
    }

    /// The address of the word that is reserved: none where there is no reservation.
    pub fn reservation(&self) -> Option<u32>
        ensures { result ≡ self.now.value.inner.reservation }
    {
        self.hart.reservation()
    }

    /// The state and the words of a line of memory: none where the core's cache doesn't hold it.
    pub fn held(&self, line: u32) -> Option<HeldLine>
        ensures { result ≡ held_in self.now.value.inner.cache line }
    {
        self.hart.held(line)
    }

    /// Whether the core is running, or how it ended.
    pub fn end(&self) -> CoreEnd
        ensures end { result ≡ self.now.value.inner.ended }
        ensures bound { IsBy TOP result }
    {
        self.hart.end()
    }

    /// Whether the core is running.
    pub fn is_running(&self) -> bool
        ensures { result ≡ is_running self.now.value.inner.ended }
    {
        self.hart.is_running()
    }

    /// Whether the core has ended. It goes on applying posts.
    pub fn has_ended(&self) -> bool
        ensures { result ≡ not (is_running self.now.value.inner.ended) }
    {
        !self.hart.is_running()
    }

    /// What is counted of the core.
    pub fn counts(&self) -> Counts
        ensures { result ≡ self.now.value.inner.counts }
    {
        self.hart.counts()
    }

    /// Puts a post into the inbox, behind those of the same due and id that are there.
    pub fn put(&mut self, post: Post) -> Result<(), OutOfMemory>
        ensures ok { OnOk result (self.new.value ≡ with_put post self.old.value) }
        ensures saved { self.new.saved ≡ self.old.saved }
        ensures noted { self.new.noted ≡ self.old.noted }
        ensures err { OnErr result (self.new ≡ self.old) }
    {
        self.inbox.put(post)
    }

    /// The cycle from which on the core touched no more the set of the line that the post is about: 0 where it never did. A
    /// tick that applies a reply or a snoop touches its line's set, and so does one that executes a load, a store, LR, SC or
    /// an AMO which doesn't trap, whether the line is held or not. It takes no memory.
    pub fn touched(&self, post: &Post) -> u64
        ensures { result ≡ touched_of self.now.value.inner post.now }
    {
        self.hart.touch_of(post.line)
    }

    /// One tick at a cycle: the posts that are due are applied in their order, and then the core does nothing if it
    /// has ended, spends a cycle if it is busy or waits for a line, and else executes an instruction. The asks that
    /// it sends are appended, numbered from 0. `code` is the instruction memory of the core's machine, and tells which
    /// addresses are in memory too. A marked core notes no more sets of its cache than it applies posts and executes
    /// instructions. After want of memory the core may be changed in part, and is only to be dropped or taken back to its
    /// mark.
    pub fn tick(&mut self, code: &Code, cycle: u64, out: &mut AskList) -> Result<(), OutOfMemory>
        requires { cycle ≤ TOP }
        ensures core { OnOk result (self.new.value ≡ (tick_by (tick code.now) cycle self.old.value).0) }
        ensures saved { self.new.saved ≡ self.old.saved }
        ensures noted { OnOk result (length self.new.noted ≤ length self.old.noted + work code.now cycle self.old.value) }
        ensures asks { OnOk result (out.new ≡ out.old ++ (tick_by (tick code.now) cycle self.old.value).1) }
    {
        self.part(code, cycle, cycle + 1, out)?;
        Ok(())
    }

    /// One tick at a cycle, posts first.
    #[inline(never)]
    fn tick_with_posts(
        &mut self,
        code: &Code,
        cycle: u64,
        out: &mut AskList,
    ) -> Result<(), OutOfMemory>
        requires { cycle ≤ TOP }
        ensures core { OnOk result (self.new.value ≡ (tick_by (tick code.now) cycle self.old.value).0) }
        ensures saved { self.new.saved ≡ self.old.saved }
        ensures noted { OnOk result (length self.new.noted ≤ length self.old.noted + work code.now cycle self.old.value) }
        ensures asks { OnOk result (out.new ≡ out.old ++ (tick_by (tick code.now) cycle self.old.value).1) }
    {
        let before = out.len();
        apply_due(&mut self.hart, &mut self.inbox, code.base(), cycle, out)?;
        let stretch = self.hart.stretch(code, cycle, cycle + 1);
        let id = id_at(cycle, &self.hart, out.len() - before);
        send(stretch.outcome.ask(id), out)
    }

    /// Ticks from a cycle on, one after another, with no new post: up to the cycle `until`, or up to the first in which
    /// it sends something, which is then the last. The answer is the cycle after them. Asks are appended, numbered
    /// from 0 in their cycle. A marked core notes no more sets of its cache than it applies posts and executes
    /// instructions. After want of memory the core may be changed in part, as after that of a tick.
    pub fn advance(
        &mut self,
        code: &Code,
        from: u64,
        until: u64,
        out: &mut AskList,
    ) -> Result<u64, OutOfMemory>
        requires order { from < until }
        requires top { until ≤ TOP }
        ensures reached { IfOk result (λ r. (from < r) × (r ≤ until)) }
        ensures core { IfOk result (λ r. self.new.value ≡ (ticks_by (tick code.now) from (r - from) self.old.value).0) }
        ensures asks { IfOk result (λ r. out.new ≡ out.old ++ (ticks_by (tick code.now) from (r - from) self.old.value).1) }
        // Only the last of these cycles may send something,
        ensures last { IfOk result (λ r. (ticks_by (tick code.now) from (r - from - 1) self.old.value).1 ≡ []) }
        // and where there are fewer than might be, it did.
        ensures sent { IfOk result (λ r. r < until → ¬ ((ticks_by (tick code.now) from (r - from) self.old.value).1 ≡ [])) }
        ensures saved { self.new.saved ≡ self.old.saved }
        ensures noted { IfOk result (λ r. length self.new.noted ≤ length self.old.noted + works code.now from (r - from) self.old.value) }
    {
        let before = out.len();
        let mut next = from;
        while next < until && out.len() == before {
            next = self.part(code, next, until, out)?;
        }
        Ok(next)
    }

    /// The ticks of some of the cycles from one on: of that in which a post is due, or of those before the first post
    /// is.
    #[inline(always)]
    fn part(
        &mut self,
        code: &Code,
        from: u64,
        until: u64,
        out: &mut AskList,
    ) -> Result<u64, OutOfMemory>
        requires order { from < until }
        requires top { until ≤ TOP + 1 }
        ensures reached { IfOk result (λ r. (from < r) × (r ≤ until)) }
        ensures ticks { IfOk result (λ r. AreTicks code.now from r self.old.value self.new.value out.old out.new) }
        ensures saved { self.new.saved ≡ self.old.saved }
        ensures noted { IfOk result (λ r. length self.new.noted ≤ length self.old.noted + works code.now from (r - from) self.old.value) }
    {
        let due = self.inbox.next_due();
        if due <= from {
            self.tick_with_posts(code, from, out)?;
            return Ok(from + 1);
        }
        let stretch = self.hart.stretch(code, from, until.min(due));
        if !stretch.outcome.asks() {
            return Ok(stretch.next);
        }
        let id = id_at(stretch.next - 1, &self.hart, 0);
        send(stretch.outcome.ask(id), out)?;
        Ok(stretch.next)
    }

    /// How many cycles from a cycle on the core certainly sends nothing, if no post comes in: up to the cycle at which
    /// its first post is due all of them where it has ended or waits for a line, and else those for which it is busy and
    /// those of its next 64 instructions, up to one that may ask for something. It takes no memory.
    pub fn quiet(&self, code: &Code, from: u64) -> u64
        ensures count { result ≡ quiet_of code.now from self.now.value }
        ensures silent { (ticks_by (tick code.now) from result self.now.value).1 ≡ [] }
    {
        let due = self.inbox.next_due();
        self.hart.rest(code, due.saturating_sub(from))
    }

    /// Marks the core as it is now: all of it but its cache and its touches is copied, and from then on what a set of the
    /// cache holds and its touch are noted before either first changes. Room for the notes is made here, so that a marked
    /// core's ticks want no more memory than others. An older mark is replaced; where there is no memory for the new one,
    /// nothing changes.
    pub fn mark(&mut self) -> Result<(), OutOfMemory>
        ensures ok { OnOk result (self.new ≡ record { value = self.old.value; saved = Some self.old.value; noted = [] }) }
        ensures err { OnErr result (self.new ≡ self.old) }
    {
        let saved = Saved::of(&self.hart, &self.inbox)?;
        self.hart.mark()?;
        self.saved = Some(saved);
        Ok(())
    }

    /// Takes the core back to what it was at its mark, which is used up. It takes no memory.
    pub fn undo(&mut self)
        ensures marked { IfSome self.old.saved (λ v. self.new.value ≡ v) }
        ensures unmarked { IfNone self.old.saved (self.new.value ≡ self.old.value) }
        ensures saved { self.new.saved ≡ None }
        ensures noted { self.new.noted ≡ [] }
    {
        match self.saved.take() {
            Some(saved) => {
                self.hart.undo(&saved.parts);
                self.inbox = saved.inbox;
            }
            None => self.hart.keep(),
        }
    }

    /// Gives up the mark, and leaves the core as it is. It takes no memory.
    pub fn keep(&mut self)
        ensures { self.new ≡ record { value = self.old.value; saved = None; noted = [] } }
    {
        self.saved = None;
        self.hart.keep();
    }

    /// How many sets of its cache a marked core has noted.
    pub fn noted(&self) -> u64
        requires { IsSome self.now.saved }
        ensures count { result ≡ length self.now.noted }
        ensures since { IfSome self.now.saved (λ saved. AreNotedSince (cache_of saved.inner) (cache_of self.now.value.inner) result) }
    {
        self.hart.noted()
    }
}

/// Applies the posts that are due at a cycle, in the order of the inbox.
fn apply_due(
    hart: &mut Hart,
    inbox: &mut Inbox,
    base: u32,
    cycle: u64,
    out: &mut AskList,
) -> Result<(), OutOfMemory>
    requires { cycle ≤ TOP }
    ensures hart { OnOk result (hart.new.value ≡ (applied_all base cycle 0 hart.old.value (filter (λ p. nat_le p.due cycle) inbox.old)).0) }
    ensures saved { hart.new.saved ≡ hart.old.saved }
    ensures noted { length hart.new.noted ≤ length hart.old.noted + length (filter (λ p. nat_le p.due cycle) inbox.old) }
    ensures inbox { OnOk result (inbox.new ≡ filter (λ p. nat_lt cycle p.due) inbox.old) }
    ensures asks { OnOk result (out.new ≡ out.old ++ (applied_all base cycle 0 hart.old.value (filter (λ p. nat_le p.due cycle) inbox.old)).1) }
{
    let before = out.len();
    while let Some(post) = inbox.take_due(cycle) {
        let id = id_at(cycle, hart, out.len() - before);
        let ask = hart.apply(post.kind, base, post.line, id);
        send(ask, out)?;
    }
    Ok(())
}

/// The id of the next ask in a cycle, where so many were sent.
#[inline(always)]
fn id_at(cycle: u64, hart: &Hart, sent: usize) -> Id
    ensures { result ≡ id_at cycle hart.now.value sent }
{
    Id {
        cycle,
        core: hart.number(),
        number: sent as u64,
    }
}

/// Appends the ask, if there is one.
fn send(ask: Option<Ask>, out: &mut AskList) -> Result<(), OutOfMemory>
    ensures { OnOk result (out.new ≡ out.old ++ asks_of ask) }
{
    if let Some(ask) = ask {
        out.push(ask)?;
    }
    Ok(())
}
