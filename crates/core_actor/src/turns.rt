//! The steps of a turn.
ghost use Rattle.std.specs.Prelude.{◌≡◌, ◌+◌, ◌<◌, ◌++◌, [], OnOk};
ghost use Rattle.slack_base.specs.declared.bounds.TheConstants.{TOP};
ghost use Rattle.core_gate.specs.Seats.{SamePacer};
ghost use Rattle.stamp_queue.specs.Rings.{all_sent, HandsOver, SameSender, SameReceiver};
ghost use Rattle.core_actor.specs.Actors.{HasFlushed, HasReceived};

use crate::actors::CoreActor;
use core_gate::Pacer;
use slack_base::{Ask, OutOfMemory, Post};
use stamp_queue::{AskSender, PostReceiver};
use std::collections::VecDeque;
use target_law::Target;

impl<C: Send + Drop> CoreActor<C> {
    ghost use Rattle.std.specs.Prelude.{◌≡◌, ◌+◌, ◌<◌, ◌≤◌, IsTrue, IsFalse, OnOk, length};
    ghost use Rattle.core_actor.specs.Actors.{IsReady, HasTurned, Went, is_next_proper};
    ghost use Rattle.core_actor.specs.declared.actors.CoreActor.{CoreActor};

    /// Looks at global time, and then lets messages pass: sends what waits for room, receives what the ring shows, and
    /// takes what is proper. So a core that sees a global time finds what was posted for asks before it.
    pub(crate) fn exchange<T: Target<Core = C>>(
        &mut self,
        target: &T,
        end: u64,
    ) -> Result<(), OutOfMemory>
        requires { IsReady (T.rules target.now) (T.owns target.now) T.values end self.old }
        ensures went { OnOk result (Went (T.rules target.now) (T.owns target.now) T.values end self.old self.new) }
        ensures clock { OnOk result (self.new.lane.clock ≡ self.old.lane.clock) }
        ensures turned { OnOk result (HasTurned (T.rules target.now) self.old self.new) }
    {
        self.pacer.observe();
        self.asks.flush();
        receive_shown(&mut self.posts, &mut self.lane.posts)?;
        self.take_proper(target, end)
    }

    /// Takes what waits, up to the first post that isn't proper.
    fn take_proper<T: Target<Core = C>>(&mut self, target: &T, end: u64) -> Result<(), OutOfMemory>
        requires { IsReady (T.rules target.now) (T.owns target.now) T.values end self.old }
        ensures went { OnOk result (Went (T.rules target.now) (T.owns target.now) T.values end self.old self.new) }
        ensures clock { OnOk result (self.new.lane.clock ≡ self.old.lane.clock) }
        ensures taken { OnOk result (IsFalse (is_next_proper (T.rules target.now) self.new.pacer.number self.new.lane.posts.items)) }
        ensures ends { OnOk result ((self.new.asks ≡ self.old.asks) × (self.new.posts ≡ self.old.posts)) }
    {
        while self.next_is_proper(target) {
            self.take_one(target, end)?;
        }
        Ok(())
    }

    /// Whether a post waits, and the oldest is one of the machine's to this core.
    fn next_is_proper<T: Target<Core = C>>(&self, target: &T) -> bool
        ensures { result ≡ is_next_proper (T.rules target.now) self.now.pacer.number self.now.lane.posts.items }
    {
        match self.lane.posts.front() {
            Some(post) => target.post_is_proper(self.pacer.number(), post),
            None => false,
        }
    }

    /// Takes the oldest post that waits, and shows it to the watch.
    fn take_one<T: Target<Core = C>>(&mut self, target: &T, end: u64) -> Result<(), OutOfMemory>
        requires ready { IsReady (T.rules target.now) (T.owns target.now) T.values end self.old }
        requires proper { IsTrue (is_next_proper (T.rules target.now) self.old.pacer.number self.old.lane.posts.items) }
        ensures went { OnOk result (Went (T.rules target.now) (T.owns target.now) T.values end self.old self.new) }
        ensures clock { OnOk result (self.new.lane.clock ≡ self.old.lane.clock) }
        ensures ends { OnOk result ((self.new.asks ≡ self.old.asks) × (self.new.posts ≡ self.old.posts)) }
        ensures fewer { OnOk result (length self.old.lane.posts.items ≡ length self.new.lane.posts.items + 1) }
    {
        self.lane.take(target)?;
        let Some(one) = self.lane.taken.as_slice().last() else {
            unreachable!()
        };
        self.watch.on_take(self.pacer.number(), &one.post, one.clock, one.touched, end)
    }

    /// One tick. Its asks are sent before the clock is stored, so that who sees the clock finds them.
    pub(crate) fn tick<T: Target<Core = C>>(
        &mut self,
        target: &T,
        end: u64,
    ) -> Result<(), OutOfMemory>
        requires ready { IsReady (T.rules target.now) (T.owns target.now) T.values end self.old }
        requires open { self.old.lane.clock < end }
        requires ahead { self.old.pacer.clock < self.old.pacer.seen + self.old.pacer.slack }
        ensures went { OnOk result (Went (T.rules target.now) (T.owns target.now) T.values end self.old self.new) }
        ensures clock { OnOk result (self.new.lane.clock ≡ self.old.lane.clock + 1) }
        ensures turned { OnOk result ((first : CoreActor C) → HasTurned (T.rules target.now) first self.old → HasTurned (T.rules target.now) first self.new) }
    {
        self.lane.tick(target, end, &mut self.out)?;
        send_all(&mut self.asks, &mut self.lane.asks)?;
        store_clock(&mut self.pacer, &self.lane.asks);
        Ok(())
    }
}

/// Sends all asks of a queue, in order.
fn send_all(asks: &mut AskSender, queue: &mut VecDeque<Ask>) -> Result<(), OutOfMemory>
    ensures sent { OnOk result (all_sent asks.new ≡ all_sent asks.old ++ queue.old.items) }
    ensures none { OnOk result (queue.new.items ≡ []) }
    ensures flushed { HasFlushed asks.old → HasFlushed asks.new }
    ensures same { SameSender asks.old asks.new }
{
    while let Some(ask) = queue.pop_front() {
        asks.send(ask)?;
    }
    Ok(())
}

/// Stores a core's clock, one higher. The queue of its asks is passed so that this can be called only once all were sent.
fn store_clock(pacer: &mut Pacer, _queue: &VecDeque<Ask>)
    requires sent { _queue.now.items ≡ [] }
    requires ahead { pacer.old.clock < pacer.old.seen + pacer.old.slack }
    requires top { pacer.old.clock < TOP }
    ensures clock { pacer.new.clock ≡ pacer.old.clock + 1 }
    ensures seen { pacer.new.seen ≡ pacer.old.seen }
    ensures same { SamePacer pacer.old pacer.new }
{
    pacer.advance();
}

/// Receives what a ring shows, at most as many posts as it has slots, and puts them behind those that wait.
fn receive_shown(posts: &mut PostReceiver, queue: &mut VecDeque<Post>) -> Result<(), OutOfMemory>
    ensures handed { OnOk result (HandsOver posts.old posts.new queue.old.items queue.new.items) }
    ensures received { OnOk result (HasReceived posts.old posts.new) }
    ensures same { SameReceiver posts.old posts.new }
{
    for _ in 0..posts.slots() {
        let Some(post) = posts.receive() else {
            return Ok(());
        };
        queue.push_back(post)?;
    }
    Ok(())
}
