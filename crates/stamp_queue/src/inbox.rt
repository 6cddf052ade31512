//! The inbox of a core: the posts that wait for it, in the order in which it applies them.
ghost use Rattle.std.specs.Prelude.{◌≡◌, ◌+◌, ◌<◌, ◌≤◌, ◌↔◌, [], ◌∷◌, ◌++◌, length, false, IsTrue, IsNone, IfNone, IfOk, IfSome, MatchOption, OnOk, OnErr};
ghost use Rattle.std.specs.List.{AllByRecursion};
ghost use Rattle.slack_base.specs.Inboxes.{is_later, with_post};
ghost use Rattle.stamp_queue.specs.Inbox.{IsInOrder, IsPutBetween, next_due};
ghost use Rattle.stamp_queue.specs.Merged.{with_posts};
ghost use Rattle.stamp_queue.specs.Whole.{IsSplit, IsWhole, IsPut, IsTaken, AreSame, IsNoneTaken};

mod nodes;
mod occupied;
mod off_wheel;
mod order;
mod same_due;
mod slots;
mod wheel;

use off_wheel::OffWheel;
use slack_base::{OutOfMemory, Post};
use std::alloc::Global;
use std::marker::Model;
use wheel::Wheel;

/// The posts that wait for a core, in order of (due, id). A contract sees the list of them.
///
/// Most stand in a wheel of 256 slots by their dues modulo 256, those whose dues are from a floor to 255 cycles behind
/// it; all others, late ones too, in a map. A post stays where it was put, and all posts of one due stand in one of the
/// two. The due of the first post is kept, so that one comparison tells that none is due.
#[derive(Debug, Drop)]
pub struct Inbox {
    wheel: Wheel,
    off_wheel: OffWheel,
    first: u64,
    count: usize,
}

impl Model for Inbox {
    ghost use Rattle.std.specs.Prelude.{List};
    ghost use Rattle.slack_base.specs.declared.messages.Post.{Post};

    ghost Value = { List Post };

    ghost use Rattle.stamp_queue.specs.Merged.{with_posts};
    ghost use Rattle.stamp_queue.specs.Whole.{IsWhole};

    ghost view = { λ i. with_posts i.off_wheel i.wheel };

    ghost invariant = { λ i. IsWhole i.wheel i.off_wheel i.first i.count };
}

impl Inbox {
    /// The inbox with no post. It takes no memory.
    pub fn new(alloc: Global) -> Inbox
        ensures { result ≡ [] }
    {
        Inbox {
            wheel: Wheel::new(alloc),
            off_wheel: OffWheel::new(alloc),
            first: u64::MAX,
            count: 0,
        }
    }

    /// An equal inbox.
    pub fn copy(&self) -> Result<Inbox, OutOfMemory>
        ensures same { IfOk result (λ copy. copy ≡ self.now) }
        ensures in_order { IsInOrder self.now }
    {
        Ok(Inbox {
            wheel: self.wheel.copy()?,
            off_wheel: self.off_wheel.copy()?,
            first: self.first,
            count: self.count,
        })
    }

    /// How many posts wait.
    pub fn len(&self) -> usize
        ensures count { result ≡ length self.now }
        ensures in_order { IsInOrder self.now }
    {
        self.count
    }

    /// Whether no post waits.
    pub fn is_empty(&self) -> bool
        ensures { IsTrue result ↔ (self.now ≡ []) }
    {
        self.count == 0
    }

    /// The cycle at which the first post is due, before which none is: the greatest `u64` where no post waits.
    pub fn next_due(&self) -> u64
        ensures value { result ≡ next_due self.now }
        ensures before { AllByRecursion (λ p. result ≤ p.due) self.now }
        ensures in_order { IsInOrder self.now }
    {
        self.first
    }

    /// Puts a post in its place, behind those of the same due and id that are there.
    pub fn put(&mut self, post: Post) -> Result<(), OutOfMemory>
        ensures ok { OnOk result (self.new ≡ with_post self.old post) }
        ensures place { OnOk result (IsPutBetween self.old post self.new) }
        ensures err { OnErr result (self.new ≡ self.old) }
        ensures in_order { IsInOrder self.new }
    {
        if self.count == usize::MAX {
            return Err(OutOfMemory);
        }
        put_post(&mut self.wheel, &mut self.off_wheel, &post)?;
        self.first = self.first.min(post.due);
        self.count += 1;
        Ok(())
    }

    /// Takes out the first post, the least by (due, id), if it is due at the cycle. It takes no memory.
    pub fn take_due(&mut self, cycle: u64) -> Option<Post>
        ensures none { IsNone result ↔ AllByRecursion (λ p. cycle < p.due) self.old }
        ensures unchanged { IfNone result (self.new ≡ self.old) }
        ensures first { IfSome result (λ p. (p.due ≤ cycle) × (self.old ≡ p ∷ self.new)) }
        ensures least { IfSome result (λ p. AllByRecursion (λ q. is_later p q ≡ false) self.new) }
        ensures in_order { IsInOrder self.new }
    {
        if cycle < self.first {
            return None;
        }
        let post = take_first(&mut self.wheel, &mut self.off_wheel, self.first, self.count)?;
        self.first = self.wheel.first().min(self.off_wheel.first());
        self.count -= 1;
        Some(post)
    }
}

/// Puts a post into the wheel: or off it, where its due isn't one of the wheel's, or stands there already.
#[inline]
fn put_post(wheel: &mut Wheel, off_wheel: &mut OffWheel, post: &Post) -> Result<(), OutOfMemory>
    requires { IsSplit wheel.old off_wheel.old }
    ensures ok { OnOk result (IsPut wheel.old off_wheel.old wheel.new off_wheel.new post.now) }
    ensures err { OnErr result (AreSame wheel.old off_wheel.old wheel.new off_wheel.new) }
{
    if off_wheel.has(post.due) {
        return off_wheel.put(*post);
    }
    if wheel.put(post)? {
        return Ok(());
    }
    off_wheel.put(*post)
}

/// Takes out the first post, of the wheel or of those off it, where its due and the count of both are known.
#[inline]
fn take_first(wheel: &mut Wheel, off_wheel: &mut OffWheel, first: u64, count: usize) -> Option<Post>
    requires { IsWhole wheel.old off_wheel.old first count }
    ensures { MatchOption result (IsNoneTaken wheel.old off_wheel.old wheel.new off_wheel.new) (IsTaken wheel.old off_wheel.old wheel.new off_wheel.new) }
{
    if let Some(post) = wheel.take_due(first, count) {
        return Some(post);
    }
    off_wheel.take_first()
}
