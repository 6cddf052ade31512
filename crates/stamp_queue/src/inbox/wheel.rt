//! The posts of an inbox whose dues are near each other, in a wheel of slots.
ghost use Rattle.std.specs.Prelude.{◌≡◌, ◌≢◌, ◌+◌, ◌-◌, ◌<◌, ◌≤◌, ◌⊎◌, max, [], length, ◌∷◌, MatchBool, MatchOption, IfOk, IfNone, IfSome, OnErr};
ghost use Rattle.std.specs.List.{AllByRecursion};
ghost use Rattle.slack_base.specs.Inboxes.{with_post};
ghost use Rattle.stamp_queue.specs.Inbox.{next_due};
ghost use Rattle.stamp_queue.specs.Wheel.{wheel_posts, AreHeld, AreMarked};

use super::occupied::Occupied;
use super::slots::{Slots, slot_of};
use slack_base::{OutOfMemory, Post};
use std::alloc::Global;
use std::marker::Model;

/// How far behind the floor the last due of a wheel is.
const REACH: u64 = 255;

/// The posts whose dues are within the floor and 255 cycles behind it, so that those of a slot have one due. The floor
/// only grows, and passes no post that stands in the wheel. A contract sees the list of the posts in order.
#[derive(Debug, Drop)]
pub(super) struct Wheel {
    slots: Slots,
    occupied: Occupied,
    floor: u64,
    first: u64,
}

impl Model for Wheel {
    ghost use Rattle.std.specs.Prelude.{List};
    ghost use Rattle.slack_base.specs.declared.messages.Post.{Post};

    ghost Value = { List Post };

    ghost use Rattle.stamp_queue.specs.Wheel.{wheel_posts, IsWheel};

    ghost view = { λ w. wheel_posts w.slots };

    ghost invariant = { λ w. IsWheel w.slots w.occupied w.floor w.first };
}

impl Wheel {
    /// The wheel with no post. It takes no memory.
    pub fn new(alloc: Global) -> Wheel
        ensures { result ≡ [] }
    {
        Wheel {
            slots: Slots::new(alloc),
            occupied: Occupied::none(),
            floor: 0,
            first: u64::MAX,
        }
    }

    /// An equal wheel.
    pub fn copy(&self) -> Result<Wheel, OutOfMemory>
        ensures { IfOk result (λ copy. copy ≡ self.now) }
    {
        Ok(Wheel {
            slots: self.slots.copy()?,
            occupied: self.occupied,
            floor: self.floor,
            first: self.first,
        })
    }

    /// The due of the first post: the greatest `u64` where there is none.
    pub fn first(&self) -> u64
        ensures { result ≡ next_due self.now }
    {
        self.first
    }

    /// Puts a post into its place, if its due is one of the wheel's: whether it is.
    #[inline]
    pub fn put(&mut self, post: &Post) -> Result<bool, OutOfMemory>
        ensures ok { IfOk result (λ is_put. MatchBool is_put (self.new ≡ with_post self.old post.now) (self.new ≡ self.old)) }
        ensures outside { IfOk result (λ is_put. MatchBool is_put Unit (AllByRecursion (λ p. p.due ≢ post.now.due) self.old)) }
        ensures err { OnErr result (self.new ≡ self.old) }
    {
        let Some(floor) = floor_for(self.floor, self.first, post.due) else {
            return Ok(false);
        };
        self.slots.put(post)?;
        self.occupied.insert(slot_of(post.due));
        self.floor = floor;
        self.first = self.first.min(post.due);
        Ok(true)
    }

    /// Takes out the first post, if it is due at the cycle, where there are so many at most. It takes no memory.
    #[inline]
    pub fn take_due(&mut self, cycle: u64, most: usize) -> Option<Post>
        requires { length self.old ≤ most }
        ensures none { IfNone result (AllByRecursion (λ p. cycle < p.due) self.old × (self.new ≡ self.old)) }
        ensures first { IfSome result (λ p. (p.due ≤ cycle) × (self.old ≡ p ∷ self.new)) }
    {
        if cycle < self.first {
            return None;
        }
        let slot = slot_of(self.first);
        let post = self.slots.take(slot)?;
        if self.slots.is_empty(slot) {
            self.occupied.remove(slot);
            self.first = first_from(&self.slots, &self.occupied, self.first, most);
        }
        Some(post)
    }
}

/// The least floor, from the old one on, with which a wheel holds the due too, where its first post has this due: none
/// where there is none.
fn floor_for(floor: u64, first: u64, due: u64) -> Option<u64>
    ensures least { IfSome result (λ raised. raised ≡ max floor (due - 255)) }
    ensures grows { IfSome result (λ raised. (floor ≤ raised) × (raised ≤ max floor first)) }
    ensures holds { IfSome result (λ raised. (raised ≤ due) × (due ≤ raised + 255)) }
    ensures none { IfNone result ((due < floor) ⊎ (max floor first + 255 < due)) }
{
    if due < floor {
        return None;
    }
    if due - floor <= REACH {
        return Some(floor);
    }
    let raised = due - REACH;
    if raised <= first { Some(raised) } else { None }
}

/// The due of the first post of slots with no post before a due, and fewer than so many: the greatest `u64` where there
/// is none.
#[inline]
fn first_from(slots: &Slots, occupied: &Occupied, due: u64, most: usize) -> u64
    requires { AreHeld slots.now due × AreMarked occupied.now slots.now × (length (wheel_posts slots.now) < most) }
    ensures { result ≡ next_due (wheel_posts slots.now) }
{
    if most == 1 {
        return u64::MAX;
    }
    match occupied.next_round(slot_of(due)) {
        Some(slot) => slots.due_of(slot),
        None => u64::MAX,
    }
}
