//! The 256 slots of a wheel, each a chain of nodes.
ghost use Rattle.std.specs.Prelude.{◌≡◌, ◌%◌, ◌<◌, [], ◌∷◌, replicate, slice_set, MatchOption, IfOk, OnOk, OnErr, IsTrue, ◌↔◌};
ghost use Rattle.slack_base.specs.Inboxes.{with_post};
ghost use Rattle.stamp_queue.specs.Inbox.{next_due};
ghost use Rattle.stamp_queue.specs.Wheel.{posts_in, TakesFirst};

use super::nodes::{NOWHERE, Node, insert};
use slack_base::{OutOfMemory, Post};
use std::alloc::Global;
use std::marker::Model;

/// How many slots a wheel has.
const SLOTS: usize = 256;

/// The posts of a wheel, by slot: the due modulo 256. Nodes that are freed are used again. A contract sees a list for
/// each slot.
#[derive(Debug, Drop)]
pub(super) struct Slots {
    nodes: Vec<Node>,
    free: u32,
    firsts: [Option<u32>; SLOTS],
}

impl Model for Slots {
    ghost use Rattle.std.specs.Prelude.{List, map};
    ghost use Rattle.slack_base.specs.declared.messages.Post.{Post};

    ghost Value = { List (List Post) };

    ghost use Rattle.stamp_queue.specs.Slots.{slot_posts, AreSlots};

    ghost view = { λ s. map (slot_posts s.nodes.items) s.firsts };

    ghost invariant = { λ s. AreSlots s.nodes.items s.firsts };
}

impl Slots {
    /// Slots with no post. They take no memory.
    pub fn new(alloc: Global) -> Slots
        ensures { result ≡ replicate 256 [] }
    {
        let firsts = [None; SLOTS];
        Slots {
            nodes: Vec::new(alloc),
            free: NOWHERE,
            firsts,
        }
    }

    /// Equal slots.
    pub fn copy(&self) -> Result<Slots, OutOfMemory>
        ensures { IfOk result (λ copy. copy ≡ self.now) }
    {
        Ok(Slots {
            nodes: self.nodes.clone()?,
            free: self.free,
            firsts: self.firsts,
        })
    }

    /// Puts a post into its slot, behind those that are no later.
    #[inline]
    pub fn put(&mut self, post: &Post) -> Result<(), OutOfMemory>
        ensures ok { OnOk result (self.new ≡ slice_set self.old (post.now.due % 256) (with_post (posts_in self.old (post.now.due % 256)) post.now)) }
        ensures err { OnErr result (self.new ≡ self.old) }
    {
        let slot = slot_of(post.due);
        let place = insert(&mut self.nodes, &mut self.free, self.firsts[slot], post)?;
        self.firsts[slot] = Some(place);
        Ok(())
    }

    /// Takes out the first post of a slot. It takes no memory.
    pub fn take(&mut self, slot: usize) -> Option<Post>
        requires { slot < 256 }
        ensures { MatchOption result ((posts_in self.old slot ≡ []) × (self.new ≡ self.old)) (TakesFirst self.old self.new slot) }
    {
        let place = self.firsts[slot]?;
        let node = &mut self.nodes[place as usize];
        let post = node.post;
        self.firsts[slot] = node.rest();
        node.release(self.free);
        self.free = place;
        Some(post)
    }

    /// The due of the first post of a slot: the greatest `u64` where there is none.
    pub fn due_of(&self, slot: usize) -> u64
        requires { slot < 256 }
        ensures { result ≡ next_due (posts_in self.now slot) }
    {
        match self.firsts[slot] {
            Some(place) => self.nodes[place as usize].post.due,
            None => u64::MAX,
        }
    }

    /// Whether a slot has no post.
    pub fn is_empty(&self, slot: usize) -> bool
        requires { slot < 256 }
        ensures { IsTrue result ↔ (posts_in self.now slot ≡ []) }
    {
        self.firsts[slot].is_none()
    }
}

/// The slot of a due.
pub(super) fn slot_of(due: u64) -> usize
    ensures { result ≡ due % 256 }
{
    (due % 256) as usize
}
