//! Rings between two threads: what is sent is received, in order, and nothing is passed by.
ghost use Rattle.std.specs.Prelude.{◌≡◌, ◌<◌, [], IfOk};
ghost use Rattle.stamp_queue.specs.Rings.{all_sent, all_received, waiting, free_slots, known, AreEnds};

use crate::receivers::Receiver;
use crate::senders::Sender;
use rtrb::RingBuffer;
use slack_base::{Ask, OutOfMemory, Post};
use std::alloc::Global;

/// The end of a ring that sends asks.
pub type AskSender = Sender<Ask>;
/// The end of a ring that receives asks.
pub type AskReceiver = Receiver<Ask>;
/// The end of a ring that sends posts.
pub type PostSender = Sender<Post>;
/// The end of a ring that receives posts.
pub type PostReceiver = Receiver<Post>;

/// The two ends of a new ring for asks, of so many slots.
pub fn ask_ring(alloc: Global, slots: u32) -> Result<(AskSender, AskReceiver), OutOfMemory>
    requires { 0 < slots }
    ensures ends { IfOk result (λ r. AreEnds r.0 r.1) }
    ensures sender { IfOk result (λ r. (all_sent r.0 ≡ []) × (free_slots r.0 ≡ slots)) }
    ensures receiver { IfOk result (λ r. (all_received r.1 ≡ []) × (known r.1 ≡ [])) }
{
    ring(alloc, slots)
}

/// The two ends of a new ring for posts, of so many slots.
pub fn post_ring(alloc: Global, slots: u32) -> Result<(PostSender, PostReceiver), OutOfMemory>
    requires { 0 < slots }
    ensures ends { IfOk result (λ r. AreEnds r.0 r.1) }
    ensures sender { IfOk result (λ r. (all_sent r.0 ≡ []) × (free_slots r.0 ≡ slots)) }
    ensures receiver { IfOk result (λ r. (all_received r.1 ≡ []) × (known r.1 ≡ [])) }
{
    ring(alloc, slots)
}

/// The two ends of a new ring.
fn ring<X: Drop>(alloc: Global, slots: u32) -> Result<(Sender<X>, Receiver<X>), OutOfMemory>
    requires { 0 < slots }
    ensures ends { IfOk result (λ r. AreEnds r.0 r.1) }
    ensures sender { IfOk result (λ r. (all_sent r.0 ≡ []) × (free_slots r.0 ≡ slots)) }
    ensures receiver { IfOk result (λ r. (all_received r.1 ≡ []) × (known r.1 ≡ [])) }
{
    let (producer, consumer) = RingBuffer::new(alloc, slots as usize)?;
    Ok((Sender::new(alloc, producer), Receiver { consumer }))
}
