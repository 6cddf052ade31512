//! The end of a ring that sends.
ghost use Rattle.std.specs.Prelude.{◌<◌};
ghost use Rattle.rtrb.specs.Ring.{producer_capacity};

use rtrb::Producer;
use slack_base::OutOfMemory;
use std::alloc::Global;
use std::collections::VecDeque;

/// The end of a ring that sends. What the ring has no room for waits in an overflow list. It may go to another thread.
#[derive(Drop)]
pub struct Sender<X: Drop> {
    pub(crate) producer: Producer<X>,
    pub(crate) overflow: VecDeque<X>,
    ghost has_slots: { 0 < producer_capacity producer },
}

impl<X: Drop> Sender<X> {
    ghost use Rattle.std.specs.Prelude.{◌≡◌, ◌+◌, ◌<◌, ◌≤◌, ◌⊎◌, [], ◌∷◌, ◌++◌, length, OnOk, OnErr, IsOk};
    ghost use Rattle.rtrb.specs.Ring.{producer_capacity};
    ghost use Rattle.stamp_queue.specs.Rings.{all_sent, waiting, free_slots, SameSender};

    /// The end that pushes by this producer. Nothing waits.
    pub(crate) fn new(alloc: Global, producer: Producer<X>) -> Sender<X>
        requires { 0 < producer_capacity producer }
        ensures { (result.producer ≡ producer) × (waiting result ≡ []) }
    {
        Sender {
            producer,
            overflow: VecDeque::new(alloc),
        }
    }

    /// Sends an item, behind all that was sent before. It waits in the overflow list only where no free slot is known:
    /// then alone memory may be wanted, and the item isn't sent where there is none.
    pub fn send(&mut self, item: X) -> Result<(), OutOfMemory>
        ensures sent { OnOk result (all_sent self.new ≡ all_sent self.old ++ item ∷ []) }
        ensures not_sent { OnErr result ((all_sent self.new ≡ all_sent self.old) × (free_slots self.new ≡ 0)) }
        ensures waits { (waiting self.new ≡ []) ⊎ (free_slots self.new ≡ 0) }
        ensures succeeds { length (waiting self.old) < free_slots self.old → IsOk result }
        ensures same { SameSender self.old self.new }
    {
        self.flush();
        if self.overflow.is_empty() && !self.producer.is_full() {
            self.producer.push_reserved(item);
        } else {
            self.overflow.push_back(item)?;
        }
        Ok(())
    }

    /// Pushes what waits into the ring, in order, as far as the ring shows room. It takes no memory.
    pub fn flush(&mut self)
        ensures sent { all_sent self.new ≡ all_sent self.old }
        ensures waits { (waiting self.new ≡ []) ⊎ (free_slots self.new ≡ 0) }
        // Each slot that was known to be free still is, or holds an item that waited.
        ensures used { free_slots self.old + length (waiting self.new) ≤ free_slots self.new + length (waiting self.old) }
        ensures same { SameSender self.old self.new }
    {
        while !self.producer.is_full() {
            let Some(item) = self.overflow.pop_front() else {
                return;
            };
            self.producer.push_reserved(item);
        }
    }
}
