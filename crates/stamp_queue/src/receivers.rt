//! The end of a ring that receives.
use rtrb::Consumer;

/// The end of a ring that receives. It may go to another thread.
#[derive(Drop)]
pub struct Receiver<X: Drop> {
    pub(crate) consumer: Consumer<X>,
}

impl<X: Drop> Receiver<X> {
    ghost use Rattle.std.specs.Prelude.{◌≡◌, ◌<◌, [], ◌∷◌, ◌++◌, IfSome, IfNone};
    ghost use mathlib.Core.List.{IsPrefix};
    ghost use Rattle.stamp_queue.specs.Rings.{all_received, known, slot_count, SameReceiver};

    /// How many slots the ring has.
    pub fn slots(&self) -> usize
        ensures { result ≡ slot_count self.now }
    {
        self.consumer.capacity()
    }

    /// The next item in order: none only where the receiver knows of no item. It takes no memory.
    pub fn receive(&mut self) -> Option<X>
        ensures item { IfSome result (λ x. all_received self.new ≡ all_received self.old ++ x ∷ []) }
        ensures next { IfSome result (λ x. IsPrefix (known self.old) (x ∷ known self.new)) }
        ensures none { IfNone result ((known self.old ≡ []) × (known self.new ≡ []) × (all_received self.new ≡ all_received self.old)) }
        ensures same { SameReceiver self.old self.new }
    {
        self.consumer.pop().ok()
    }
}
