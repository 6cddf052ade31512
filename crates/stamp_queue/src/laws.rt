//! What is true of the two ends of any ring.
ghost use Rattle.stamp_queue.specs.Laws.{StayEnds, StaySame};

/// The law of rings. Each call keeps the end that it is made on, and calls in a row do. So what were ends of one ring
/// are so after all calls on either, whichever threads they were made in.
pub fn law_of_rings<X>()
    ensures ends { StayEnds X }
    ensures same { StaySame X }
{}
