//! What is true of every calendar.
ghost use Rattle.slot_calendar.specs.Laws.{AllSwap, AllCommute, AllReopen, AllEnds, AllGrants, AllInTurn};

/// The law of neighbours. Where an ask doesn't clash behind one whose id is above its own and above all slots, the two
/// get the same slots in either order.
pub fn law_of_neighbours()
    ensures { AllSwap }
{}

/// The law of late asks. An ask that comes after others, which came in the order of their ids, and that doesn't clash
/// gets the slot that it would have got in its place, and no other slot changes.
pub fn law_of_late_asks()
    ensures { AllCommute }
{}

/// The law of closing. To an ask whose id is above all in the calendar it makes no difference whether the calendar was
/// closed just before it: it doesn't clash, it gets the same grant, and the bus is free from the same cycle on.
pub fn law_of_closing()
    ensures { AllReopen }
{}

/// The law of ends. Closing twice is closing once, and the bus is free no sooner than it was, and not before the end of
/// a slot.
pub fn law_of_ends()
    ensures { AllEnds }
{}

/// The law of grants. An ask gets the bus no sooner than its stamp, than the bus is free, and than each ask of a lower
/// id is done with it; and if it doesn't clash, it is done with the bus before each ask of a greater id gets it.
pub fn law_of_grants()
    ensures { AllGrants }
{}

/// The law of turns. Asks in the order of their ids don't clash, and a bus that only knows from when on it is free
/// grants them the same cycles.
pub fn law_of_turns()
    ensures { AllInTurn }
{}
