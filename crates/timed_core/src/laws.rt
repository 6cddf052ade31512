//! What is true of every core and every tick, whatever the code.
ghost use Rattle.timed_core.specs.LateLaws.{AllLate};
ghost use Rattle.timed_core.specs.Laws.{AllPuts, AllStarts, AllTicks};
ghost use Rattle.timed_core.specs.Touching.{WhatTouches};

/// The law of ticks. x0 stays 0; the core keeps its number and its cache the sets and ways of the configuration; its
/// cache and its posts name lines of memory alone; of its posts exactly those are left that are due later, in their
/// order; and its asks have the ids (t, core, 0), (t, core, 1) and so on, and name lines of memory alone.
pub fn law_of_ticks()
    ensures { AllTicks }
{}

/// A core stays sound, its posts in their order too, where a post that names a line of memory comes in.
pub fn law_of_puts()
    ensures { AllPuts }
{}

/// Each core of a configuration is sound before the first cycle: its cache has the configuration's sets and ways.
pub fn law_of_starts()
    ensures { AllStarts }
{}

/// The law of late Invalidates. An Invalidate whose set the core touches no more in a tick is as if it came after the
/// tick, and behind posts that don't touch its set as if it had come before the tick.
pub fn law_of_late_invalidates()
    ensures { AllLate }
{}

/// The law of touches. A reply and a snoop touch their line's set, and a retry and an invalidation none; an access touches
/// its line's set, whether the line is held or not, unless it traps, which touches none, as no other instruction does.
pub fn law_of_touches()
    ensures { WhatTouches }
{}
