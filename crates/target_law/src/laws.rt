//! What is so of every target.
ghost use Rattle.target_law.specs.AloneLaw.{AllLiteral, AllOneOutcome, AllOneEnd};
ghost use Rattle.target_law.specs.Lockstep.{AllCycles, AllCyclesRise, AllAsksRise};
ghost use Rattle.target_law.specs.Runs.{AllExactEnds, AllEndExactly};
ghost use Rattle.target_law.specs.Stops.{AllStopOnce};

use crate::targets::Target;

/// The law of cycles. A state with a target's cores and channels, each in its place, still is one after a cycle, and no
/// post that waits then is late.
pub fn law_of_cycles<T: Target>(_target: &T)
    ensures { AllCycles (T.rules _target.now) (T.owns _target.now) }
{}

/// The law of asks. The asks of a cycle come in the order of their ids, and so do those of any number of cycles; no id
/// comes twice.
pub fn law_of_asks<T: Target>(_target: &T)
    ensures one { AllCyclesRise (T.rules _target.now) (T.owns _target.now) }
    ensures many { AllAsksRise (T.rules _target.now) (T.owns _target.now) }
{}

/// A run stops at one clock.
pub fn law_of_stops<T: Target>(_target: &T)
    ensures { AllStopOnce (T.rules _target.now) }
{}

/// A run by steps that are lockstep's ends in the state of lockstep at the clock where the run stops, and notes nothing;
/// and each such state is the end of one.
pub fn law_of_exact_runs<T: Target>(_target: &T)
    ensures ends { AllExactEnds (T.rules _target.now) }
    ensures end_exactly { AllEndExactly (T.rules _target.now) }
{}

/// The law of a core alone. What it comes to is read clock by clock: at each clock it takes the posts of that clock in
/// their order, and then it ticks. So it comes to one value by the same posts, and sends the same asks.
pub fn law_of_a_core_alone<T: Target>(_target: &T)
    ensures clocks { AllLiteral (T.rules _target.now) }
    ensures one { AllOneOutcome (T.rules _target.now) }
{}

/// The history of a drift leads a state to one state.
pub fn law_of_ends<T: Target>(_target: &T)
    ensures { AllOneEnd (T.rules _target.now) }
{}
