//! What is so of leaps, of every target.
ghost use Rattle.leap_run.specs.Laws.{AllLeaps};

use target_law::Target;

/// The law of leaps. Where no post of some cycles is due before they are over, the state that is left when each core has
/// ticked through them by itself, and their asks were served in the order of their ids, is that of as many cycles one after
/// another.
pub fn law_of_leaps<T: Target>(_target: &T)
    ensures { AllLeaps (T.rules _target.now) (T.owns _target.now) }
{}
