//! What is so of every actor that has just begun.
ghost use Rattle.core_actor.specs.Beginnings.{AllBegin};

use target_law::Target;

/// The law of beginnings. An actor of one of the machine's cores, whose rings nothing went through, is ready for legs, and
/// it comes of its core.
pub fn law_of_beginnings<T: Target>(_target: &T)
    ensures { AllBegin (T.rules _target.now) (T.owns _target.now) T.values }
{}
