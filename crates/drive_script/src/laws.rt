//! What is so of given interleavings of every target.
ghost use Rattle.drive_script.specs.Scripts.{AllDrift, AllOneScript};

use target_law::Target;

/// The law of given interleavings. What the steps and then finishing leave is a drift from the state to its end; and it is
/// one drift and one end, since finishing takes one way.
pub fn law_of_scripts<T: Target>(_target: &T)
    ensures drifts { AllDrift (T.rules _target.now) (T.owns _target.now) }
    ensures one { AllOneScript (T.rules _target.now) }
{}
