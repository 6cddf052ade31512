//! What is so of every manager that has done nothing yet.
ghost use Rattle.manager.specs.Openings.{AllReadyOpenings};

use target_law::Target;

/// The law of openings. A manager that was made of a machine's channels, of ends of rings at which nothing was received
/// or sent, one for each core, and of the overseer of their clocks, is the machine's, and has served nothing since.
pub fn law_of_openings<T: Target>(_target: &T)
    ensures { AllReadyOpenings (T.rules _target.now) (T.owns _target.now) T.values }
{}
