//! What is so of the monitors of every target.
ghost use Rattle.violation_watch.specs.Complete.{AllComplete};
ghost use Rattle.violation_watch.specs.Watching.{AllWatchesScan};

use target_law::Target;

/// Completeness of the monitors. A drift from a proper state that ends within the range of clocks, and of
/// which they record nothing, ends as lockstep does after as many cycles, and serves the asks of lockstep, each once.
pub fn law_of_completeness<T: Target>(_target: &T)
    ensures { AllComplete (T.rules _target.now) (T.owns _target.now) }
{}

/// The law of watches. What a manager's watch found, which saw all asks of a drift served, and after it what the watches
/// of the cores found, each of which saw the posts that its core took, is the scan of the drift.
pub fn law_of_watches<T: Target>(_target: &T)
    ensures { AllWatchesScan (T.rules _target.now) }
{}
