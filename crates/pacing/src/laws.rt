//! What is so of drifts in pieces, of every target.
ghost use Rattle.pacing.specs.Laws.{AllDrift, AllOneOutcome, AllQuiet};
ghost use Rattle.pacing.specs.QuantumRuns.{AllOneRun};

use target_law::Target;

/// The law of pieces. What pieces leave from a proper state is a drift, and a proper state; they leave one history and one
/// state; and where a piece is no longer than the lookahead, the monitors record nothing of it.
pub fn law_of_pieces<T: Target>(_target: &T)
    ensures drifts { AllDrift (T.rules _target.now) (T.owns _target.now) }
    ensures one { AllOneOutcome (T.rules _target.now) }
    ensures quiet { AllQuiet (T.rules _target.now) (T.owns _target.now) }
{}

/// The law of runs in pieces. A run has one list of notes and one end: it says nothing of threads, so these are the same
/// for every number of them.
pub fn law_of_quantum_runs<T: Target>(_target: &T)
    ensures { AllOneRun (T.rules _target.now) }
{}
