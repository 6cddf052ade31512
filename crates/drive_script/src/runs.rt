//! A run of one interval, in a given interleaving.
ghost use Rattle.std.specs.Prelude.{◌+◌, ◌≤◌, [], IfOk};
ghost use Rattle.slack_base.specs.declared.bounds.TheConstants.{TOP};
ghost use Rattle.target_law.specs.Proper.{IsProper};
ghost use Rattle.target_law.specs.Views.{state_of};
ghost use Rattle.violation_watch.specs.BoundedNotes.{IsBoundedBy};
ghost use Rattle.drive_script.specs.Scripts.{IsScriptOf};

use crate::drives::drive;
use slack_base::{Interval, NoteList, OutOfMemory, StepList};
use std::alloc::Global;
use target_law::{Bounded, Drifted, State, Target};

/// One interval of so many cycles from a state, which is the drift of these steps, and its note.
pub fn script_run<T: Target>(
    alloc: Global,
    target: &T,
    state: State<T>,
    cycles: u64,
    steps: &StepList,
) -> Result<Bounded<T>, OutOfMemory>
    requires proper { IsProper (T.rules target.now) (T.owns target.now) (state_of T.values state) }
    requires top { state.clock + cycles ≤ TOP }
    ensures interval { IfOk result (λ r. IsBoundedBy (T.rules target.now) (IsScriptOf (T.rules target.now) steps.now) [] cycles (state_of T.values state) r.notes (state_of T.values r.end)) }
    ensures proper { IfOk result (λ r. IsProper (T.rules target.now) (T.owns target.now) (state_of T.values r.end)) }
{
    let Drifted { end, drift, seen } = drive(alloc, target, state, cycles, steps)?;
    let mut notes = NoteList::new(alloc);
    notes.push(Interval::Bounded {
        cycles,
        drift,
        seen,
    })?;
    Ok(Bounded { end, notes })
}
