//! One interval of a speculative run.
ghost use Rattle.std.specs.Prelude.{◌+◌, ◌≤◌, ◌∷◌, [], IfOk};
ghost use Rattle.slack_base.specs.declared.bounds.TheConstants.{TOP};
ghost use Rattle.target_law.specs.Proper.{IsProper, IsPunctual};
ghost use Rattle.target_law.specs.Views.{state_of};
ghost use Rattle.spec_run.specs.Speculative.{IsSpeculated};

use checkpoint::Checkpoint;
use drift_run::{Pace, drift};
use io_edge::Gate;
use leap_run::run_to;
use slack_base::{Interval, OutOfMemory};
use std::alloc::Global;
use std::thread::Threads;
use target_law::{Drifted, State, Target};

/// What an interval ended as: the state, and its note.
#[derive(Drop)]
pub struct Stretch<T: Target> {
    pub end: State<T>,
    pub note: Interval,
}

/// An interval of so many cycles: a drift by threads, which is kept where its monitors saw nothing. Else the state is taken
/// back to where the interval began, and simulated cycle by cycle.
///
/// Out of memory: the state is lost.
pub fn one_interval<R: Threads + Sync, T: Target + Sync, G: Gate + Sync>(
    rt: &R,
    alloc: Global,
    target: &T,
    state: State<T>,
    cycles: u64,
    pace: &Pace,
    gate: &G,
) -> Result<Stretch<T>, OutOfMemory>
    requires proper { IsProper (T.rules target.now) (T.owns target.now) (state_of T.values state) }
    requires punctual { IsPunctual (state_of T.values state) }
    requires top { state.clock + cycles ≤ TOP }
    requires slack { (1 ≤ pace.now.slack) × (pace.now.slack ≤ TOP) }
    requires slots { 1 ≤ pace.now.slots }
    ensures step { IfOk result (λ r. IsSpeculated (T.rules target.now) (record { may = G.may_hold gate.now; must = G.must_hold gate.now }) pace.now.slack [] cycles (state_of T.values state) (r.note ∷ []) (state_of T.values r.end)) }
    ensures proper { IfOk result (λ r. IsProper (T.rules target.now) (T.owns target.now) (state_of T.values r.end)) }
    ensures punctual { IfOk result (λ r. IsPunctual (state_of T.values r.end)) }
{
    let mut start = state;
    let until = start.clock + cycles;
    let checkpoint = Checkpoint::take(target, &mut start)?;
    let drifted = drift(rt, alloc, target, start, cycles, pace, gate)?;
    let Drifted {
        mut end,
        drift,
        seen,
    } = drifted;
    if seen.is_empty() {
        checkpoint.commit(target, &mut end);
        let note = Interval::Kept { cycles };
        return Ok(Stretch { end, note });
    }
    checkpoint.restore(target, &mut end);
    run_to(alloc, target, &mut end, until)?;
    let note = Interval::Rolled {
        cycles,
        drift,
        seen,
    };
    Ok(Stretch { end, note })
}
