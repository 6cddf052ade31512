//! A run of drifts by threads.
ghost use Rattle.std.specs.Prelude.{◌≤◌, IfOk};
ghost use Rattle.slack_base.specs.declared.bounds.TheConstants.{TOP};
ghost use Rattle.target_law.specs.Proper.{IsProper};
ghost use Rattle.target_law.specs.Views.{state_of};
ghost use Rattle.drift_run.specs.BoundedRuns.{IsBoundedRun};

use crate::drifts::{Pace, drift};
use io_edge::Gate;
use slack_base::{Interval, NoteList, OutOfMemory};
use std::alloc::Global;
use std::thread::Threads;
use target_law::{Bounded, Drifted, State, Target, stopped};

/// Runs in intervals of so many cycles, the last one cut to the limit, until at the end of an interval all cores have ended
/// or the limit is reached. Each interval is a drift by threads, and is noted. A run that begins at its limit ends there.
pub fn bounded_run<R: Threads + Sync, T: Target + Sync, G: Gate + Sync>(
    rt: &R,
    alloc: Global,
    target: &T,
    state: State<T>,
    interval: u64,
    limit: u64,
    pace: &Pace,
    gate: &G,
) -> Result<Bounded<T>, OutOfMemory>
    requires proper { IsProper (T.rules target.now) (T.owns target.now) (state_of T.values state) }
    requires begins { state.clock ≤ limit }
    requires top { limit ≤ TOP }
    requires interval { 1 ≤ interval }
    requires slack { (1 ≤ pace.now.slack) × (pace.now.slack ≤ TOP) }
    requires slots { 1 ≤ pace.now.slots }
    // Each interval is a drift that keeps the holds of the gate.
    ensures runs { IfOk result (λ r. IsBoundedRun (T.rules target.now) (record { may = G.may_hold gate.now; must = G.must_hold gate.now }) pace.now.slack interval limit (state_of T.values state) r.notes (state_of T.values r.end)) }
    ensures proper { IfOk result (λ r. IsProper (T.rules target.now) (T.owns target.now) (state_of T.values r.end)) }
{
    let mut now = state;
    let mut notes = NoteList::new(alloc);
    while now.clock < limit {
        let cycles = interval.min(limit - now.clock);
        let Drifted { end, drift, seen } = drift(rt, alloc, target, now, cycles, pace, gate)?;
        notes.push(Interval::Bounded {
            cycles,
            drift,
            seen,
        })?;
        now = end;
        if stopped(target, &now) {
            return Ok(Bounded { end: now, notes });
        }
    }
    Ok(Bounded { end: now, notes })
}
