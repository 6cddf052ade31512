//! A run in quantum mode.
ghost use Rattle.std.specs.Prelude.{◌≤◌, IfOk};
ghost use Rattle.slack_base.specs.declared.bounds.TheConstants.{TOP};
ghost use Rattle.target_law.specs.Proper.{IsProper};
ghost use Rattle.target_law.specs.Views.{state_of};
ghost use Rattle.pacing.specs.Exact.{IsExactIfQuiet, IsQuietIfShort};
ghost use Rattle.pacing.specs.QuantumRuns.{IsQuantumRun};

use crate::drifts::quantum_drift;
use slack_base::{Interval, NoteList, OutOfMemory};
use std::alloc::Global;
use std::thread::Threads;
use target_law::{Bounded, Drifted, State, Target, stopped};

/// Runs in intervals of so many cycles, the last one cut to the limit, until at the end of an interval all cores have ended
/// or the limit is reached. Each interval is a drift in pieces of `quantum` cycles, and is noted. The result is the same
/// for every number of threads.
pub fn quantum_run<R: Threads + Sync, T: Target + Sync>(
    rt: &R,
    alloc: Global,
    target: &T,
    state: State<T>,
    interval: u64,
    limit: u64,
    quantum: u64,
) -> Result<Bounded<T>, OutOfMemory>
    requires proper { IsProper (T.rules target.now) (T.owns target.now) (state_of T.values state) }
    requires begins { state.clock ≤ limit }
    requires top { limit ≤ TOP }
    requires interval { 1 ≤ interval }
    requires quantum { 1 ≤ quantum }
    // Each interval is the drift of its pieces.
    ensures runs { IfOk result (λ r. IsQuantumRun (T.rules target.now) quantum interval limit (state_of T.values state) r.notes (state_of T.values r.end)) }
    ensures proper { IfOk result (λ r. IsProper (T.rules target.now) (T.owns target.now) (state_of T.values r.end)) }
    // Where nothing is recorded, the run is as if it were cycle by cycle, and each interval served lockstep's asks.
    ensures exact { IfOk result (λ r. IsExactIfQuiet (T.rules target.now) interval limit (state_of T.values state) r.notes (state_of T.values r.end)) }
    // Where pieces are no longer than the lookahead, nothing is recorded.
    ensures short { IfOk result (λ r. IsQuietIfShort (T.rules target.now) interval limit quantum (state_of T.values state) r.notes (state_of T.values r.end)) }
{
    let mut now = state;
    let mut notes = NoteList::new(alloc);
    while now.clock < limit {
        let cycles = interval.min(limit - now.clock);
        let Drifted { end, drift, seen } = quantum_drift(rt, alloc, target, now, cycles, quantum)?;
        notes.push(Interval::Bounded {
            cycles,
            drift,
            seen,
        })?;
        now = end;
        if stopped(target, &now) {
            return Ok(Bounded { end: now, notes });
        }
    }
    Ok(Bounded { end: now, notes })
}
