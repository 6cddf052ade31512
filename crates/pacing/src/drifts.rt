//! One interval in pieces.
ghost use Rattle.std.specs.Prelude.{◌≡◌, ◌+◌, ◌≤◌, IfOk};
ghost use Rattle.slack_base.specs.declared.bounds.TheConstants.{TOP};
ghost use Rattle.target_law.specs.Proper.{IsProper};
ghost use Rattle.target_law.specs.Views.{state_of};
ghost use Rattle.violation_watch.specs.Scan.{scan_of};
ghost use Rattle.drive_script.specs.Scripts.{IsExactIfQuiet};
ghost use Rattle.pacing.specs.Laws.{IsProperDrift};
ghost use Rattle.pacing.specs.Pieces.{IsPieces};

use crate::ends::{begin, close};
use slack_base::OutOfMemory;
use std::alloc::Global;
use std::thread::Threads;
use target_law::{Drifted, State, Target};
use violation_watch::scan;

/// The drift over so many cycles from a state in pieces of `quantum` cycles, the last one cut to the drift's end. In each
/// piece every core ticks by itself; then the asks of the piece are served in the order of their ids, and their posts are
/// taken. The history, the end and what the monitors record are handed back. They are the same for every number of threads.
pub fn quantum_drift<R: Threads + Sync, T: Target + Sync>(
    rt: &R,
    alloc: Global,
    target: &T,
    state: State<T>,
    len: u64,
    quantum: u64,
) -> Result<Drifted<T>, OutOfMemory>
    requires proper { IsProper (T.rules target.now) (T.owns target.now) (state_of T.values state) }
    requires top { state.clock + len ≤ TOP }
    requires quantum { 1 ≤ quantum }
    // The history and the end are those of the pieces.
    ensures pieces { IfOk result (λ r. IsPieces (T.rules target.now) quantum len (state_of T.values state) r.drift (state_of T.values r.end)) }
    // The history is that of a drift from the state to the end.
    ensures drift { IfOk result (λ r. IsProperDrift (T.rules target.now) (T.owns target.now) (state_of T.values state) r.drift (state_of T.values r.end)) }
    ensures seen { IfOk result (λ r. r.seen ≡ scan_of (T.rules target.now) r.drift) }
    // Where nothing was seen, the end is lockstep's, and so are the asks, each once.
    ensures exact { IfOk result (λ r. IsExactIfQuiet (T.rules target.now) (state_of T.values state) r.drift r.seen (state_of T.values r.end)) }
{
    let start = state.clock;
    let mut underway = begin(alloc, target, state)?;
    underway.pieces(rt, target, start + len, quantum)?;
    let (end, drift) = close(alloc, target, underway, start, len)?;
    let seen = scan(alloc, target, &drift)?;
    Ok(Drifted { end, drift, seen })
}
