//! Drifts by threads, and on one thread.
ghost use Rattle.std.specs.Prelude.{◌≡◌, ◌+◌, ◌≤◌, IfOk};
ghost use Rattle.std.specs.List.{AllZip};
ghost use Rattle.slack_base.specs.declared.bounds.TheConstants.{TOP};
ghost use Rattle.core_actor.specs.Actors.{Ran};
ghost use Rattle.drive_script.specs.Scripts.{IsExactIfQuiet};
ghost use Rattle.manager.specs.Leads.{Led};
ghost use Rattle.target_law.specs.Drifts.{IsDrift};
ghost use Rattle.target_law.specs.Marks.{SameMarks};
ghost use Rattle.target_law.specs.Proper.{IsProper};
ghost use Rattle.target_law.specs.Views.{state_of};
ghost use Rattle.violation_watch.specs.Scan.{scan_of};
ghost use Rattle.drift_run.specs.Finishes.{HaveLeftInSight};
ghost use Rattle.drift_run.specs.Holds.{KeepsHolds};
ghost use Rattle.drift_run.specs.Rigs.{AreReady};

use crate::finishes::finish;
use crate::legs::{all_legs, legs_in_turn};
use crate::rigs::{Rig, rig_in_sight};
use io_edge::Gate;
use slack_base::OutOfMemory;
use std::alloc::Global;
use std::thread::Threads;
use target_law::{Drifted, InSight, State, Target};

/// How a drift is paced.
#[derive(Clone, Copy, Debug, PartialEq, Eq)]
pub struct Pace {
    /// By how many cycles a core may be ahead of global time.
    pub slack: u64,
    /// A leg ends once more turns in a row than this were idle.
    pub patience: u32,
    /// How many slots each ring has.
    pub slots: u32,
}

/// The legs of a manager and of actors, all at once.
fn run_at_once<
    R: Threads + Sync,
    C: Send + Drop,
    D: Send + Drop,
    T: Target<Core = C, Chan = D> + Sync,
    G: Gate + Sync,
>(
    rt: &R,
    target: &T,
    gate: &G,
    rig: Rig<C, D>,
    end: u64,
    patience: u32,
) -> Result<Rig<C, D>, OutOfMemory>
    requires { AreReady (T.rules target.now) (T.owns target.now) T.values end rig.manager rig.actors.items }
    ensures manager { IfOk result (λ r. Led (T.rules target.now) (T.owns target.now) T.values rig.manager r.manager) }
    ensures actors { IfOk result (λ r. AllZip (Ran (T.rules target.now) (T.owns target.now) T.values (record { may = G.may_hold gate.now; must = G.must_hold gate.now }) end) rig.actors.items r.actors.items) }
{
    let Rig {
        mut manager,
        mut actors,
    } = rig;
    let slice = actors.as_mut_slice();
    all_legs(rt, target, gate, end, patience, &mut manager, slice)?;
    Ok(Rig { manager, actors })
}

/// The legs of actors and of a manager, one after another.
fn run_in_turn<C: Send + Drop, D: Send + Drop, T: Target<Core = C, Chan = D>, G: Gate>(
    target: &T,
    gate: &G,
    rig: Rig<C, D>,
    end: u64,
    patience: u32,
) -> Result<Rig<C, D>, OutOfMemory>
    requires { AreReady (T.rules target.now) (T.owns target.now) T.values end rig.manager rig.actors.items }
    ensures manager { IfOk result (λ r. Led (T.rules target.now) (T.owns target.now) T.values rig.manager r.manager) }
    ensures actors { IfOk result (λ r. AllZip (Ran (T.rules target.now) (T.owns target.now) T.values (record { may = G.may_hold gate.now; must = G.must_hold gate.now }) end) rig.actors.items r.actors.items) }
{
    let Rig {
        mut manager,
        mut actors,
    } = rig;
    let slice = actors.as_mut_slice();
    legs_in_turn(target, gate, end, patience, &mut manager, slice)?;
    Ok(Rig { manager, actors })
}

/// What the legs of a state's cores and of its manager leave, all run at once.
fn left_at_once<R: Threads + Sync, T: Target + Sync, G: Gate + Sync>(
    rt: &R,
    alloc: Global,
    target: &T,
    state: State<T>,
    len: u64,
    pace: &Pace,
    gate: &G,
) -> Result<Rig<T::Core, T::Chan>, OutOfMemory>
    requires proper { IsProper (T.rules target.now) (T.owns target.now) (state_of T.values state) }
    requires top { state.clock + len ≤ TOP }
    requires slack { (1 ≤ pace.now.slack) × (pace.now.slack ≤ TOP) }
    requires slots { 1 ≤ pace.now.slots }
    ensures { IfOk result (λ r. HaveLeftInSight (T.rules target.now) (T.owns target.now) T.values state pace.now.slack (record { may = G.may_hold gate.now; must = G.must_hold gate.now }) (state.clock + len) r.manager r.actors.items) }
{
    let end = state.clock + len;
    let rig = rig_in_sight(alloc, target, state, pace.slack, pace.slots)?;
    let sight = InSight::of(target);
    let left = run_at_once(rt, &sight, gate, rig, end, pace.patience)?;
    Ok(left)
}

/// What the legs of a state's cores and of its manager leave, run one after another.
fn left_in_turn<T: Target, G: Gate>(
    alloc: Global,
    target: &T,
    state: State<T>,
    len: u64,
    pace: &Pace,
    gate: &G,
) -> Result<Rig<T::Core, T::Chan>, OutOfMemory>
    requires proper { IsProper (T.rules target.now) (T.owns target.now) (state_of T.values state) }
    requires top { state.clock + len ≤ TOP }
    requires slack { (1 ≤ pace.now.slack) × (pace.now.slack ≤ TOP) }
    requires slots { 1 ≤ pace.now.slots }
    ensures { IfOk result (λ r. HaveLeftInSight (T.rules target.now) (T.owns target.now) T.values state pace.now.slack (record { may = G.may_hold gate.now; must = G.must_hold gate.now }) (state.clock + len) r.manager r.actors.items) }
{
    let end = state.clock + len;
    let rig = rig_in_sight(alloc, target, state, pace.slack, pace.slots)?;
    let sight = InSight::of(target);
    let left = run_in_turn(&sight, gate, rig, end, pace.patience)?;
    Ok(left)
}

/// A drift over so many cycles from a state: the legs of all cores and of the manager, each in a thread of its own, and
/// then finishing. The history, the end and what the monitors record are handed back. Which drift of those that can be
/// comes out depends on the threads.
///
/// Out of memory: the state is lost.
pub fn drift<R: Threads + Sync, T: Target + Sync, G: Gate + Sync>(
    rt: &R,
    alloc: Global,
    target: &T,
    state: State<T>,
    len: u64,
    pace: &Pace,
    gate: &G,
) -> Result<Drifted<T>, OutOfMemory>
    requires proper { IsProper (T.rules target.now) (T.owns target.now) (state_of T.values state) }
    requires top { state.clock + len ≤ TOP }
    requires slack { (1 ≤ pace.now.slack) × (pace.now.slack ≤ TOP) }
    requires slots { 1 ≤ pace.now.slots }
    // The history is that of a drift from the state to the end.
    ensures drift { IfOk result (λ r. IsDrift (T.rules target.now) (state_of T.values state) r.drift (state_of T.values r.end)) }
    // Each core and each channel has the mark that it had.
    ensures marks { IfOk result (λ r. SameMarks T.values state r.end) }
    ensures len { IfOk result (λ r. r.drift.len ≡ len) }
    ensures proper { IfOk result (λ r. IsProper (T.rules target.now) (T.owns target.now) (state_of T.values r.end)) }
    ensures seen { IfOk result (λ r. r.seen ≡ scan_of (T.rules target.now) r.drift) }
    // Where nothing was seen, the end is lockstep's, and so are the asks, each once.
    ensures exact { IfOk result (λ r. IsExactIfQuiet (T.rules target.now) (state_of T.values state) r.drift r.seen (state_of T.values r.end)) }
    // Where the gate holds a core alone, the early asks of the others were served before its first.
    ensures holds { IfOk result (λ r. KeepsHolds (record { may = G.may_hold gate.now; must = G.must_hold gate.now }) (T.rules target.now).cores pace.now.slack state.clock len r.drift.served) }
{
    let start = state.clock;
    let rig = left_at_once(rt, alloc, target, state, len, pace, gate)?;
    let drifted = finish(alloc, target, rig, start, len)?;
    Ok(drifted)
}

/// A drift over so many cycles from a state, on the calling thread: the legs of cores 0, 1, 2 and on, then the manager's,
/// and then finishing. So the same drift comes out each time: a run can be repeated exactly, and a refused allocation in it
/// too.
///
/// Out of memory: the state is lost.
pub fn drift_serial<T: Target, G: Gate>(
    alloc: Global,
    target: &T,
    state: State<T>,
    len: u64,
    pace: &Pace,
    gate: &G,
) -> Result<Drifted<T>, OutOfMemory>
    requires proper { IsProper (T.rules target.now) (T.owns target.now) (state_of T.values state) }
    requires top { state.clock + len ≤ TOP }
    requires slack { (1 ≤ pace.now.slack) × (pace.now.slack ≤ TOP) }
    requires slots { 1 ≤ pace.now.slots }
    // The history is that of a drift from the state to the end.
    ensures drift { IfOk result (λ r. IsDrift (T.rules target.now) (state_of T.values state) r.drift (state_of T.values r.end)) }
    // Each core and each channel has the mark that it had.
    ensures marks { IfOk result (λ r. SameMarks T.values state r.end) }
    ensures len { IfOk result (λ r. r.drift.len ≡ len) }
    ensures proper { IfOk result (λ r. IsProper (T.rules target.now) (T.owns target.now) (state_of T.values r.end)) }
    ensures seen { IfOk result (λ r. r.seen ≡ scan_of (T.rules target.now) r.drift) }
    // Where nothing was seen, the end is lockstep's, and so are the asks, each once.
    ensures exact { IfOk result (λ r. IsExactIfQuiet (T.rules target.now) (state_of T.values state) r.drift r.seen (state_of T.values r.end)) }
    // Where the gate holds a core alone, the early asks of the others were served before its first.
    ensures holds { IfOk result (λ r. KeepsHolds (record { may = G.may_hold gate.now; must = G.must_hold gate.now }) (T.rules target.now).cores pace.now.slack state.clock len r.drift.served) }
{
    let start = state.clock;
    let rig = left_in_turn(alloc, target, state, len, pace, gate)?;
    let drifted = finish(alloc, target, rig, start, len)?;
    Ok(drifted)
}
