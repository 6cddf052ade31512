//! Speculative runs.
ghost use Rattle.std.specs.Prelude.{◌≡◌, ◌*◌, ◌-◌, ◌≤◌, IfOk};
ghost use Rattle.slack_base.specs.declared.bounds.TheConstants.{TOP};
ghost use Rattle.target_law.specs.Proper.{IsProper, IsPunctual};
ghost use Rattle.target_law.specs.Ticks.{drift_ticks_of, replay_ticks_of};
ghost use Rattle.target_law.specs.Views.{state_of};
ghost use Rattle.spec_run.specs.LockstepEnds.{IsLockstepAt};
ghost use Rattle.spec_run.specs.Speculative.{IsSpeculativeRun};

use crate::intervals::{Stretch, one_interval};
use drift_run::Pace;
use io_edge::Gate;
use slack_base::{NoteList, OutOfMemory};
use std::alloc::Global;
use std::thread::Threads;
use target_law::{Bounded, State, Target, drift_ticks, replay_ticks, stopped};

/// How a speculative run goes.
#[derive(Clone, Copy, Debug, PartialEq, Eq)]
pub struct Run {
    /// By how many cycles a core may be ahead of global time in a drift.
    pub slack: u64,
    /// How many cycles an interval has.
    pub interval: u64,
    /// The clock that the run doesn't pass.
    pub limit: u64,
    /// A leg of a drift ends once more turns in a row than this were idle.
    pub patience: u32,
    /// How many slots each ring of a drift has.
    pub slots: u32,
}

/// What a speculative run ended as: the state, the notes of its intervals, and how many ticks its cores made in drifts and
/// in replays.
#[derive(Drop)]
pub struct Speculated<T: Target> {
    pub end: State<T>,
    pub notes: NoteList,
    pub drift_ticks: u64,
    pub replay_ticks: u64,
}

/// The intervals of a run, up to where it stops.
fn run_intervals<R: Threads + Sync, T: Target + Sync, G: Gate + Sync>(
    rt: &R,
    alloc: Global,
    target: &T,
    state: State<T>,
    run: &Run,
    gate: &G,
) -> Result<Bounded<T>, OutOfMemory>
    requires proper { IsProper (T.rules target.now) (T.owns target.now) (state_of T.values state) }
    requires punctual { IsPunctual (state_of T.values state) }
    requires begins { state.clock ≤ run.now.limit }
    requires top { run.now.limit ≤ TOP }
    requires interval { 1 ≤ run.now.interval }
    requires slack { (1 ≤ run.now.slack) × (run.now.slack ≤ TOP) }
    requires slots { 1 ≤ run.now.slots }
    ensures runs { IfOk result (λ r. IsSpeculativeRun (T.rules target.now) (record { may = G.may_hold gate.now; must = G.must_hold gate.now }) run.now.slack run.now.interval run.now.limit (state_of T.values state) r.notes (state_of T.values r.end)) }
    ensures proper { IfOk result (λ r. IsProper (T.rules target.now) (T.owns target.now) (state_of T.values r.end)) }
    ensures punctual { IfOk result (λ r. IsPunctual (state_of T.values r.end)) }
{
    let pace = Pace {
        slack: run.slack,
        patience: run.patience,
        slots: run.slots,
    };
    let mut now = state;
    let mut notes = NoteList::new(alloc);
    while now.clock < run.limit {
        let cycles = run.interval.min(run.limit - now.clock);
        let Stretch { end, note } = one_interval(rt, alloc, target, now, cycles, &pace, gate)?;
        notes.push(note)?;
        now = end;
        if stopped(target, &now) {
            return Ok(Bounded { end: now, notes });
        }
    }
    Ok(Bounded { end: now, notes })
}

/// Runs in intervals of so many cycles, the last one cut to the limit, until at the end of an interval all cores have ended
/// or the limit is reached. Each interval is a drift by threads. It is kept where its monitors saw nothing; else it is taken
/// back, and simulated cycle by cycle. A run that begins at its limit ends there.
///
/// Out of memory: the state is lost.
pub fn speculate<R: Threads + Sync, T: Target + Sync, G: Gate + Sync>(
    rt: &R,
    alloc: Global,
    target: &T,
    state: State<T>,
    run: &Run,
    gate: &G,
) -> Result<Speculated<T>, OutOfMemory>
    requires proper { IsProper (T.rules target.now) (T.owns target.now) (state_of T.values state) }
    // No post is late at the start.
    requires punctual { IsPunctual (state_of T.values state) }
    requires begins { state.clock ≤ run.now.limit }
    // The ticks of all cores can be counted.
    requires few { (T.rules target.now).cores * run.now.limit ≤ TOP }
    requires interval { 1 ≤ run.now.interval }
    requires slack { (1 ≤ run.now.slack) × (run.now.slack ≤ TOP) }
    requires slots { 1 ≤ run.now.slots }
    // Each interval ends as lockstep does, and its note says whether its drift was kept.
    ensures runs { IfOk result (λ r. IsSpeculativeRun (T.rules target.now) (record { may = G.may_hold gate.now; must = G.must_hold gate.now }) run.now.slack run.now.interval run.now.limit (state_of T.values state) r.notes (state_of T.values r.end)) }
    // The end is lockstep's, where a run cycle by cycle stops.
    ensures exact { IfOk result (λ r. IsLockstepAt (T.rules target.now) run.now.interval run.now.limit (state_of T.values state) (state_of T.values r.end)) }
    ensures proper { IfOk result (λ r. IsProper (T.rules target.now) (T.owns target.now) (state_of T.values r.end)) }
    ensures punctual { IfOk result (λ r. IsPunctual (state_of T.values r.end)) }
    // In drifts each core ticks once in each cycle of the run.
    ensures cycles { IfOk result (λ r. r.drift_ticks ≡ (T.rules target.now).cores * (r.end.clock - state.clock)) }
    ensures drift_ticks { IfOk result (λ r. r.drift_ticks ≡ drift_ticks_of (T.rules target.now).cores r.notes) }
    ensures replay_ticks { IfOk result (λ r. r.replay_ticks ≡ replay_ticks_of (T.rules target.now).cores r.notes) }
{
    let Bounded { end, notes } = run_intervals(rt, alloc, target, state, run, gate)?;
    let cores = target.cores();
    let drift_ticks = drift_ticks(cores, &notes);
    let replay_ticks = replay_ticks(cores, &notes);
    Ok(Speculated {
        end,
        notes,
        drift_ticks,
        replay_ticks,
    })
}
