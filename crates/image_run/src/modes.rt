//! A run in each of the modes, of any machine.
ghost use Rattle.std.specs.Prelude.{◌≡◌, ◌+◌, ◌*◌, ◌<◌, ◌≤◌, [], IfOk, sum_by};
ghost use Rattle.slack_base.specs.declared.bounds.TheConstants.{TOP};
ghost use Rattle.slack_base.specs.Numbers.{numbers_of};
ghost use Rattle.bus_model.specs.Laws.{lookahead_of};
ghost use Rattle.bus_model.specs.Settings.{delays_of};
ghost use Rattle.target_law.specs.Proper.{IsProper, IsPunctual};
ghost use Rattle.target_law.specs.Runs.{Ends, IsExact, IsExactEnd};
ghost use Rattle.target_law.specs.Views.{state_of};
ghost use Rattle.drive_script.specs.Scripts.{IsScriptOf};
ghost use Rattle.pacing.specs.Exact.{IsExactIfQuiet, IsQuietIfShort};
ghost use Rattle.pacing.specs.QuantumRuns.{IsQuantumRun};
ghost use Rattle.drift_run.specs.BoundedRuns.{IsBoundedRun};
ghost use Rattle.image_run.specs.Ends.{IsCountedIn, IsExactIn, IsQuietIn, IsRunFrom, RunsBy};
ghost use Rattle.spec_run.specs.LockstepEnds.{IsLockstepAt};
ghost use Rattle.spec_run.specs.Speculative.{IsSpeculativeRun};
ghost use Rattle.target_law.specs.Ticks.{cycles_of};

use drift_run::{Pace, bounded_run};
use drive_script::script_run;
use io_edge::Gate;
use leap_run::run;
use pacing::quantum_run;
use sim_words::Mode;
use slack_base::{Config, NoteList, OutOfMemory, StepList};
use spec_run::{Run, Speculated, speculate};
use std::alloc::Global;
use std::thread::Threads;
use target_law::{Bounded, State, Target};

/// A run from clock 0 in a mode, by these steps if it is of a given interleaving.
pub fn run_in_mode<R: Threads + Sync, T: Target + Sync, G: Gate + Sync>(
    rt: &R,
    alloc: Global,
    gate: &G,
    target: &T,
    state: State<T>,
    config: &Config,
    mode: Mode,
    steps: &StepList,
) -> Result<Bounded<T>, OutOfMemory>
    requires begins { state.clock ≡ 0 }
    requires lookahead { (T.rules target.now).lookahead ≡ lookahead_of (delays_of (numbers_of config.now)) }
    requires few { (T.rules target.now).cores * config.now.limit ≤ TOP }
    requires proper { IsProper (T.rules target.now) (T.owns target.now) (state_of T.values state) }
    requires punctual { IsPunctual (state_of T.values state) }
    ensures ends { IfOk result (λ r. IsRunFrom (T.rules target.now) (record { may = G.may_hold gate.now; must = G.must_hold gate.now }) (numbers_of config.now) mode steps.now (state_of T.values state) r.notes (state_of T.values r.end)) }
    ensures exact { IfOk result (λ r. IsExactIn (T.rules target.now) (numbers_of config.now) mode (state_of T.values state) (state_of T.values r.end)) }
    ensures silent { IfOk result (λ r. mode ≡ Mode.Lockstep → r.notes ≡ []) }
    ensures quiet { IfOk result (λ r. IsQuietIn (numbers_of config.now) mode r.notes) }
    ensures counted { IfOk result (λ r. IsCountedIn mode r.notes r.end.clock) }
    ensures few { IfOk result (λ r. sum_by cycles_of r.notes ≤ config.now.limit) }
    ensures proper { IfOk result (λ r. IsProper (T.rules target.now) (T.owns target.now) (state_of T.values r.end)) }
{
    let interval = u64::from(config.interval);
    let limit = u64::from(config.limit);
    match mode {
        Mode::Lockstep => run_cycle_by_cycle(alloc, target, state, interval, limit),
        Mode::Quantum => run_quantum(
            rt,
            alloc,
            target,
            state,
            interval,
            limit,
            u64::from(config.quantum),
        ),
        Mode::Script => run_script(alloc, target, state, interval, interval.min(limit), steps),
        Mode::Bounded => run_bounded(
            rt,
            alloc,
            gate,
            target,
            state,
            interval,
            limit,
            u64::from(config.slack),
        ),
        Mode::Speculative => run_speculative(
            rt,
            alloc,
            gate,
            target,
            state,
            interval,
            limit,
            u64::from(config.slack),
        ),
    }
}

/// A run cycle by cycle: nothing is noted.
pub fn run_cycle_by_cycle<T: Target>(
    alloc: Global,
    target: &T,
    mut state: State<T>,
    interval: u64,
    limit: u64,
) -> Result<Bounded<T>, OutOfMemory>
    requires begins { state.clock ≤ limit }
    requires top { limit ≤ TOP }
    requires interval { 1 ≤ interval }
    requires proper { IsProper (T.rules target.now) (T.owns target.now) (state_of T.values state) }
    requires punctual { IsPunctual (state_of T.values state) }
    ensures ends { IfOk result (λ r. Ends (T.rules target.now) interval limit (IsExact (T.rules target.now)) (state_of T.values state) r.notes (state_of T.values r.end)) }
    ensures exact { IfOk result (λ r. IsExactEnd (T.rules target.now) interval limit (state_of T.values state) r.notes (state_of T.values r.end)) }
    ensures proper { IfOk result (λ r. IsProper (T.rules target.now) (T.owns target.now) (state_of T.values r.end)) }
{
    run(alloc, target, &mut state, interval, limit)?;
    Ok(Bounded {
        end: state,
        notes: NoteList::new(alloc),
    })
}

/// A run in pieces of `quantum` cycles.
pub fn run_quantum<R: Threads + Sync, T: Target + Sync>(
    rt: &R,
    alloc: Global,
    target: &T,
    state: State<T>,
    interval: u64,
    limit: u64,
    quantum: u64,
) -> Result<Bounded<T>, OutOfMemory>
    requires begins { state.clock ≤ limit }
    requires top { limit ≤ TOP }
    requires interval { 1 ≤ interval }
    requires quantum { 1 ≤ quantum }
    requires proper { IsProper (T.rules target.now) (T.owns target.now) (state_of T.values state) }
    ensures ends { IfOk result (λ r. IsQuantumRun (T.rules target.now) quantum interval limit (state_of T.values state) r.notes (state_of T.values r.end)) }
    ensures exact { IfOk result (λ r. IsExactIfQuiet (T.rules target.now) interval limit (state_of T.values state) r.notes (state_of T.values r.end)) }
    ensures short { IfOk result (λ r. IsQuietIfShort (T.rules target.now) interval limit quantum (state_of T.values state) r.notes (state_of T.values r.end)) }
    ensures counted { IfOk result (λ r. state.clock + sum_by cycles_of r.notes ≡ r.end.clock) }
    ensures low { IfOk result (λ r. r.end.clock ≤ limit) }
    ensures proper { IfOk result (λ r. IsProper (T.rules target.now) (T.owns target.now) (state_of T.values r.end)) }
{
    quantum_run(rt, alloc, target, state, interval, limit, quantum)
}

/// How many idle turns in a row a leg of a drift by threads makes at the most, and how many slots its rings have.
const PATIENCE: u32 = 65_536;

const SLOTS: u32 = 256;

/// A run of drifts by threads, in which no core is ahead of global time by more than the slack.
pub fn run_bounded<R: Threads + Sync, T: Target + Sync, G: Gate + Sync>(
    rt: &R,
    alloc: Global,
    gate: &G,
    target: &T,
    state: State<T>,
    interval: u64,
    limit: u64,
    slack: u64,
) -> Result<Bounded<T>, OutOfMemory>
    requires begins { state.clock ≤ limit }
    requires top { limit ≤ TOP }
    requires interval { 1 ≤ interval }
    requires slack { (1 ≤ slack) × (slack ≤ TOP) }
    requires proper { IsProper (T.rules target.now) (T.owns target.now) (state_of T.values state) }
    ensures ends { IfOk result (λ r. IsBoundedRun (T.rules target.now) (record { may = G.may_hold gate.now; must = G.must_hold gate.now }) slack interval limit (state_of T.values state) r.notes (state_of T.values r.end)) }
    ensures counted { IfOk result (λ r. state.clock + sum_by cycles_of r.notes ≡ r.end.clock) }
    ensures low { IfOk result (λ r. r.end.clock ≤ limit) }
    ensures proper { IfOk result (λ r. IsProper (T.rules target.now) (T.owns target.now) (state_of T.values r.end)) }
{
    let pace = Pace {
        slack,
        patience: PATIENCE,
        slots: SLOTS,
    };
    bounded_run(rt, alloc, target, state, interval, limit, &pace, gate)
}

/// A run in a given interleaving, which is of one interval.
pub fn run_script<T: Target>(
    alloc: Global,
    target: &T,
    state: State<T>,
    interval: u64,
    limit: u64,
    steps: &StepList,
) -> Result<Bounded<T>, OutOfMemory>
    requires begins { state.clock < limit }
    requires top { limit ≤ TOP }
    requires one { limit ≤ state.clock + interval }
    requires proper { IsProper (T.rules target.now) (T.owns target.now) (state_of T.values state) }
    ensures ends { IfOk result (λ r. RunsBy (T.rules target.now) (IsScriptOf (T.rules target.now) steps.now) interval limit (state_of T.values state) r.notes (state_of T.values r.end)) }
    ensures counted { IfOk result (λ r. state.clock + sum_by cycles_of r.notes ≡ r.end.clock) }
    ensures low { IfOk result (λ r. r.end.clock ≤ limit) }
    ensures proper { IfOk result (λ r. IsProper (T.rules target.now) (T.owns target.now) (state_of T.values r.end)) }
{
    let cycles = limit - state.clock;
    script_run(alloc, target, state, cycles, steps)
}

/// A run of drifts by threads, each of which is taken back and simulated cycle by cycle where its monitors saw something.
pub fn run_speculative<R: Threads + Sync, T: Target + Sync, G: Gate + Sync>(
    rt: &R,
    alloc: Global,
    gate: &G,
    target: &T,
    state: State<T>,
    interval: u64,
    limit: u64,
    slack: u64,
) -> Result<Bounded<T>, OutOfMemory>
    requires begins { state.clock ≤ limit }
    requires few { (T.rules target.now).cores * limit ≤ TOP }
    requires interval { 1 ≤ interval }
    requires slack { (1 ≤ slack) × (slack ≤ TOP) }
    requires proper { IsProper (T.rules target.now) (T.owns target.now) (state_of T.values state) }
    requires punctual { IsPunctual (state_of T.values state) }
    ensures ends { IfOk result (λ r. IsSpeculativeRun (T.rules target.now) (record { may = G.may_hold gate.now; must = G.must_hold gate.now }) slack interval limit (state_of T.values state) r.notes (state_of T.values r.end)) }
    ensures exact { IfOk result (λ r. IsLockstepAt (T.rules target.now) interval limit (state_of T.values state) (state_of T.values r.end)) }
    ensures counted { IfOk result (λ r. state.clock + sum_by cycles_of r.notes ≡ r.end.clock) }
    ensures low { IfOk result (λ r. r.end.clock ≤ limit) }
    ensures proper { IfOk result (λ r. IsProper (T.rules target.now) (T.owns target.now) (state_of T.values r.end)) }
{
    let run = Run {
        slack,
        interval,
        limit,
        patience: PATIENCE,
        slots: SLOTS,
    };
    let Speculated { end, notes, .. } = speculate(rt, alloc, target, state, &run, gate)?;
    Ok(Bounded { end, notes })
}
