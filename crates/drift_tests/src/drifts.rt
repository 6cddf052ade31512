//! Drifts from the start, and what is found of them.
ghost use Rattle.std.specs.Prelude.{◌≡◌, ◌≤◌};
ghost use Rattle.slack_base.specs.declared.bounds.TheConstants.{TOP};
ghost use Rattle.slack_base.specs.Images.{Fits};
ghost use Rattle.slack_base.specs.Numbers.{numbers_of};
ghost use Rattle.timed_core.specs.Code.{code_of};

use crate::machines::{Setup, are_same, begun};
use crate::replays::{Verdict, is_scanned, is_whole, judge};
use drift_run::{Pace, drift, drift_serial};
use drive_script::drive;
use io_edge::{Stop, StopGate, StopList};
use lockstep_model::RvTarget;
use slack_base::{OutOfMemory, StepList};
use std::alloc::Global;
use std::thread::Threads;
use target_law::Drifted;

/// The slack, how many idle turns in a row end a leg, and how many slots a ring has, within their bounds.
pub fn pace_of(slack: u64, patience: u32, slots: u32) -> Pace
    ensures slack { (1 ≤ result.slack) × (result.slack ≤ TOP) }
    ensures slots { 1 ≤ result.slots }
{
    Pace {
        slack: slack.clamp(1, 1_000_000),
        patience,
        slots: slots.max(1),
    }
}

/// The gate of stops.
pub fn gate_of(alloc: Global, stops: &[Stop]) -> Result<StopGate, OutOfMemory> {
    let mut list = StopList::new(alloc);
    for stop in stops {
        list.push(*stop)?;
    }
    Ok(StopGate { stops: list })
}

/// A drift on one thread.
fn drifted_in_turn(
    alloc: Global,
    setup: &Setup,
    cycles: u64,
    pace: &Pace,
    gate: &StopGate,
) -> Result<Drifted<RvTarget>, OutOfMemory>
    requires fits { Fits setup.now.target.config.base setup.now.target.config.memory setup.now.image }
    requires code { setup.now.target.code ≡ code_of setup.now.image (numbers_of setup.now.target.config) }
    requires cycles { cycles ≤ 1000 }
    requires slack { (1 ≤ pace.now.slack) × (pace.now.slack ≤ TOP) }
    requires slots { 1 ≤ pace.now.slots }
{
    let machine = begun(alloc, setup)?;
    drift_serial(alloc, &setup.target, machine, cycles, pace, gate)
}

/// What is found of a drift on one thread.
pub fn in_turn(
    alloc: Global,
    setup: &Setup,
    cycles: u64,
    pace: &Pace,
    gate: &StopGate,
) -> Result<Verdict, OutOfMemory>
    requires fits { Fits setup.now.target.config.base setup.now.target.config.memory setup.now.image }
    requires code { setup.now.target.code ≡ code_of setup.now.image (numbers_of setup.now.target.config) }
    requires cycles { cycles ≤ 1000 }
    requires slack { (1 ≤ pace.now.slack) × (pace.now.slack ≤ TOP) }
    requires slots { 1 ≤ pace.now.slots }
{
    let drifted = drifted_in_turn(alloc, setup, cycles, pace, gate)?;
    judge(alloc, setup, cycles, &drifted)
}

/// Whether two drifts on one thread are the same, with what their monitors saw and their ends, and the first is whole, and was
/// seen as a scan sees it.
pub fn is_repeated(
    alloc: Global,
    setup: &Setup,
    cycles: u64,
    pace: &Pace,
    gate: &StopGate,
) -> Result<bool, OutOfMemory>
    requires fits { Fits setup.now.target.config.base setup.now.target.config.memory setup.now.image }
    requires code { setup.now.target.code ≡ code_of setup.now.image (numbers_of setup.now.target.config) }
    requires cycles { cycles ≤ 1000 }
    requires slack { (1 ≤ pace.now.slack) × (pace.now.slack ≤ TOP) }
    requires slots { 1 ≤ pace.now.slots }
{
    let first = drifted_in_turn(alloc, setup, cycles, pace, gate)?;
    let second = drifted_in_turn(alloc, setup, cycles, pace, gate)?;
    let same = first.drift == second.drift
        && first.seen == second.seen
        && are_same(&first.end, &second.end);
    let scanned = is_scanned(alloc, &setup.target, &first)?;
    Ok(same && scanned && is_whole(setup, cycles, &first.drift))
}

/// What is found of a drift by threads.
pub fn at_once<R: Threads + Sync>(
    rt: &R,
    alloc: Global,
    setup: &Setup,
    cycles: u64,
    pace: &Pace,
    gate: &StopGate,
) -> Result<Verdict, OutOfMemory>
    requires fits { Fits setup.now.target.config.base setup.now.target.config.memory setup.now.image }
    requires code { setup.now.target.code ≡ code_of setup.now.image (numbers_of setup.now.target.config) }
    requires cycles { cycles ≤ 1000 }
    requires slack { (1 ≤ pace.now.slack) × (pace.now.slack ≤ TOP) }
    requires slots { 1 ≤ pace.now.slots }
{
    let machine = begun(alloc, setup)?;
    let drifted = drift(rt, alloc, &setup.target, machine, cycles, pace, gate)?;
    judge(alloc, setup, cycles, &drifted)
}

/// What is found of a drift in a given interleaving.
pub fn scripted(
    alloc: Global,
    setup: &Setup,
    cycles: u64,
    steps: &StepList,
) -> Result<Verdict, OutOfMemory>
    requires fits { Fits setup.now.target.config.base setup.now.target.config.memory setup.now.image }
    requires code { setup.now.target.code ≡ code_of setup.now.image (numbers_of setup.now.target.config) }
    requires top { cycles ≤ 1000 }
{
    let machine = begun(alloc, setup)?;
    let drifted = drive(alloc, &setup.target, machine, cycles, steps)?;
    judge(alloc, setup, cycles, &drifted)
}
