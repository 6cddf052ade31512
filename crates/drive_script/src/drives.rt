//! Drives a target through a given interleaving.
ghost use Rattle.std.specs.Prelude.{◌≡◌, ◌+◌, ◌≤◌, IfOk, OnOk};
ghost use Rattle.slack_base.specs.declared.bounds.TheConstants.{TOP};
ghost use Rattle.target_law.specs.Drifts.{IsDrift};
ghost use Rattle.target_law.specs.Proper.{IsProper};
ghost use Rattle.target_law.specs.Views.{state_of};
ghost use Rattle.violation_watch.specs.Scan.{scan_of};
ghost use Rattle.drive_script.specs.Open.{IsOpen};
ghost use Rattle.drive_script.specs.Scripts.{IsScript, IsExactIfQuiet};
ghost use Rattle.drive_script.specs.Views.{world_of};
ghost use Rattle.drive_script.specs.Worlds.{stepped_all};

use crate::ends::{close, open};
use crate::finishing::finish;
use crate::worlds::World;
use slack_base::{OutOfMemory, Step, StepList};
use std::alloc::Global;
use target_law::{Drifted, State, Target};
use violation_watch::scan;

/// The drift of a given interleaving: the steps, and then finishing, over so many cycles from a state. A step that can't
/// be done, since its core is at the end clock, no ask or no post of it waits, or there is no such core, is passed over.
/// The history, the end and what the monitors record are handed back.
pub fn drive<T: Target>(
    alloc: Global,
    target: &T,
    state: State<T>,
    len: u64,
    steps: &StepList,
) -> Result<Drifted<T>, OutOfMemory>
    requires proper { IsProper (T.rules target.now) (T.owns target.now) (state_of T.values state) }
    requires top { state.clock + len ≤ TOP }
    // The history and the end are those of the steps.
    ensures script { IfOk result (λ r. IsScript (T.rules target.now) (state_of T.values state) len steps.now r.drift (state_of T.values r.end)) }
    // The history is that of a drift from the state to the end.
    ensures drift { IfOk result (λ r. IsDrift (T.rules target.now) (state_of T.values state) r.drift (state_of T.values r.end)) }
    ensures proper { IfOk result (λ r. IsProper (T.rules target.now) (T.owns target.now) (state_of T.values r.end)) }
    ensures seen { IfOk result (λ r. r.seen ≡ scan_of (T.rules target.now) r.drift) }
    // Where nothing was seen, the end is lockstep's, and so are the asks, each once.
    ensures exact { IfOk result (λ r. IsExactIfQuiet (T.rules target.now) (state_of T.values state) r.drift r.seen (state_of T.values r.end)) }
{
    let start = state.clock;
    let mut world = open(alloc, target, state, len)?;
    step_all(target, &mut world, steps.as_slice())?;
    finish(target, &mut world)?;
    let (end, drift) = close(alloc, target, world, start, len)?;
    let seen = scan(alloc, target, &drift)?;
    Ok(Drifted { end, drift, seen })
}

/// Takes steps one after another.
fn step_all<C: Send + Drop, D: Send + Drop, T: Target<Core = C, Chan = D>>(
    target: &T,
    world: &mut World<C, D>,
    steps: &[Step],
) -> Result<(), OutOfMemory>
    requires { IsOpen (T.rules target.now) (T.owns target.now) (world_of T.values world.old) }
    ensures world { OnOk result (world_of T.values world.new ≡ stepped_all (T.rules target.now) steps.now (world_of T.values world.old)) }
    ensures open { OnOk result (IsOpen (T.rules target.now) (T.owns target.now) (world_of T.values world.new)) }
{
    for step in steps {
        world.step(target, step)?;
    }
    Ok(())
}
