//! How a drift is finished, once the legs of its cores and its manager have run.
ghost use Rattle.std.specs.Prelude.{◌≡◌, ◌+◌, ◌≤◌, IfOk};
ghost use Rattle.slack_base.specs.declared.bounds.TheConstants.{TOP};
ghost use Rattle.target_law.specs.Drifts.{IsDrift};
ghost use Rattle.target_law.specs.InSight.{rules_in_sight, owns_in_sight, values_in_sight};
ghost use Rattle.target_law.specs.Proper.{IsProper};
ghost use Rattle.target_law.specs.Views.{state_of};
ghost use Rattle.violation_watch.specs.Scan.{scan_of};
ghost use Rattle.drift_run.specs.Finishes.{IsWholeOfEach};
ghost use Rattle.drift_run.specs.Holds.{KeepsHolds};
ghost use Rattle.drift_run.specs.Rigs.{HaveRun, OfEach};

use crate::parts::{parts_of, see_rest};
use crate::rigs::Rig;
use drive_script::ends::close;
use settle::{Settled, settle};
use slack_base::OutOfMemory;
use std::alloc::Global;
use target_law::{Drifted, InSight, State, Target};

/// What legs have left is settled, the monitors see the rest, and the drift is handed back. Nothing is said of the marks of
/// cores and channels.
fn plain_finish<T: Target>(
    alloc: Global,
    target: &T,
    rig: Rig<T::Core, T::Chan>,
    start: u64,
    len: u64,
) -> Result<Drifted<T>, OutOfMemory>
    requires top { start + len ≤ TOP }
    requires ran { HaveRun (T.rules target.now) (T.owns target.now) T.values (start + len) rig.manager rig.actors.items }
    ensures drift { IfOk result (λ r. OfEach (T.rules target.now) (T.owns target.now) T.values start (start + len) rig.manager rig.actors.items (λ s _ _. IsDrift (T.rules target.now) s r.drift (state_of T.values r.end))) }
    ensures len { IfOk result (λ r. r.drift.len ≡ len) }
    ensures proper { IfOk result (λ r. IsProper (T.rules target.now) (T.owns target.now) (state_of T.values r.end)) }
    ensures seen { IfOk result (λ r. r.seen ≡ scan_of (T.rules target.now) r.drift) }
    ensures holds { IfOk result (λ r. OfEach (T.rules target.now) (T.owns target.now) T.values start (start + len) rig.manager rig.actors.items (λ _ slack holds. KeepsHolds holds (T.rules target.now).cores slack start len r.drift.served)) }
{
    let end = start + len;
    let Rig { manager, actors } = rig;
    let (parts, watches) = parts_of(alloc, actors)?;
    let Settled { world, watch } = settle(alloc, target, manager, parts, end)?;
    let seen = see_rest(end, world.lanes.as_slice(), watches, watch.into_found())?;
    let (end, drift) = close(alloc, target, world, start, len)?;
    Ok(Drifted { end, drift, seen })
}

/// Finishes a drift from a clock over so many cycles, of which legs have left this. The legs, and this, see the marks of
/// cores and channels as part of their values, so that marks stay.
pub(crate) fn finish<T: Target>(
    alloc: Global,
    target: &T,
    rig: Rig<T::Core, T::Chan>,
    start: u64,
    len: u64,
) -> Result<Drifted<T>, OutOfMemory>
    requires top { start + len ≤ TOP }
    requires ran { HaveRun (rules_in_sight (T.rules target.now)) (owns_in_sight (T.owns target.now)) (values_in_sight T.values) (start + len) rig.manager rig.actors.items }
    ensures { IfOk result (λ r. IsWholeOfEach (T.rules target.now) (T.owns target.now) T.values start len rig.manager rig.actors.items r) }
{
    let drifted = plain_finish(alloc, &InSight::of(target), rig, start, len)?;
    let Drifted { end, drift, seen } = drifted;
    let State {
        clock,
        cores,
        chans,
    } = end;
    let end = State {
        clock,
        cores,
        chans,
    };
    Ok(Drifted { end, drift, seen })
}
