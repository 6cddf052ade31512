//! Legs of the small machine's core 0, which no post reaches. What a manager does beside it is tested over drifts.
ghost use Rattle.std.specs.Prelude.{◌≡◌, ◌<◌, ◌≤◌, Some, IfOk, length, slice_get};
ghost use Rattle.slack_base.specs.declared.bounds.TheConstants.{TOP};
ghost use Rattle.core_gate.specs.declared.pacers.Pacer.{Pacer};
ghost use Rattle.target_law.specs.Trio.{trio_rules, trio_owns, trio_values};
ghost use Rattle.core_actor.specs.Actors.{IsReady};

use crate::gates::AgainGate;
use core_actor::CoreActor;
use core_gate::{ClockTable, Pacer, PacerList};
use slack_base::OutOfMemory;
use stamp_queue::{ask_ring, post_ring};
use std::alloc::Global;
use std::sync::atomic::AtomicU32;
use std::test::Fail;
use target_law::{Trio, TrioCore};

/// A leg up to clock 8: the slack, how many idle turns in a row don't end it, for how many turns in a row the core is held at
/// each clock, and the clock at which it ends.
type Leg = (&'static str, u64, u32, u32, u64);

#[rattlefmt::skip]
const LEGS: [Leg; 4] = [
    ("it ends at the slack", 3, 0, 0, 3),
    // There are 24 idle turns in all, and no more than three in a row.
    ("idle turns between ticks", 8, 3, 3, 8),
    ("one idle turn too many in a row", 8, 3, 4, 0),
    ("no more idle turns than the slack allows ticks", 5, 3, 3, 5),
];

/// The pacers of a clock table of one core.
fn pacers(alloc: Global, slack: u64) -> Result<PacerList, OutOfMemory>
    requires { (0 < slack) × (slack ≤ TOP) }
    ensures count { IfOk result (λ ps. length ps ≡ 1) }
    ensures first { IfOk result (λ ps. (p : Pacer) → slice_get ps 0 ≡ Some p → (p.number ≡ 0) × (p.clock ≡ 0)) }
{
    let mut table = ClockTable::make(alloc, 1, 0, slack)?;
    let (_, pacers) = table.seats()?;
    Ok(pacers)
}

/// The only one of some pacers.
fn only(pacers: PacerList) -> Pacer
    requires { length pacers ≡ 1 }
    ensures { slice_get pacers 0 ≡ Some result }
{
    let Some(pacer) = pacers.into_vec().pop() else {
        unreachable!()
    };
    pacer
}

/// An actor at clock 0, in a drift that ends at clock 8. The other ends of its rings are let go.
fn begun(alloc: Global, slack: u64) -> Result<CoreActor<TrioCore>, OutOfMemory>
    requires { (0 < slack) × (slack ≤ TOP) }
    ensures { IfOk result (IsReady trio_rules trio_owns trio_values 8) }
{
    let pacer = only(pacers(alloc, slack)?);
    let (sender, _) = ask_ring(alloc, 1)?;
    let (_, receiver) = post_ring(alloc, 1)?;
    let core = TrioCore::new(alloc, 0);
    Ok(CoreActor::new(alloc, core, sender, receiver, pacer))
}

/// The clock at which a leg ends, and whether nothing was taken and found in it.
fn ended(alloc: Global, leg: &Leg) -> Result<(u64, bool), OutOfMemory> {
    let (_, slack, patience, turns, _) = *leg;
    let gate = AgainGate {
        turns,
        held: AtomicU32::new(0),
    };
    let mut actor = begun(alloc, slack.clamp(1, 1000))?;
    actor.leg(&Trio::new(), &gate, 8, patience)?;
    let clock = actor.lane.clock;
    let (_, taken, found) = actor.into_parts();
    Ok((clock, taken.is_empty() && found.is_empty()))
}

#[test]
fn legs(rt: HostRuntime) -> Result<(), Fail> {
    for leg in &LEGS {
        assert_eq!(rt; ended(rt.alloc(), leg)?, (leg.4, true), "{}", leg.0);
    }
    Ok(())
}
