//! Drifts of the small machine, by threads and on one thread, beside what it does by hand.
ghost use Rattle.std.specs.Prelude.{◌≡◌, ◌≤◌};
ghost use Rattle.slack_base.specs.declared.bounds.TheConstants.{TOP};
ghost use Rattle.drift_run.specs.declared.drifts.Pace.{Pace};

use crate::gates::{ServedGate, SpreadGate};
use crate::machine::{Reached, TWENTY, are_multiples, reached};
use drift_run::{Pace, drift, drift_serial};
use io_edge::{Gate, NeverHold, Stop, StopGate, StopList};
use slack_base::{Ask, OutOfMemory};
use std::alloc::Global;
use std::sync::atomic::{AtomicBool, AtomicU64, Ordering};
use std::test::Fail;
use std::thread::Threads;
use target_law::{Drifted, Trio};
use violation_watch::scan;

/// By how many cycles a core may be ahead.
const SLACK: u64 = 4;

/// How many slots a ring has, the slack, and how many idle turns in a row end a leg.
#[rattlefmt::skip]
const PACES: [(u32, u64, u32); 27] = [
    (1, 1, 0), (1, 1, 1), (1, 1, 1000), (1, 8, 0), (1, 8, 1), (1, 8, 1000), (1, 1000, 0), (1, 1000, 1), (1, 1000, 1000),
    (2, 1, 0), (2, 1, 1), (2, 1, 1000), (2, 8, 0), (2, 8, 1), (2, 8, 1000), (2, 1000, 0), (2, 1000, 1), (2, 1000, 1000),
    (256, 1, 0), (256, 1, 1), (256, 1, 1000), (256, 8, 0), (256, 8, 1), (256, 8, 1000), (256, 1000, 0), (256, 1000, 1), (256, 1000, 1000),
];

/// The stops of drifts on one thread: none, a core before its first cycle, and two cores each in the midst.
const STOPS: [&[Stop]; 3] = [
    &[],
    &[Stop { core: 0, clock: 0 }],
    &[Stop { core: 0, clock: 3 }, Stop { core: 1, clock: 1 }],
];

/// What a drift came to.
#[derive(Clone, Copy)]
struct Found {
    end: Reached,
    served: usize,
    /// Whether nothing was seen of it.
    quiet: bool,
    /// How many of the asks with a cycle below the slack were served before the first of core 0.
    early: usize,
    /// Whether each core's asks are those of its multiples, in their order, and each has its clash.
    whole: bool,
    /// Whether a scan of the drift finds what the monitors saw.
    scanned: bool,
}

/// How many asks with a cycle below the slack there are before the first ask of core 0.
fn early_before_core_0(served: &[Ask]) -> usize {
    let mut early = 0usize;
    for ask in served {
        let id = ask.id();
        if id.core == 0 {
            return early;
        }
        if id.cycle < SLACK {
            early = early.saturating_add(1);
        }
    }
    early
}

/// Whether a scan of a drift of three cores finds what the monitors saw.
fn is_scanned(alloc: Global, target: &Trio, drifted: &Drifted<Trio>) -> Result<bool, OutOfMemory> {
    let drift = &drifted.drift;
    if drift.clashes.len() != drift.served.len()
        || drift.start != 0
        || drift.len > 1000
        || drift.sent.len() != 3
    {
        return Ok(false);
    }
    Ok(scan(alloc, target, drift)? == drifted.seen)
}

/// What a drift came to.
fn found_of(alloc: Global, target: &Trio, drifted: &Drifted<Trio>) -> Result<Found, OutOfMemory> {
    let drift = &drifted.drift;
    let served = drift.served.as_slice();
    Ok(Found {
        end: reached(&drifted.end),
        served: served.len(),
        quiet: drifted.seen.is_empty(),
        early: early_before_core_0(served),
        whole: are_multiples(served) && drift.clashes.len() == served.len(),
        scanned: is_scanned(alloc, target, drifted)?,
    })
}

/// A drift by threads from the start.
fn by_threads<R: Threads + Sync, G: Gate + Sync>(
    rt: &R,
    alloc: Global,
    target: &Trio,
    len: u64,
    pace: &Pace,
    gate: &G,
) -> Result<Found, OutOfMemory>
    requires len { len ≤ 1000 }
    requires slack { (1 ≤ pace.now.slack) × (pace.now.slack ≤ TOP) }
    requires slots { 1 ≤ pace.now.slots }
{
    let start = Trio::start(alloc)?;
    let drifted = drift(rt, alloc, target, start, len, pace, gate)?;
    found_of(alloc, target, &drifted)
}

/// A drift of twenty cycles on one thread.
fn in_turn(alloc: Global, pace: &Pace, gate: &StopGate) -> Result<Found, OutOfMemory>
    requires slack { (1 ≤ pace.now.slack) × (pace.now.slack ≤ TOP) }
    requires slots { 1 ≤ pace.now.slots }
{
    let target = Trio::new();
    let start = Trio::start(alloc)?;
    let drifted = drift_serial(alloc, &target, start, 20, pace, gate)?;
    found_of(alloc, &target, &drifted)
}

/// A pace of drifts by threads.
fn pace_of(patience: u32, slots: u32) -> Pace
    requires { 1 ≤ slots }
    ensures { result ≡ record { slack = 4; patience = patience; slots = slots } }
{
    Pace {
        slack: SLACK,
        patience,
        slots,
    }
}

/// The gate of stops.
fn gate_of(alloc: Global, stops: &[Stop]) -> Result<StopGate, OutOfMemory> {
    let mut list = StopList::new(alloc);
    for stop in stops {
        list.push(*stop)?;
    }
    Ok(StopGate { stops: list })
}

/// Rings that are long and short. The asks are the same, whatever the order; where nothing was seen, the end is that of
/// lockstep.
#[test]
fn a_quiet_drift_ends_as_lockstep_does(rt: HostRuntime) -> Result<(), Fail> {
    for slots in [1, 256] {
        let pace = pace_of(10_000, slots);
        let found = by_threads(&rt, rt.alloc(), &Trio::new(), 20, &pace, &NeverHold)?;
        assert_eq!(rt; (found.end.0, found.served), (20, 22));
        assert!(rt; found.whole && found.scanned);
        assert!(rt; !found.quiet || found.end == TWENTY);
    }
    Ok(())
}

/// Below clock 4 core 1 asks at 0 and 3, and core 2 at 0.
#[test]
fn a_core_that_is_held_comes_last(rt: HostRuntime) -> Result<(), Fail> {
    let [_, stops, _] = &STOPS;
    let gate = gate_of(rt.alloc(), stops)?;
    let pace = pace_of(10_000, 256);
    let found = by_threads(&rt, rt.alloc(), &Trio::new(), 20, &pace, &gate)?;
    assert_eq!(rt; found.early, 3);
    Ok(())
}

/// While each core waits for it at the last clock, the manager serves all asks, and all their posts are taken.
#[test]
fn asks_are_served_while_cores_run(rt: HostRuntime) -> Result<(), Fail> {
    let target = Trio::new();
    let gate = ServedGate {
        target: &target,
        freed: AtomicU64::new(0),
    };
    let pace = pace_of(10_000_000, 256);
    let found = by_threads(&rt, rt.alloc(), &target, 20, &pace, &gate)?;
    assert_eq!(rt; (found.end.0, found.served), (20, 22));
    assert_eq!(rt; gate.freed.load(Ordering::SeqCst), 3);
    Ok(())
}

/// No core ticks at a clock that is ahead of another by more than the slack, and each comes to the last clock in its leg.
#[test]
fn cores_stay_within_the_slack(rt: HostRuntime) -> Result<(), Fail> {
    let gate = SpreadGate::new(SLACK);
    let pace = pace_of(10_000_000, 256);
    let found = by_threads(&rt, rt.alloc(), &Trio::new(), 200, &pace, &gate)?;
    assert_eq!(rt; found.end.0, 200);
    assert_eq!(rt; gate.last(), [199, 199, 199]);
    assert!(rt; !gate.apart.load(Ordering::SeqCst));
    Ok(())
}

/// Whatever the pace, and wherever cores are held.
#[test]
fn drifts_in_turn(rt: HostRuntime) -> Result<(), Fail> {
    for stops in &STOPS {
        let gate = gate_of(rt.alloc(), stops)?;
        for (slots, slack, patience) in &PACES {
            assert!(rt; *slack > 0 && *slack < 2000 && *slots > 0);
            let pace = Pace {
                slack: *slack,
                patience: *patience,
                slots: *slots,
            };
            let found = in_turn(rt.alloc(), &pace, &gate)?;
            assert_eq!(rt; (found.end.0, found.served), (20, 22), "{pace:?}");
            assert!(rt; found.whole && found.scanned, "{pace:?}");
            assert!(rt; !found.quiet || found.end == TWENTY, "{pace:?}");
        }
    }
    Ok(())
}
