//! Drifts by threads of cores that share lines, gone through once more by plain code.
ghost use Rattle.std.specs.Prelude.{◌≡◌, ◌≤◌};
ghost use Rattle.slack_base.specs.declared.bounds.TheConstants.{TOP};
ghost use Rattle.slack_base.specs.Images.{Fits};
ghost use Rattle.slack_base.specs.Numbers.{numbers_of};
ghost use Rattle.timed_core.specs.Code.{code_of};

use crate::drifts::{at_once, gate_of, pace_of};
use crate::machines::{LOADS, Program, STORES, Setup, begun, cores, setup_of};
use crate::replays::{Verdict, are_in_time};
use drift_run::{Pace, bounded_run};
use io_edge::{Stop, StopGate};
use slack_base::{Interval, OutOfMemory};
use std::alloc::Global;
use std::process::Abort;
use std::test::Fail;
use std::thread::Threads;

/// A lock that is taken by a swap, and left again.
const SWAPS: Program = Program::Text(
    b"lui s0, 1\naddi t0, x0, 1\nagain: amoswap.w t1, t0, (s0)\nbne t1, x0, again\nsw x0, 0(s0)\nj again",
);

/// A word that is counted up by LR and SC.
const COUNTS: Program = Program::Text(
    b"lui s0, 1\nagain: lr.w t0, (s0)\naddi t0, t0, 1\nsc.w t1, t0, (s0)\nj again",
);

/// All cores read two lines, and core 0 writes a third and the first.
const READS: Program = Program::Text(
    b"lui s0, 1\nagain: lw t0, 0(s0)\nlw t1, 16(s0)\nbne a0, x0, again\nsw t0, 32(s0)\nsw t1, 0(s0)\nj again",
);

/// Each core stores to one line again and again.
const STORES_AGAIN: Program = Program::Text(b"lui s0, 1\nagain: sw a0, 0(s0)\nj again");

/// A program, how many cores run it, the slack, how many idle turns in a row end a leg, and how many slots a ring has.
#[rattlefmt::skip]
const DRIFTS: [(Program, u32, u64, u32, u32); 12] = [
    (STORES, 2, 1, 65_536, 256),
    (STORES, 2, 8, 0, 1),
    (STORES, 8, 8, 65_536, 256),
    (STORES, 8, 1000, 1, 1),
    (SWAPS, 4, 1, 65_536, 1),
    (SWAPS, 4, 1000, 65_536, 256),
    (COUNTS, 3, 8, 65_536, 256),
    (COUNTS, 2, 1000, 0, 256),
    (READS, 4, 8, 65_536, 1),
    (READS, 5, 1, 1, 256),
    (LOADS, 1, 8, 65_536, 256),
    (LOADS, 6, 1000, 65_536, 1),
];

/// What is found of a drift.
fn drifted<R: Threads + Sync + Abort + AllocGlobal>(
    rt: &R,
    row: &(Program, u32, u64, u32, u32),
) -> Result<Verdict, Fail> {
    let (runs, count, slack, patience, slots) = row;
    let pace = pace_of(*slack, *patience, *slots);
    let setup = setup_of(rt, cores(*count), runs)?;
    let gate = gate_of(rt.alloc(), &[])?;
    Ok(at_once(rt, rt.alloc(), &setup, 100, &pace, &gate)?)
}

/// Whatever drift comes out, it is one; and where nothing is recorded of it, it ended as lockstep does.
#[test]
fn drifts_by_threads(rt: HostRuntime) -> Result<(), Fail> {
    for row in &DRIFTS {
        let found = drifted(&rt, row)?;
        assert!(rt; found.replayed && found.whole && found.scanned);
        assert!(rt; !found.quiet || found.exact);
    }
    Ok(())
}

/// How many cores store to one line, the slack, which is at most the lookahead of 2, and where cores are held.
#[rattlefmt::skip]
const IN_TIME: [(u32, u64, &[Stop]); 8] = [
    (2, 1, &[]),
    (2, 2, &[]),
    (3, 1, &[]),
    (3, 2, &[]),
    (4, 1, &[]),
    (4, 2, &[]),
    // Legs end early, and finishing goes on from there.
    (2, 2, &[Stop { core: 1, clock: 100 }]),
    (4, 2, &[Stop { core: 0, clock: 40 }, Stop { core: 3, clock: 700 }]),
];

/// How many asks were served in an interval, and whether no post was late.
fn noted(note: &Interval) -> (usize, bool) {
    match note {
        Interval::Bounded { drift, seen, .. } => (drift.served.len(), are_in_time(seen)),
        _ => (0, false),
    }
}

/// How many intervals of 500 cycles a run of 1000 cycles has in which asks were served and no post was late, and how many
/// there are.
fn in_time<R: Threads + Sync>(
    rt: &R,
    alloc: Global,
    setup: &Setup,
    pace: &Pace,
    gate: &StopGate,
) -> Result<(usize, usize), OutOfMemory>
    requires fits { Fits setup.now.target.config.base setup.now.target.config.memory setup.now.image }
    requires code { setup.now.target.code ≡ code_of setup.now.image (numbers_of setup.now.target.config) }
    requires slack { (1 ≤ pace.now.slack) × (pace.now.slack ≤ TOP) }
    requires slots { 1 ≤ pace.now.slots }
{
    let machine = begun(alloc, setup)?;
    let run = bounded_run(rt, alloc, &setup.target, machine, 500, 1000, pace, gate)?;
    let notes = run.notes.as_slice();
    let good = notes
        .iter()
        .filter(|note| matches!(noted(note), (count, true) if count > 20));
    Ok((good.count(), notes.len()))
}

/// The same of so many cores that store to one line.
fn stored_in_time<R: Threads + Sync + Abort + AllocGlobal>(
    rt: &R,
    row: &(u32, u64, &[Stop]),
) -> Result<(usize, usize), Fail> {
    let (count, slack, stops) = *row;
    let pace = pace_of(slack, 65_536, 256);
    let setup = setup_of(rt, cores(count), &STORES_AGAIN)?;
    let gate = gate_of(rt.alloc(), stops)?;
    Ok(in_time(rt, rt.alloc(), &setup, &pace, &gate)?)
}

/// Where the slack is at most the lookahead, no post is late on any schedule.
#[test]
fn posts_in_time(rt: HostRuntime) -> Result<(), Fail> {
    for row in &IN_TIME {
        let (count, slack, _) = row;
        assert_eq!(rt;
            stored_in_time(&rt, row)?,
            (2, 2),
            "{count} cores, slack {slack}"
        );
    }
    Ok(())
}
