//! Drifts in given interleavings. Where cores run ahead and the monitors see nothing, the end is that of lockstep.

use crate::drifts::scripted;
use crate::machines::{LOADS, Program, STORES, cores, setup_of};
use crate::replays::Verdict;
use slack_base::{OutOfMemory, Step, StepList};
use std::alloc::Global;
use std::process::Abort;
use std::test::Fail;
use workload_gen::steps;

/// A step, and how often it is taken.
type Steps = &'static [(Step, u32)];

/// How many cores, the file that they run, over how many cycles, and the steps.
type Quiet = (u32, Program, u64, Steps);

const QUIET: [Quiet; 4] = [
    // No step: finishing alone.
    (2, STORES, 100, &[]),
    // Core 0 asks at 1 and runs ahead to 11, when its reply is due. Core 1's asks come later, in their order.
    (
        2,
        STORES,
        100,
        &[(Step::Tick { core: 0 }, 11), (Step::Serve { core: 0 }, 1)],
    ),
    // Core 1 runs ahead too, to 3: it asked at 1, behind core 0, and before core 2.
    (
        3,
        STORES,
        100,
        &[
            (Step::Tick { core: 0 }, 11),
            (Step::Serve { core: 0 }, 1),
            (Step::Tick { core: 1 }, 3),
            (Step::Serve { core: 1 }, 1),
        ],
    ),
    // The reply is taken at the end, when it is due, and waits.
    (
        1,
        LOADS,
        11,
        &[(Step::Tick { core: 0 }, 11), (Step::Serve { core: 0 }, 1)],
    ),
];

/// The steps one by one.
fn list_of(alloc: Global, steps: Steps) -> Result<StepList, OutOfMemory> {
    let mut list = StepList::new(alloc);
    for (step, times) in steps {
        for _ in 0..*times {
            list.push(*step)?;
        }
    }
    Ok(list)
}

/// What is found of a drift in which cores run ahead.
fn ahead<R: Abort + AllocGlobal>(rt: &R, row: &Quiet) -> Result<Verdict, Fail> {
    let (count, file, cycles, steps) = row;
    let setup = setup_of(rt, cores(*count), file)?;
    let list = list_of(rt.alloc(), steps)?;
    Ok(scripted(rt.alloc(), &setup, (*cycles).min(1000), &list)?)
}

#[test]
fn cores_ahead(rt: HostRuntime) -> Result<(), Fail> {
    for row in &QUIET {
        let found = ahead(&rt, row)?;
        assert!(rt; found.quiet && found.exact);
        assert!(rt; found.replayed && found.whole && found.scanned);
    }
    Ok(())
}

/// What is found of two cores that store to one line in 500 random steps.
fn at_random<R: Abort + AllocGlobal>(rt: &R, number: u32) -> Result<Verdict, Fail> {
    let setup = setup_of(rt, cores(2), &STORES)?;
    let list = steps(rt.alloc(), number, 2, 500)?;
    Ok(scripted(rt.alloc(), &setup, 100, &list)?)
}

/// Each is gone through once more.
#[test]
fn drifts_of_random_steps(rt: HostRuntime) -> Result<(), Fail> {
    for number in 1..=32 {
        let found = at_random(&rt, number)?;
        assert!(rt; found.replayed && found.whole && found.scanned, "{number}");
        assert!(rt; !found.quiet, "{number}");
    }
    Ok(())
}
