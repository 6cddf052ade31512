//! Drifts on one thread, and by threads: whatever the pace and wherever cores are held, each is one, its monitors see what is
//! to be seen, and where nothing is seen it ended as lockstep does.

use crate::drifts::{at_once, gate_of, in_turn, is_repeated, pace_of};
use crate::machines::{STORES, setup_of};
use crate::replays::Verdict;
use io_edge::Stop;
use slack_base::RawConfig;
use std::process::Abort;
use std::test::Fail;
use std::thread::Threads;

/// How many slots a ring has, the slack, and how many idle turns in a row end a leg.
#[rattlefmt::skip]
const PACES: [(u32, u64, u32); 18] = [
    (1, 1, 0), (1, 1, 1), (1, 1, 1000), (1, 8, 0), (1, 8, 1), (1, 8, 1000), (1, 1000, 0), (1, 1000, 1), (1, 1000, 1000),
    (256, 1, 0), (256, 1, 1), (256, 1, 1000), (256, 8, 0), (256, 8, 1), (256, 8, 1000), (256, 1000, 0), (256, 1000, 1), (256, 1000, 1000),
];

/// Where cores are held, and whether surely nothing is seen.
#[rattlefmt::skip]
const HOLDS: [(&str, &[Stop], bool); 4] = [
    ("free", &[], false),
    ("a core before its first cycle", &[Stop { core: 0, clock: 0 }], false),
    // Finishing alone ticks the cores, in the order of lockstep.
    ("both cores before their first cycle", &[Stop { core: 0, clock: 0 }, Stop { core: 1, clock: 0 }], true),
    ("each in the midst of a store", &[Stop { core: 0, clock: 3 }, Stop { core: 1, clock: 1 }], false),
];

const CYCLES: u64 = 100;

/// Two cores with no more memory than they need.
const SMALL: RawConfig = RawConfig {
    cores: 2,
    memory: 8192,
    ..RawConfig::DEFAULT
};

/// What is found of two cores that store to one line, on one thread and by threads.
fn race<R: Threads + Sync + Abort + AllocGlobal>(
    rt: &R,
    pace: &(u32, u64, u32),
    stops: &[Stop],
) -> Result<(Verdict, Verdict), Fail> {
    let (slots, slack, patience) = *pace;
    let pace = pace_of(slack, patience, slots);
    let setup = setup_of(rt, SMALL, &STORES)?;
    let gate = gate_of(rt.alloc(), stops)?;
    let first = in_turn(rt.alloc(), &setup, CYCLES, &pace, &gate)?;
    let second = at_once(rt, rt.alloc(), &setup, CYCLES, &pace, &gate)?;
    Ok((first, second))
}

/// Whether a drift of a race is one, with what its monitors saw, and where nothing is seen it ended as lockstep does.
fn is_sound(found: &Verdict) -> bool {
    found.replayed && found.whole && found.scanned && (!found.quiet || found.exact)
}

#[test]
fn races(rt: HostRuntime) -> Result<(), Fail> {
    for (name, stops, quiet) in &HOLDS {
        for pace in &PACES {
            let (first, second) = race(&rt, pace, stops)?;
            assert!(rt; is_sound(&first) && is_sound(&second), "{name}, {pace:?}");
            assert!(rt;
                !*quiet || (first.quiet && second.quiet),
                "{name}, {pace:?}"
            );
        }
    }
    Ok(())
}

/// Whether a race on one thread comes out again as it did.
fn comes_again<R: Abort + AllocGlobal>(rt: &R) -> Result<bool, Fail> {
    let pace = pace_of(8, 1000, 1);
    let setup = setup_of(rt, SMALL, &STORES)?;
    let gate = gate_of(rt.alloc(), &[])?;
    Ok(is_repeated(rt.alloc(), &setup, CYCLES, &pace, &gate)?)
}

/// The same drift comes out each time. Whichever allocation is refused, this ends for want of memory, or passes: `python3
/// outside/refused_memory.py` refuses each.
#[test]
fn a_race_that_is_repeated(rt: HostRuntime) -> Result<(), Fail> {
    assert!(rt; comes_again(&rt)?);
    Ok(())
}
