//! Runs of drifts by threads, under gates that hold cores or let them meet.
ghost use Rattle.std.specs.Prelude.{false};

use crate::calling::{Case, ENDS, Text, WHOLE, assembled, call_under, check_all, check_under};
use crate::samples::{CHANGED_PLACES, EXIT, EXIT_REPORT, LOCK, STORES, STORES_REPORT};
use crossbeam_utils::CachePadded;
use io_edge::{Gate, NeverHold, Stop, StopGate, StopList};
use std::alloc::Global;
use std::process::Abort;
use std::sync::atomic::{AtomicBool, Ordering};
use std::test::Fail;
use std::thread;
use std::thread::Threads;

/// A gate that holds so many cores at their first clocks.
pub fn stop_first(alloc: Global, cores: u32) -> Result<StopGate, Fail> {
    let mut stops = StopList::new(alloc);
    for core in 0..cores {
        stops.push(Stop { core, clock: 0 })?;
    }
    Ok(StopGate { stops })
}

/// Core 0 is held at its first clock, so core 1 ticks as far as the slack allows, and asks first: the two change places, on
/// every schedule.
const CORE_0_IS_HELD: Case = Case {
    name: "core 0 is held at its first clock",
    words: &["run", "--cores", "2", "--mode", "bounded", "--notes", "on"],
    text: Text::Whole(&[
        CHANGED_PLACES,
        b"interval 0 bounded 1000 bus 1 map 1 line 0 reply 0\nbus channel 0 high 1.1.0 low 1.0.0\nmap line 256 high 1.1.0 low 1.0.0\nticks drift 2000 replay 0\n",
    ]),
    times: 5,
    ..ENDS
};

/// Both cores are held at their first clocks, so that finishing alone ticks them, in the order of a run cycle by cycle.
const BOTH_ARE_HELD: Case = Case {
    name: "both cores are held at their first clocks",
    words: &["run", "--cores", "2", "--mode", "bounded", "--notes", "on"],
    text: Text::Whole(&[
        STORES_REPORT,
        b"interval 0 bounded 1000 bus 0 map 0 line 0 reply 0\nticks drift 2000 replay 0\n",
    ]),
    ..ENDS
};

/// Goes through a row under a gate that holds so many cores at their first clocks. Each run spends the whole patience of its
/// legs, on a busy machine some seconds.
pub fn check_held<R: Threads + Sync + Abort + AllocGlobal>(
    rt: &R,
    cores: u32,
    case: &Case,
) -> Result<(), Fail> {
    let image = assembled(rt, STORES)?;
    let gate = stop_first(rt.alloc(), cores)?;
    check_under(rt, case, image.as_slice(), &gate)
}

#[test]
fn a_core_that_is_held(rt: HostRuntime) -> Result<(), Fail> {
    check_held(&rt, 1, &CORE_0_IS_HELD)
}

#[test]
fn a_core_that_is_held_again(rt: HostRuntime) -> Result<(), Fail> {
    check_held(&rt, 1, &CORE_0_IS_HELD)
}

#[test]
fn a_core_that_is_held_a_third_time(rt: HostRuntime) -> Result<(), Fail> {
    check_held(&rt, 1, &CORE_0_IS_HELD)
}

#[test]
fn a_core_that_is_held_a_fourth_time(rt: HostRuntime) -> Result<(), Fail> {
    check_held(&rt, 1, &CORE_0_IS_HELD)
}

#[test]
fn cores_that_are_held(rt: HostRuntime) -> Result<(), Fail> {
    check_held(&rt, 2, &BOTH_ARE_HELD)
}

const ALONE: [Case; 1] = [Case {
    name: "one core that exits at once",
    words: &["run", "--mode", "bounded", "--notes", "on"],
    input: EXIT,
    text: Text::Whole(&[
        EXIT_REPORT,
        b"interval 0 bounded 1000 bus 0 map 0 line 0 reply 0\nticks drift 1000 replay 0\n",
    ]),
    ..ENDS
}];

#[test]
fn one_core_by_threads(rt: HostRuntime) -> Result<(), Fail> {
    check_all(&rt, &ALONE)
}

/// A gate at which two cores meet at clock 8: each sets its flag and waits some time for the other's.
#[derive(Drop)]
struct MeetGate {
    first: CachePadded<AtomicBool>,
    second: CachePadded<AtomicBool>,
    first_saw: AtomicBool,
    second_saw: AtomicBool,
}

/// Sets a flag, and tells in `saw` whether the other one was seen set.
fn meet(mine: &AtomicBool, theirs: &AtomicBool, saw: &AtomicBool) {
    mine.store(true, Ordering::SeqCst);
    for _ in 0..100_000_000u32 {
        if theirs.load(Ordering::SeqCst) {
            saw.store(true, Ordering::SeqCst);
            return;
        }
        thread::yield_now();
    }
}

impl Gate for MeetGate {
    ghost may_hold = { λ _ _ _. false };

    ghost must_hold = { λ _ _ _. false };

    ghost within = { λ _ _ _ held. held };

    fn hold(&self, who: u32, clock: u64) -> bool {
        match (who, clock) {
            (0, 8) => meet(&self.first, &self.second, &self.first_saw),
            (1, 8) => meet(&self.second, &self.first, &self.second_saw),
            _ => {}
        }
        false
    }
}

impl MeetGate {
    fn new() -> MeetGate {
        MeetGate {
            first: CachePadded::new(AtomicBool::new(false)),
            second: CachePadded::new(AtomicBool::new(false)),
            first_saw: AtomicBool::new(false),
            second_saw: AtomicBool::new(false),
        }
    }

    /// Whether each core saw the other's flag.
    fn met(&self) -> bool {
        self.first_saw.load(Ordering::SeqCst) && self.second_saw.load(Ordering::SeqCst)
    }
}

/// Whether two cores met in a run in this mode, which ended well.
fn meets<R: Threads + Sync + AllocGlobal>(rt: &R, mode: &str) -> Result<bool, Fail> {
    let image = assembled(rt, STORES)?;
    let gate = MeetGate::new();
    let words = ["run", "--cores", "2", "--mode", mode, "--slack", "64"];
    let outcome = call_under(rt, &words, image.as_slice(), &WHOLE, &gate)?;
    Ok(outcome.status == 0 && gate.met())
}

/// What runs on one thread alone never meets.
#[test]
fn two_cores_meet(rt: HostRuntime) -> Result<(), Fail> {
    for mode in ["bounded", "speculative"] {
        assert!(rt; meets(&rt, mode)?, "{mode}");
    }
    Ok(())
}

/// The words of a run of the lock in which no core is ahead by more cycles than the least time from an ask to its post.
const SMALL_SLACKS: [&[&str]; 2] = [
    &[
        "run",
        "--cores",
        "4",
        "--mode",
        "bounded",
        "--slack",
        "1",
        "--interval",
        "500",
        "--notes",
        "on",
    ],
    &[
        "run",
        "--cores",
        "4",
        "--mode",
        "bounded",
        "--slack",
        "2",
        "--interval",
        "500",
        "--notes",
        "on",
    ],
];

/// How many lines of a text begin so, and how many of these end so.
fn lines_that_say(text: &[u8], front: &[u8], back: &[u8]) -> (u32, u32) {
    let mut lines = 0u32;
    let mut said = 0u32;
    for line in text.split(|byte| *byte == b'\n') {
        if line.starts_with(front) {
            lines = lines.saturating_add(1);
            if line.ends_with(back) {
                said = said.saturating_add(1);
            }
        }
    }
    (lines, said)
}

/// No post is taken late.
#[test]
fn a_slack_of_the_lookahead(rt: HostRuntime) -> Result<(), Fail> {
    let image = assembled(&rt, LOCK)?;
    for words in &SMALL_SLACKS {
        let outcome = call_under(&rt, words, image.as_slice(), &WHOLE, &NeverHold)?;
        let (lines, said) = lines_that_say(
            outcome.text.as_slice(),
            b"interval ",
            b" line 0 reply 0",
        );
        assert!(rt; lines > 0);
        assert_eq!(rt; said, lines);
    }
    Ok(())
}
