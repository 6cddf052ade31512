//! Runs in speculative mode: whatever the drifts were, the text is that of a run cycle by cycle.
ghost use Rattle.std.specs.Prelude.{true};

use crate::calling::{Case, ENDS, Noted, Text, assembled, check_all, check_programs, check_under};
use crate::samples::{EXIT, EXIT_REPORT, GENERATED, LOCK, LOCK_REPORT, STORES, STORES_REPORT};
use crate::threads::check_held;
use io_edge::Gate;
use std::sync::atomic::{AtomicBool, Ordering};
use std::test::Fail;

const NOTED: &[&str] = &[
    "run",
    "--cores",
    "2",
    "--mode",
    "speculative",
    "--notes",
    "on",
];

/// How many cores are held at their first clocks, and the text, three times.
const HELD: [(u32, Case); 2] = [
    // Core 1 asks first in the drift, which is rolled back for it.
    (
        1,
        Case {
            name: "core 0 is held at its first clock",
            words: NOTED,
            text: Text::Whole(&[
                STORES_REPORT,
                b"interval 0 rolled 1000 bus 1 map 1 line 0 reply 0\nbus channel 0 high 1.1.0 low 1.0.0\nmap line 256 high 1.1.0 low 1.0.0\nticks drift 2000 replay 2000\n",
            ]),
            times: 3,
            ..ENDS
        },
    ),
    // Finishing alone ticks the cores, in the order of a run cycle by cycle.
    (
        2,
        Case {
            name: "both cores are held at their first clocks",
            words: NOTED,
            text: Text::Whole(&[
                STORES_REPORT,
                b"interval 0 kept 1000\nticks drift 2000 replay 0\n",
            ]),
            times: 3,
            ..ENDS
        },
    ),
];

#[test]
fn cores_that_are_held(rt: HostRuntime) -> Result<(), Fail> {
    for (held, case) in &HELD {
        check_held(&rt, *held, case)?;
    }
    Ok(())
}

/// A gate that holds core 0 at each clock, and notes whether it was asked for it.
#[derive(Drop)]
struct HoldFirst {
    asked: AtomicBool,
}

impl Gate for HoldFirst {
    ghost use Rattle.std.specs.Prelude.{◌==◌, false};

    ghost may_hold = { λ _ who _. who == 0 };

    ghost must_hold = { λ _ _ _. false };

    ghost within = { λ _ _ _ held. cc };

    fn hold(&self, who: u32, _clock: u64) -> bool {
        if who == 0 {
            self.asked.store(true, Ordering::SeqCst);
        }
        who == 0
    }
}

const CORE_0_NEVER_TICKS: Case = Case {
    name: "core 0 is held at each clock",
    words: &["run", "--cores", "2", "--mode", "speculative"],
    text: Text::Whole(&[STORES_REPORT]),
    ..ENDS
};

/// Core 0 makes no tick in a leg: the patience is spent, and finishing completes the interval.
#[test]
fn a_core_that_is_always_held(rt: HostRuntime) -> Result<(), Fail> {
    let image = assembled(&rt, STORES)?;
    let gate = HoldFirst {
        asked: AtomicBool::new(false),
    };
    check_under(&rt, &CORE_0_NEVER_TICKS, image.as_slice(), &gate)?;
    assert!(rt; gate.asked.load(Ordering::SeqCst));
    Ok(())
}

const FILES: [Case; 3] = [
    Case {
        name: "one core that exits at once",
        words: &["run", "--mode", "speculative", "--notes", "on"],
        input: EXIT,
        text: Text::Whole(&[
            EXIT_REPORT,
            b"interval 0 kept 1000\nticks drift 1000 replay 0\n",
        ]),
        noted: Some(Noted {
            intervals: 1,
            cycles: 1000,
            drift_ticks: 1000,
        }),
        ..ENDS
    },
    Case {
        name: "a generated program",
        words: &[
            "gen",
            "--seed",
            "7",
            "--cores",
            "4",
            "--mode",
            "speculative",
        ],
        text: Text::Whole(&[GENERATED]),
        noted: Some(Noted {
            intervals: 7,
            cycles: 7000,
            drift_ticks: 28000,
        }),
        ..ENDS
    },
    Case {
        name: "the same with a greater slack and longer intervals",
        words: &[
            "gen",
            "--seed",
            "7",
            "--cores",
            "4",
            "--mode",
            "speculative",
            "--slack",
            "64",
            "--interval",
            "5000",
        ],
        text: Text::Whole(&[GENERATED]),
        noted: Some(Noted {
            intervals: 2,
            cycles: 10000,
            drift_ticks: 40000,
        }),
        ..ENDS
    },
];

#[test]
fn speculations_of_files(rt: HostRuntime) -> Result<(), Fail> {
    check_all(&rt, &FILES)
}

const SHORT: [Case; 2] = [
    Case {
        name: "an interval that the limit ends",
        words: &[
            "run",
            "--cores",
            "2",
            "--mode",
            "speculative",
            "--limit",
            "100",
        ],
        input: STORES,
        text: Text::Whole(&[STORES_REPORT]),
        noted: Some(Noted {
            intervals: 1,
            cycles: 100,
            drift_ticks: 200,
        }),
        ..ENDS
    },
    // Two ticks in each, and each drift is in order.
    Case {
        name: "intervals of one cycle",
        words: &[
            "run",
            "--cores",
            "2",
            "--mode",
            "speculative",
            "--slack",
            "1",
            "--interval",
            "1",
        ],
        input: STORES,
        text: Text::Whole(&[STORES_REPORT]),
        noted: Some(Noted {
            intervals: 22,
            cycles: 22,
            drift_ticks: 44,
        }),
        times: 20,
        ..ENDS
    },
];

#[test]
fn short_intervals(rt: HostRuntime) -> Result<(), Fail> {
    check_programs(&rt, &SHORT)
}

const LOCKS: [Case; 1] = [Case {
    name: "a lock that four cores share",
    words: &["run", "--cores", "4", "--mode", "speculative"],
    input: LOCK,
    text: Text::Whole(&[LOCK_REPORT]),
    times: 20,
    ..ENDS
}];

#[test]
fn a_lock_that_cores_share(rt: HostRuntime) -> Result<(), Fail> {
    check_programs(&rt, &LOCKS)
}
