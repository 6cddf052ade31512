//! Runs in a given interleaving and in pieces of some cycles, with the reports and the notes that the rules give.
use crate::calling::{Case, ENDS, Text, check_programs};
use crate::samples::{CHANGED_PLACES, STORES, STORES_REPORT};
use simulate_call::Answer;
use std::test::Fail;

/// A core loads a word, and exits with 0.
const LOADS: &[u8] = b"lui x8, 1\nlw x5, 0(x8)\naddi x17, x0, 93\naddi x10, x0, 0\necall";

const DRIFTS: [Case; 7] = [
    // Core 1 runs ahead, and its ask is served before core 0's of the same cycle: the two change places.
    Case {
        name: "core 1 asks first",
        words: &[
            "run",
            "--cores",
            "2",
            "--mode",
            "script",
            "--notes",
            "on",
            "--steps",
            "t1x2,s1,t0x2,s0",
        ],
        input: STORES,
        text: Text::Whole(&[
            CHANGED_PLACES,
            b"interval 0 bounded 1000 bus 1 map 1 line 0 reply 0\nbus channel 0 high 1.1.0 low 1.0.0\nmap line 256 high 1.1.0 low 1.0.0\nticks drift 2000 replay 0\n",
        ]),
        ..ENDS
    },
    // Core 0 ticks through all cycles at once: its reply, and the snoop for core 1's ask, are taken at the end.
    Case {
        name: "core 0 ticks through all cycles",
        words: &[
            "run",
            "--cores",
            "2",
            "--mode",
            "script",
            "--interval",
            "100",
            "--limit",
            "100",
            "--notes",
            "on",
            "--steps",
            "t0x100",
        ],
        input: STORES,
        answer: Answer::Limit {
            cycle: 100,
            running: 2,
        },
        status: 4,
        text: Text::Whole(&[
            b"cores 2\ncycles 100\ncore 0 running at 100 retired 1 accesses 0 misses 1 retries 0 waits 98 snoops 0 writebacks 0\ncore 1 running at 100 retired 1 accesses 0 misses 6 retries 5 waits 93 snoops 0 writebacks 0\nbus 0 asks 7 retries 5 free 15\nconsole 0\n\ninterval 0 bounded 100 bus 0 map 0 line 1 reply 1\nreply core 0 id 1.0.0 due 11 clock 100\nline core 0 id 13.1.0 due 15 clock 100\nticks drift 200 replay 0\n",
        ]),
        ..ENDS
    },
    // The reply is due at 11, and the core takes it at 12, which is the end: it is late.
    Case {
        name: "a reply that is late",
        words: &[
            "run",
            "--mode",
            "script",
            "--interval",
            "12",
            "--limit",
            "12",
            "--notes",
            "on",
            "--steps",
            "t0x12,s0",
        ],
        input: LOADS,
        answer: Answer::Limit {
            cycle: 12,
            running: 1,
        },
        status: 4,
        text: Text::Whole(&[
            b"cores 1\ncycles 12\ncore 0 running at 12 retired 1 accesses 0 misses 1 retries 0 waits 10 snoops 0 writebacks 0\nbus 0 asks 1 retries 0 free 3\nconsole 0\n\ninterval 0 bounded 12 bus 0 map 0 line 0 reply 1\nreply core 0 id 1.0.0 due 11 clock 12\nticks drift 12 replay 0\n",
        ]),
        ..ENDS
    },
    // Taken at 11, it isn't late. The run is of one interval, whatever the limit.
    Case {
        name: "a reply that is in time",
        words: &[
            "run",
            "--mode",
            "script",
            "--interval",
            "11",
            "--notes",
            "on",
            "--steps",
            "t0x11,s0",
        ],
        input: LOADS,
        answer: Answer::Limit {
            cycle: 11,
            running: 1,
        },
        status: 4,
        text: Text::Whole(&[
            b"cores 1\ncycles 11\ncore 0 running at 11 retired 1 accesses 0 misses 1 retries 0 waits 9 snoops 0 writebacks 0\nbus 0 asks 1 retries 0 free 3\nconsole 0\n\ninterval 0 bounded 11 bus 0 map 0 line 0 reply 0\nticks drift 11 replay 0\n",
        ]),
        ..ENDS
    },
    // Two cycles are the least time from an ask to its post: with two or one it is as if cycle by cycle.
    Case {
        name: "pieces of two cycles",
        words: &["run", "--cores", "2", "--mode", "quantum", "--quantum", "2"],
        input: STORES,
        text: Text::Whole(&[STORES_REPORT]),
        ..ENDS
    },
    Case {
        name: "pieces of one cycle",
        words: &["run", "--cores", "2", "--mode", "quantum", "--quantum", "1"],
        input: STORES,
        text: Text::Whole(&[STORES_REPORT]),
        ..ENDS
    },
    // With three, core 1 takes its retry of 11 at 12, and core 0 the snoop of 14 at 15.
    Case {
        name: "pieces of three cycles",
        words: &[
            "run",
            "--cores",
            "2",
            "--mode",
            "quantum",
            "--quantum",
            "3",
            "--notes",
            "on",
        ],
        input: STORES,
        text: Text::Whole(&[
            b"cores 2\ncycles 22\ncore 0 exit 0 at 14 retired 5 accesses 1 misses 1 retries 0 waits 9 snoops 1 writebacks 0\ncore 1 exit 0 at 21 retired 5 accesses 1 misses 5 retries 4 waits 12 snoops 0 writebacks 0\nbus 0 asks 7 retries 4 free 17\nconsole 0\n\ninterval 0 bounded 1000 bus 0 map 0 line 1 reply 1\nline core 0 id 12.1.0 due 14 clock 15\nreply core 1 id 9.1.0 due 11 clock 12\nticks drift 2000 replay 0\n",
        ]),
        ..ENDS
    },
];

#[test]
fn drifts_that_are_told(rt: HostRuntime) -> Result<(), Fail> {
    check_programs(&rt, &DRIFTS)
}
