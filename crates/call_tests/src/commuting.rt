//! Asks and invalidations that come out of order and change nothing. Each report is worked out by hand.
use crate::calling::{Case, ENDS, Text, check_programs};
use crate::samples::STORES_AFTER_LOAD;
use std::test::Fail;

/// Core 0 loads the word of one line, and core 1, after a product, that of the next. Both exit with 0.
const TWO_LINES: &[u8] = b"lui x8, 1
        bne x10, x0, other
        lw x5, 0(x8)
        jal x0, done
other:  mul x5, x5, x5
        lw x6, 16(x8)
done:   addi x17, x0, 93
        addi x10, x0, 0
        ecall";

/// The report of the same where an ask takes its bus for two cycles: core 0 asks in cycle 2 and is done with the bus in 4,
/// before core 1 asks in 5.
const FREE_AT_7: &[u8] =
    b"cores 2\ncycles 19\ncore 0 exit 0 at 16 retired 7 accesses 1 misses 1 retries 0 waits 9 snoops 0 writebacks 0\ncore 1 exit 0 at 18 retired 7 accesses 1 misses 1 retries 0 waits 9 snoops 0 writebacks 0\nbus 0 asks 2 retries 0 free 7\nconsole 0\n\n";

/// The same where an ask takes its bus for three cycles.
const FREE_AT_8: &[u8] =
    b"cores 2\ncycles 19\ncore 0 exit 0 at 16 retired 7 accesses 1 misses 1 retries 0 waits 9 snoops 0 writebacks 0\ncore 1 exit 0 at 18 retired 7 accesses 1 misses 1 retries 0 waits 9 snoops 0 writebacks 0\nbus 0 asks 2 retries 0 free 8\nconsole 0\n\n";

/// The report of two cores that load a word, to which core 1 then stores.
const TOLD: &[u8] =
    b"cores 2\ncycles 34\ncore 0 exit 0 at 15 retired 6 accesses 1 misses 1 retries 0 waits 9 snoops 2 writebacks 0\ncore 1 exit 0 at 33 retired 7 accesses 2 misses 7 retries 5 waits 20 snoops 0 writebacks 0\nbus 0 asks 9 retries 5 free 22\nconsole 0\n\n";

/// The notes of a run cycle by cycle.
const NO_DRIFT: &[u8] = b"ticks drift 0 replay 0\n";

/// Each interleaving, and behind it the same words without mode and steps. Where nothing is recorded the reports are the same.
const CASES: [Case; 8] = [
    // Core 1 asks in cycle 5 and is served first. Core 0's ask of cycle 2 is done with the bus in cycle 4.
    Case {
        name: "an ask is served late, in a gap",
        words: &[
            "run",
            "--cores",
            "2",
            "--mode",
            "script",
            "--notes",
            "on",
            "--steps",
            "t1x6,s1,t0x3,s0",
        ],
        input: TWO_LINES,
        text: Text::Whole(&[
            FREE_AT_7,
            b"interval 0 bounded 1000 bus 0 map 0 line 0 reply 0\nticks drift 2000 replay 0\n",
        ]),
        ..ENDS
    },
    Case {
        name: "an ask is served late, in a gap: cycle by cycle",
        words: &["run", "--cores", "2", "--notes", "on"],
        input: TWO_LINES,
        text: Text::Whole(&[FREE_AT_7, NO_DRIFT]),
        ..ENDS
    },
    // In cycle 5 it is done just in time.
    Case {
        name: "an ask just fits into a gap",
        words: &[
            "run",
            "--cores",
            "2",
            "--mode",
            "script",
            "--notes",
            "on",
            "--occupancy",
            "3",
            "--steps",
            "t1x6,s1,t0x3,s0",
        ],
        input: TWO_LINES,
        text: Text::Whole(&[
            FREE_AT_8,
            b"interval 0 bounded 1000 bus 0 map 0 line 0 reply 0\nticks drift 2000 replay 0\n",
        ]),
        ..ENDS
    },
    Case {
        name: "an ask just fits into a gap: cycle by cycle",
        words: &["run", "--cores", "2", "--notes", "on", "--occupancy", "3"],
        input: TWO_LINES,
        text: Text::Whole(&[FREE_AT_8, NO_DRIFT]),
        ..ENDS
    },
    // In cycle 6 it isn't: it gets the bus in cycle 9, after core 1.
    Case {
        name: "an ask that does not fit",
        words: &[
            "run",
            "--cores",
            "2",
            "--mode",
            "script",
            "--notes",
            "on",
            "--occupancy",
            "4",
            "--steps",
            "t1x6,s1,t0x3,s0",
        ],
        input: TWO_LINES,
        text: Text::Whole(&[
            b"cores 2\ncycles 24\ncore 0 exit 0 at 23 retired 7 accesses 1 misses 1 retries 0 waits 16 snoops 0 writebacks 0\ncore 1 exit 0 at 18 retired 7 accesses 1 misses 1 retries 0 waits 9 snoops 0 writebacks 0\nbus 0 asks 2 retries 0 free 13\nconsole 0\n\ninterval 0 bounded 1000 bus 1 map 0 line 0 reply 0\nbus channel 0 high 5.1.0 low 2.0.0\nticks drift 2000 replay 0\n",
        ]),
        ..ENDS
    },
    // Cycle by cycle core 1 gets the bus in cycle 6, when it is free again.
    Case {
        name: "an ask that does not fit: cycle by cycle",
        words: &["run", "--cores", "2", "--notes", "on", "--occupancy", "4"],
        input: TWO_LINES,
        text: Text::Whole(&[
            b"cores 2\ncycles 20\ncore 0 exit 0 at 16 retired 7 accesses 1 misses 1 retries 0 waits 9 snoops 0 writebacks 0\ncore 1 exit 0 at 19 retired 7 accesses 1 misses 1 retries 0 waits 10 snoops 0 writebacks 0\nbus 0 asks 2 retries 0 free 10\nconsole 0\n\n",
            NO_DRIFT,
        ]),
        ..ENDS
    },
    // Core 0 is told in cycle 25 of the store for which its line was due to leave in 22. It last touched the line's set in 15.
    Case {
        name: "an invalidation of a set left alone",
        words: &[
            "run",
            "--cores",
            "2",
            "--mode",
            "script",
            "--interval",
            "100",
            "--limit",
            "100",
            "--notes",
            "on",
            "--steps",
            "t0x2,s0,t1x2,s1,p0,p1,t1x4,s1,p1,t1x2,s1,p1,t1x2,s1,p1,t1x2,s1,p1,t1x2,s1,p0,t0x23",
        ],
        input: STORES_AFTER_LOAD,
        text: Text::Whole(&[
            TOLD,
            b"interval 0 bounded 100 bus 0 map 0 line 0 reply 0\nticks drift 200 replay 0\n",
        ]),
        ..ENDS
    },
    Case {
        name: "an invalidation of a set left alone: cycle by cycle",
        words: &[
            "run",
            "--cores",
            "2",
            "--interval",
            "100",
            "--limit",
            "100",
            "--notes",
            "on",
        ],
        input: STORES_AFTER_LOAD,
        text: Text::Whole(&[TOLD, NO_DRIFT]),
        ..ENDS
    },
];

#[test]
fn what_commutes_passes(rt: HostRuntime) -> Result<(), Fail> {
    check_programs(&rt, &CASES)
}
