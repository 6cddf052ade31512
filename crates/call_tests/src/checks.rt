//! Runs with the lines that are not coherent behind the report. Each report and each broken line is worked out by hand.
use crate::calling::{Case, ENDS, Text, check_programs};
use crate::samples::{STORES, STORES_AFTER_LOAD, STORES_REPORT};
use std::test::Fail;

const CHECKS: [Case; 3] = [
    // Two cores store to one line: the second takes it from the first.
    Case {
        name: "two cores store to one line",
        words: &["run", "--cores", "2", "--check", "on"],
        input: STORES,
        text: Text::Whole(&[STORES_REPORT, b"coherence 0\n"]),
        ..ENDS
    },
    // Core 0 ticks to the end before it is told of core 1's store to the line 256. It holds it Shared still, and core 1
    // holds it Modified.
    Case {
        name: "a store of which a core is told at the end",
        words: &[
            "run",
            "--cores",
            "2",
            "--mode",
            "script",
            "--interval",
            "100",
            "--limit",
            "100",
            "--check",
            "on",
            "--notes",
            "on",
            "--steps",
            "t0x2,s0,t1x2,s1,p0,p1,t1x4,s1,p1,t1x2,s1,p1,t1x2,s1,p1,t1x2,s1,p1,t1x2,s1,p0,t0x98",
        ],
        input: STORES_AFTER_LOAD,
        text: Text::Whole(&[
            b"cores 2\ncycles 34\ncore 0 exit 0 at 15 retired 6 accesses 1 misses 1 retries 0 waits 9 snoops 1 writebacks 0\ncore 1 exit 0 at 33 retired 7 accesses 2 misses 7 retries 5 waits 20 snoops 0 writebacks 0\nbus 0 asks 9 retries 5 free 22\nconsole 0\n\ncoherence 1\nbroken line 256\ninterval 0 bounded 100 bus 0 map 0 line 1 reply 0\nline core 0 id 20.1.0 due 22 clock 100\nticks drift 200 replay 0\n",
        ]),
        ..ENDS
    },
    // Cycle by cycle core 0 is told in time. The text stands behind the report in any format.
    Case {
        name: "a store of which a core is told in time",
        words: &["run", "--cores", "2", "--check", "on", "--format", "dump"],
        input: STORES_AFTER_LOAD,
        text: Text::Whole(&[
            b"00000000 00001437 00042283 00050463 00842023\n00000010 05d00893 00000513 00000073 00000000\n00001000 00001000 00000000 00000000 00000000\ncoherence 0\n",
        ]),
        ..ENDS
    },
];

#[test]
fn lines_that_break(rt: HostRuntime) -> Result<(), Fail> {
    check_programs(&rt, &CHECKS)
}
