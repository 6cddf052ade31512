//! Calls whose inputs are files or texts as they stand.
use crate::calling::{Case, ENDS, NOT_ALL_ZERO, Text, check_all, check_under};
use crate::samples::{EXIT, EXIT_REPORT, GENERATED, STORE};
use io_edge::NeverHold;
use simulate_call::Answer;
use slack_base::{AsmFault, AsmKind, ConfigFault, ImageFault, WordFault};
use std::test::Fail;

/// The packed file of an exit with 0.
const PACKED_EXIT: &[u8] =
    b"SLK2\0\0\0\0\x01\0\0\0\0\0\0\0\x0c\0\0\0\x0c\0\0\0\x93\x08\xd0\x05\x13\x05\0\0\x73\0\0\0";

/// A flat file of `ecall` alone.
const CALL: &[u8] = b"SLK1\0\0\0\0\0\0\0\0\x04\0\0\0\x73\0\0\0";

/// A flat file at 65536 of `addi x10, x2, 0` and an exit: each core exits with what x2 is at the start.
const STACKS: &[u8] = b"SLK1\0\0\x01\0\0\0\x01\0\x0c\0\0\0\x13\x05\x01\0\x93\x08\xd0\x05\x73\0\0\0";

/// Calls that give a text, or are refused for their input.
const TEXTS: [Case; 15] = [
    Case {
        name: "an exit is assembled",
        words: &["asm"],
        input: b"addi a7, x0, 93\naddi a0, x0, 0\necall\n",
        text: Text::Whole(&[EXIT]),
        ..ENDS
    },
    Case {
        name: "a text with nothing is a file with a base",
        words: &["asm", "--base", "4096"],
        text: Text::Whole(&[b"SLK1\0\x10\0\0\0\x10\0\0\0\0\0\0"]),
        ..ENDS
    },
    Case {
        name: "an immediate that is too great",
        words: &["asm"],
        input: b"addi a0, x0, 2048\n",
        answer: Answer::BadText(AsmFault {
            line: 1,
            kind: AsmKind::Range,
        }),
        status: 3,
        ..ENDS
    },
    Case {
        name: "an input with nothing",
        words: &["run"],
        answer: Answer::BadImage(ImageFault::Short { have: 0, need: 4 }),
        status: 3,
        ..ENDS
    },
    Case {
        name: "no kind of file",
        words: &["run"],
        input: b"SLK3 and more",
        answer: Answer::BadImage(ImageFault::Magic),
        status: 3,
        ..ENDS
    },
    Case {
        name: "an image is listed",
        words: &["list"],
        input: EXIT,
        text: Text::Whole(&[
            b"00000000 05d00893 addi x17, x0, 93\n00000004 00000513 addi x10, x0, 0\n00000008 00000073 ecall\n",
        ]),
        ..ENDS
    },
    Case {
        name: "an image is packed",
        words: &["pack"],
        input: EXIT,
        text: Text::Whole(&[PACKED_EXIT]),
        ..ENDS
    },
    Case {
        name: "a segment below memory",
        words: &["pack", "--base", "4096", "--memory", "4096"],
        input: PACKED_EXIT,
        answer: Answer::BadImage(ImageFault::Outside { index: 0 }),
        status: 3,
        ..ENDS
    },
    Case {
        name: "a packed file is run",
        words: &["run"],
        input: PACKED_EXIT,
        text: Text::Whole(&[EXIT_REPORT]),
        ..ENDS
    },
    Case {
        name: "a report as JSON",
        words: &["run", "--format", "json"],
        input: EXIT,
        text: Text::Whole(&[
            b"{\"buses\":[{\"asks\":0,\"free\":0,\"retries\":0}],\"console\":\"\",\"cores\":[{\"accesses\":0,\"at\":2,\"end\":\"exit\",\"misses\":0,\"retired\":3,\"retries\":0,\"snoops\":0,\"value\":0,\"waits\":0,\"writebacks\":0}],\"cycles\":3}\n",
        ]),
        ..ENDS
    },
    // The line of 00001000 has core 1's number: its cache holds the line in state Modified.
    Case {
        name: "memory as it is at the end",
        words: &["run", "--cores", "2", "--format", "dump"],
        input: STORE,
        text: Text::Whole(&[
            b"00000000 00001437 00a42023 05d00893 00000513\n00000010 00000073 00000000 00000000 00000000\n00001000 00000001 00000000 00000000 00000000\n",
        ]),
        ..ENDS
    },
    Case {
        name: "no notes cycle by cycle",
        words: &["run", "--notes", "on"],
        input: EXIT,
        text: Text::Whole(&[EXIT_REPORT, b"ticks drift 0 replay 0\n"]),
        ..ENDS
    },
    // There is no service 0: each of two cores is trapped in its first cycle.
    Case {
        name: "zeros before a number",
        words: &["run", "--cores", "002"],
        input: CALL,
        answer: NOT_ALL_ZERO,
        status: 1,
        text: Text::Whole(&[
            b"cores 2\ncycles 1\ncore 0 trap call 00000000 at 0 retired 0 accesses 0 misses 0 retries 0 waits 0 snoops 0 writebacks 0\ncore 1 trap call 00000000 at 0 retired 0 accesses 0 misses 0 retries 0 waits 0 snoops 0 writebacks 0\nbus 0 asks 0 retries 0 free 0\nconsole 0\n\n",
        ]),
        ..ENDS
    },
    Case {
        name: "a generated program",
        words: &["gen", "--seed", "7", "--cores", "4"],
        text: Text::Whole(&[GENERATED]),
        ..ENDS
    },
    // x2 is the end of memory, 65536 + 16384, less 4096 for each lower core.
    Case {
        name: "where stacks end",
        words: &[
            "run", "--cores", "3", "--base", "65536", "--memory", "16384",
        ],
        input: STACKS,
        answer: NOT_ALL_ZERO,
        status: 1,
        text: Text::Whole(&[
            b"cores 3\ncycles 3\ncore 0 exit 81920 at 2 retired 3 accesses 0 misses 0 retries 0 waits 0 snoops 0 writebacks 0\ncore 1 exit 77824 at 2 retired 3 accesses 0 misses 0 retries 0 waits 0 snoops 0 writebacks 0\ncore 2 exit 73728 at 2 retired 3 accesses 0 misses 0 retries 0 waits 0 snoops 0 writebacks 0\nbus 0 asks 0 retries 0 free 0\nconsole 0\n\n",
        ]),
        ..ENDS
    },
];

#[test]
fn texts_of_calls(rt: HostRuntime) -> Result<(), Fail> {
    check_all(&rt, &TEXTS)
}

/// What the row shows, words that are refused, and why.
type Refused = (&'static str, &'static [&'static str], WordFault);

const REFUSED: [Refused; 11] = [
    ("no word", &[], WordFault::Empty),
    ("no such command", &["walk"], WordFault::Command),
    (
        "an option without its dashes",
        &["run", "mode"],
        WordFault::Form { place: 1 },
    ),
    (
        "no such option",
        &["run", "--speed", "3"],
        WordFault::Option { place: 1 },
    ),
    (
        "an option twice",
        &["run", "--cores", "2", "--cores", "2"],
        WordFault::Twice { place: 3 },
    ),
    (
        "an option without a value",
        &["run", "--cores"],
        WordFault::Form { place: 2 },
    ),
    (
        "a value that begins with a dash",
        &["run", "--cores", "-1"],
        WordFault::Form { place: 2 },
    ),
    (
        "a number with a sign",
        &["run", "--cores", "+1"],
        WordFault::Number { place: 2 },
    ),
    (
        "too many cores",
        &["run", "--cores", "17"],
        WordFault::Bound(ConfigFault::Cores { given: 17 }),
    ),
    (
        "no such mode",
        &["run", "--mode", "fast"],
        WordFault::Value { place: 2 },
    ),
    (
        "no such step",
        &["run", "--steps", "t0,q1"],
        WordFault::Steps { place: 2, at: 3 },
    ),
];

#[test]
fn words_that_are_refused(rt: HostRuntime) -> Result<(), Fail> {
    for (name, words, fault) in &REFUSED {
        let case = Case {
            name,
            words,
            answer: Answer::BadWords(*fault),
            status: 2,
            ..ENDS
        };
        check_under(&rt, &case, EXIT, &NeverHold)?;
    }
    Ok(())
}
