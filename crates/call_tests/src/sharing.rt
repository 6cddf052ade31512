//! Programs of several cores that share memory. What each prints is worked out from what its program does.
use crate::calling::{Case, ENDS, Text, check_programs};
use crate::samples::{BARRIER, CONDITIONAL_SUMS, LOCK, LOCK_REPORT, PRODUCER, WORDS_OF_ONE_LINE};
use std::test::Fail;

const SHARED: [Case; 6] = [
    Case {
        name: "a sum under a lock",
        words: &["run", "--cores", "4"],
        input: LOCK,
        text: Text::Back(b"\nconsole 1\nZ\n"),
        ..ENDS
    },
    Case {
        name: "the whole report of the same",
        words: &["run", "--cores", "4"],
        input: LOCK,
        text: Text::Whole(&[LOCK_REPORT]),
        ..ENDS
    },
    Case {
        name: "a sum by LR and SC",
        words: &["run", "--cores", "2"],
        input: CONDITIONAL_SUMS,
        text: Text::Back(b"\nconsole 1\nP\n"),
        ..ENDS
    },
    Case {
        name: "words of one line",
        words: &["run", "--cores", "4"],
        input: WORDS_OF_ONE_LINE,
        text: Text::Back(b"\nconsole 1\n@\n"),
        ..ENDS
    },
    Case {
        name: "letters that one core makes and another prints",
        words: &["run", "--cores", "2"],
        input: PRODUCER,
        text: Text::Back(b"\nconsole 5\nABCDE\n"),
        ..ENDS
    },
    Case {
        name: "cores that meet",
        words: &["run", "--cores", "3"],
        input: BARRIER,
        text: Text::Back(b"\nconsole 3\nabc\n"),
        ..ENDS
    },
];

#[test]
fn programs_that_share_memory(rt: HostRuntime) -> Result<(), Fail> {
    check_programs(&rt, &SHARED)
}
