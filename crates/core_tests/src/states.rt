//! Each call of a cache with a line that it doesn't hold, or holds Shared, Exclusive or Modified; and lines that are found
//! once, and then looked at, used and written.
use crate::caches::Call::*;
use crate::caches::Step::*;
use crate::caches::{Case, Lines, check};
use mesi_cache::Held::{Exclusive, Modified, Shared};
use mesi_cache::{Found, HeldLine};
use slack_base::Words;

const SHARED_SECOND: Lines = &[(9, Exclusive), (5, Shared)];

const SHARED_FIRST: Lines = &[(5, Shared), (9, Exclusive)];

const EXCLUSIVE_SECOND: Lines = &[(9, Shared), (5, Exclusive)];

const EXCLUSIVE_FIRST: Lines = &[(5, Exclusive), (9, Shared)];

const MODIFIED_SECOND: Lines = &[(9, Exclusive), (5, Modified)];

const MODIFIED_FIRST: Lines = &[(5, Modified), (9, Exclusive)];

/// The words of line 5 as they came.
const CAME: HeldLine = HeldLine {
    held: Exclusive,
    words: Words {
        w0: 1,
        w1: 2,
        w2: 3,
        w3: 5,
    },
};

/// The words that are written in their places.
const WRITTEN: Words = Words {
    w0: 10,
    w1: 20,
    w2: 30,
    w3: 50,
};

#[rattlefmt::skip]
const STATES: &[Case] = &[
    Case { name: "a line that is not held", shape: (1, 8), steps: &[
        Looks(0, None), Peeks(0, None), Gives(Share(0), None, &[]), Gives(GiveUp(0), None, &[]),
        Gives(FillShared(9), None, &[(9, Shared)]), Gives(Share(0), None, &[(9, Shared)]), Gives(GiveUp(0), None, &[(9, Shared)]), Looks(0, None),
    ] },
    Case { name: "a shared line", shape: (1, 8), steps: &[
        Gives(FillShared(5), None, &[(5, Shared)]), Gives(FillAlone(9), None, SHARED_SECOND), Looks(5, Some(Shared)),
        Gives(Share(5), Some(5), SHARED_SECOND), Gives(Read(5), Some(5), SHARED_FIRST),
        Gives(FillAlone(9), None, SHARED_SECOND), Gives(FillShared(5), None, SHARED_FIRST),
        Gives(FillAlone(5), None, &[(5, Exclusive), (9, Exclusive)]), Gives(Share(5), Some(5), SHARED_FIRST), Gives(GiveUp(5), Some(5), &[(9, Exclusive)]),
    ] },
    Case { name: "an exclusive line", shape: (1, 8), steps: &[
        Gives(FillAlone(5), None, &[(5, Exclusive)]), Gives(FillShared(9), None, EXCLUSIVE_SECOND), Looks(5, Some(Exclusive)),
        Gives(Read(5), Some(5), EXCLUSIVE_FIRST), Gives(Read(9), Some(9), EXCLUSIVE_SECOND), Gives(Write(5, 70), Some(70), &[(5, Modified), (9, Shared)]),
        Gives(FillAlone(5), None, EXCLUSIVE_FIRST), Gives(Read(9), Some(9), EXCLUSIVE_SECOND), Gives(Share(5), Some(5), &[(9, Shared), (5, Shared)]),
        Gives(FillAlone(5), None, EXCLUSIVE_FIRST), Gives(GiveUp(5), Some(5), &[(9, Shared)]),
    ] },
    Case { name: "a modified line", shape: (1, 8), steps: &[
        Gives(FillAlone(5), None, &[(5, Exclusive)]), Gives(Write(5, 70), Some(70), &[(5, Modified)]), Looks(5, Some(Modified)),
        Gives(FillAlone(9), None, MODIFIED_SECOND), Gives(Read(5), Some(70), MODIFIED_FIRST), Gives(Read(9), Some(9), MODIFIED_SECOND),
        Gives(Write(5, 80), Some(80), MODIFIED_FIRST), Gives(Read(9), Some(9), MODIFIED_SECOND), Gives(Share(5), Some(80), &[(9, Exclusive), (5, Shared)]),
        Gives(FillAlone(5), None, &[(5, Exclusive), (9, Exclusive)]), Gives(Write(5, 90), Some(90), MODIFIED_FIRST), Gives(GiveUp(5), Some(90), &[(9, Exclusive)]),
    ] },
    Case { name: "the words of a line", shape: (1, 1), steps: &[
        Answers(FillAlone(5), None), Peeks(5, Some(CAME)),
        Answers(ReadWord(5, 0), Some(1)), Answers(WriteWord(5, 0, 10), Some(10)), Answers(ReadWord(5, 0), Some(10)),
        Answers(ReadWord(5, 1), Some(2)), Answers(WriteWord(5, 1, 20), Some(20)), Answers(ReadWord(5, 1), Some(20)),
        Answers(ReadWord(5, 2), Some(3)), Answers(WriteWord(5, 2, 30), Some(30)), Answers(ReadWord(5, 2), Some(30)),
        Answers(ReadWord(5, 3), Some(5)), Answers(WriteWord(5, 3, 50), Some(50)), Answers(ReadWord(5, 3), Some(50)),
        Peeks(5, Some(HeldLine { held: Modified, words: WRITTEN })), Takes(5, Some(WRITTEN)),
    ] },
];

/// The second of four sets of up to three lines, once the lines 1, 5 and 9 have come.
const THREE_LINES: Lines = &[(9, Exclusive), (5, Shared), (1, Exclusive)];

/// The same once line 1 was used, and once it was written.
const USED: Lines = &[(1, Exclusive), (9, Exclusive), (5, Shared)];

const WRITTEN_FIRST: Lines = &[(1, Modified), (9, Exclusive), (5, Shared)];

#[rattlefmt::skip]
const FINDS: &[Case] = &[
    Case { name: "where a line stands", shape: (4, 3), steps: &[
        Answers(FillAlone(1), None), Answers(FillShared(5), None), Answers(FillAlone(9), None),
        Finds(9, Some(Found { line: 9, set: 1, place: 0, held: Exclusive })),
        Finds(5, Some(Found { line: 5, set: 1, place: 1, held: Shared })),
        Finds(1, Some(Found { line: 1, set: 1, place: 2, held: Exclusive })),
        Finds(0, None), Finds(13, None),
    ] },
    Case { name: "a found line is used", shape: (4, 3), steps: &[
        Answers(FillAlone(1), None), Answers(FillShared(5), None), Answers(FillAlone(9), None),
        FindsWord(1, Some(1)), Has(1, THREE_LINES), Uses(9, Some(0)), Has(1, THREE_LINES),
        Uses(1, Some(2)), Has(1, USED), Uses(13, None), Has(1, USED),
    ] },
    Case { name: "a found line is written", shape: (4, 3), steps: &[
        Answers(FillAlone(1), None), Answers(FillShared(5), None), Answers(FillAlone(9), None),
        Exchanges(5, 50, None), Exchanges(1, 10, Some(1)), Has(1, WRITTEN_FIRST),
        Exchanges(1, 11, Some(10)), Has(1, WRITTEN_FIRST), FindsWord(1, Some(11)), FindsWord(9, Some(9)),
    ] },
];

#[test]
fn lines_in_each_state(rt: HostRuntime) {
    check(&rt, rt.alloc(), STATES);
}

#[test]
fn lines_that_are_found(rt: HostRuntime) {
    check(&rt, rt.alloc(), FINDS);
}
