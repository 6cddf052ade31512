//! The order of the lines of a set, and the lines that fall out; and copies of sets and of caches.
use crate::caches::Call::*;
use crate::caches::Step::*;
use crate::caches::{Case, Step, answer, cache_of, check, first_wrong};
use mesi_cache::Held::{Exclusive, Modified, Shared};
use mesi_cache::{Cache, HeldLine, Victim};
use slack_base::Words;

/// What falls out: line 5 as it came Shared, line 6 as it came Exclusive, and line 7 once its last word was written.
const SHARED_VICTIM: Victim = Victim {
    line: 5,
    held: Shared,
    words: Words {
        w0: 1,
        w1: 2,
        w2: 3,
        w3: 5,
    },
};

const EXCLUSIVE_VICTIM: Victim = Victim {
    line: 6,
    held: Exclusive,
    words: Words {
        w0: 1,
        w1: 2,
        w2: 3,
        w3: 6,
    },
};

const MODIFIED_VICTIM: Victim = Victim {
    line: 7,
    held: Modified,
    words: Words {
        w0: 1,
        w1: 2,
        w2: 3,
        w3: 70,
    },
};

#[rattlefmt::skip]
const ORDERS: &[Case] = &[
    Case { name: "in a set of one line each other line drives it out", shape: (1, 1), steps: &[
        Gives(FillShared(5), None, &[(5, Shared)]), Gives(FillAlone(5), None, &[(5, Exclusive)]), Gives(FillAlone(6), Some(5), &[(6, Exclusive)]),
        Gives(FillShared(7), Some(6), &[(7, Shared)]), Gives(FillShared(8), Some(7), &[(8, Shared)]), Gives(GiveUp(8), Some(8), &[]),
        Gives(FillAlone(9), None, &[(9, Exclusive)]),
    ] },
    Case { name: "a victim falls out with its state and its words", shape: (1, 1), steps: &[
        Answers(FillShared(5), None), Drops(7, true, Some(SHARED_VICTIM)), Answers(GiveUp(7), Some(7)),
        Answers(FillAlone(6), None), Drops(7, true, Some(EXCLUSIVE_VICTIM)), Answers(GiveUp(7), Some(7)),
        Answers(FillAlone(7), None), Answers(Write(7, 70), Some(70)), Drops(8, false, Some(MODIFIED_VICTIM)),
    ] },
    Case { name: "lines that are used here or read by another core, and the whole order, which looking doesn't change", shape: (1, 8), steps: &[
        Fills(0, 4), Answers(Read(1), Some(1)), Answers(Share(0), Some(0)), Answers(Write(2, 9), Some(9)), Answers(Share(3), Some(3)),
        Has(0, &[(2, Modified), (1, Exclusive), (3, Shared), (0, Shared)]),
        Looks(0, Some(Shared)), Peeks(3, Some(HeldLine { held: Shared, words: Words { w0: 1, w1: 2, w2: 3, w3: 3 } })),
        Has(0, &[(2, Modified), (1, Exclusive), (3, Shared), (0, Shared)]),
    ] },
    Case { name: "line l stands in the set l modulo 64, and a call for a line of one set leaves the others alone", shape: (64, 1), steps: &[
        Fills(0, 64),
        Answers(FillAlone(64), Some(0)), Has(0, &[(64, Exclusive)]), Answers(FillAlone(127), Some(63)), Has(63, &[(127, Exclusive)]),
        Answers(FillAlone(4294967295), Some(127)), Has(63, &[(4294967295, Exclusive)]),
        Answers(FillAlone(4294967232), Some(64)), Has(0, &[(4294967232, Exclusive)]), Answers(FillAlone(69), Some(5)), Has(5, &[(69, Exclusive)]),
        Answers(GiveUp(62), Some(62)), Has(62, &[]), Has(61, &[(61, Exclusive)]),
    ] },
];

/// The front of a full set after a call, and the line that falls out next.
#[rattlefmt::skip]
const FULL: &[Case] = &[
    Case { name: "a read of the first", shape: (1, 8), steps: &[Fills(0, 8), Answers(Read(7), Some(7)), IsFirst(7), Answers(FillAlone(8), Some(0))] },
    Case { name: "a read in the midst", shape: (1, 8), steps: &[Fills(0, 8), Answers(Read(3), Some(3)), IsFirst(3), Answers(FillAlone(8), Some(0))] },
    Case { name: "a read of the last", shape: (1, 8), steps: &[Fills(0, 8), Answers(Read(0), Some(0)), IsFirst(0), Answers(FillAlone(8), Some(1))] },
    Case { name: "a write of the last", shape: (1, 8), steps: &[Fills(0, 8), Answers(Write(0, 9), Some(9)), IsFirst(0), Answers(FillAlone(8), Some(1))] },
    Case { name: "a write in the midst", shape: (1, 8), steps: &[Fills(0, 8), Answers(Write(4, 9), Some(9)), IsFirst(4), Answers(FillAlone(8), Some(0))] },
    Case { name: "a fill of the last", shape: (1, 8), steps: &[Fills(0, 8), Answers(FillShared(0), None), IsFirst(0), Answers(FillAlone(8), Some(1))] },
    Case { name: "a fill of the last but one", shape: (1, 8), steps: &[Fills(0, 8), Answers(FillAlone(1), None), IsFirst(1), Answers(FillAlone(8), Some(0))] },
    Case { name: "the last is shared", shape: (1, 8), steps: &[Fills(0, 8), Answers(Share(0), Some(0)), IsFirst(7), Answers(FillAlone(8), Some(0))] },
    Case { name: "one in the midst is shared", shape: (1, 8), steps: &[Fills(0, 8), Answers(Share(5), Some(5)), IsFirst(7), Answers(FillAlone(8), Some(0))] },
    Case { name: "a line that is not held is taken", shape: (1, 8), steps: &[Fills(0, 8), Answers(GiveUp(9), None), IsFirst(7), Answers(FillAlone(8), Some(0))] },
    Case { name: "a fill of another line", shape: (1, 8), steps: &[Fills(0, 8), Answers(FillAlone(9), Some(0)), IsFirst(9), Answers(FillAlone(8), Some(1))] },
];

/// A line that leaves makes room, and the last of the others is then the next to fall out.
#[rattlefmt::skip]
const LEAVES: &[Case] = &[
    Case { name: "line 0 leaves", shape: (1, 8), steps: &[Fills(0, 8), Answers(GiveUp(0), Some(0)), Looks(0, None), Answers(FillAlone(8), None), Answers(FillAlone(9), Some(1))] },
    Case { name: "line 1 leaves", shape: (1, 8), steps: &[Fills(0, 8), Answers(GiveUp(1), Some(1)), Looks(1, None), Answers(FillAlone(8), None), Answers(FillAlone(9), Some(0))] },
    Case { name: "line 2 leaves", shape: (1, 8), steps: &[Fills(0, 8), Answers(GiveUp(2), Some(2)), Looks(2, None), Answers(FillAlone(8), None), Answers(FillAlone(9), Some(0))] },
    Case { name: "line 3 leaves", shape: (1, 8), steps: &[Fills(0, 8), Answers(GiveUp(3), Some(3)), Looks(3, None), Answers(FillAlone(8), None), Answers(FillAlone(9), Some(0))] },
    Case { name: "line 4 leaves", shape: (1, 8), steps: &[Fills(0, 8), Answers(GiveUp(4), Some(4)), Looks(4, None), Answers(FillAlone(8), None), Answers(FillAlone(9), Some(0))] },
    Case { name: "line 5 leaves", shape: (1, 8), steps: &[Fills(0, 8), Answers(GiveUp(5), Some(5)), Looks(5, None), Answers(FillAlone(8), None), Answers(FillAlone(9), Some(0))] },
    Case { name: "line 6 leaves", shape: (1, 8), steps: &[Fills(0, 8), Answers(GiveUp(6), Some(6)), Looks(6, None), Answers(FillAlone(8), None), Answers(FillAlone(9), Some(0))] },
    Case { name: "line 7 leaves", shape: (1, 8), steps: &[Fills(0, 8), Answers(GiveUp(7), Some(7)), Looks(7, None), Answers(FillAlone(8), None), Answers(FillAlone(9), Some(0))] },
];

/// Line 1 as it came.
const CAME: HeldLine = HeldLine {
    held: Exclusive,
    words: Words {
        w0: 1,
        w1: 2,
        w2: 3,
        w3: 1,
    },
};

/// Four sets of up to three lines. The second holds the lines 5 and 1, the third the line 2.
#[rattlefmt::skip]
const COPIES: &[Case] = &[
    Case { name: "the sets of lines", shape: (4, 3), steps: &[HasSets(4), IsInSet(0, 0), IsInSet(3, 3), IsInSet(6, 2), IsInSet(4294967295, 3)] },
    Case { name: "a set is put back after each of some calls", shape: (4, 3), steps: &[
        Answers(FillAlone(1), None), Answers(FillShared(5), None), Answers(FillAlone(2), None), IsInSet(1, 1),
        PutsBack(1, &[Read(1)]), Has(1, &[(5, Shared), (1, Exclusive)]), Has(2, &[(2, Exclusive)]), Peeks(1, Some(CAME)),
        PutsBack(1, &[Write(1, 10)]), Has(1, &[(5, Shared), (1, Exclusive)]), Has(2, &[(2, Exclusive)]), Peeks(1, Some(CAME)),
        PutsBack(1, &[FillAlone(9)]), Has(1, &[(5, Shared), (1, Exclusive)]), Has(2, &[(2, Exclusive)]), Peeks(1, Some(CAME)),
        PutsBack(1, &[FillAlone(5)]), Has(1, &[(5, Shared), (1, Exclusive)]), Has(2, &[(2, Exclusive)]), Peeks(1, Some(CAME)),
        PutsBack(1, &[Share(1)]), Has(1, &[(5, Shared), (1, Exclusive)]), Has(2, &[(2, Exclusive)]), Peeks(1, Some(CAME)),
        PutsBack(1, &[GiveUp(5)]), Has(1, &[(5, Shared), (1, Exclusive)]), Has(2, &[(2, Exclusive)]), Peeks(1, Some(CAME)),
    ] },
    Case { name: "what happened to another set since the copy was made stays", shape: (4, 3), steps: &[
        Answers(FillAlone(1), None), Answers(FillShared(5), None), Answers(FillAlone(2), None),
        PutsBack(1, &[GiveUp(1), Write(2, 20), FillShared(0)]),
        Has(1, &[(5, Shared), (1, Exclusive)]), Has(2, &[(2, Modified)]), Has(0, &[(0, Shared)]),
    ] },
];

#[test]
fn orders_of_lines(rt: HostRuntime) {
    check(&rt, rt.alloc(), ORDERS);
}

#[test]
fn full_sets(rt: HostRuntime) {
    check(&rt, rt.alloc(), FULL);
}

#[test]
fn lines_that_leave(rt: HostRuntime) {
    check(&rt, rt.alloc(), LEAVES);
}

#[test]
fn copies_of_sets(rt: HostRuntime) {
    check(&rt, rt.alloc(), COPIES);
}

/// Whether each of the 64 sets of eight lines reads its first line, and a line that comes then drives out its second.
fn drive_out_the_second(cache: &mut Cache) -> bool {
    for line in 0..64u32 {
        if answer(cache, Read(line)) != Some(line) {
            return false;
        }
        if answer(cache, FillAlone(line + 512)) != Some(line + 64) {
            return false;
        }
    }
    true
}

#[test]
fn sixty_four_full_sets(rt: HostRuntime) {
    let mut cache = cache_of(&rt, rt.alloc(), (64, 8));
    assert_eq!(rt; first_wrong(&mut cache, &[Fills(0, 512)]), None);
    assert!(rt; drive_out_the_second(&mut cache));
}

/// What is done with a cache before it is copied; with the copy; with the cache; with the copy again; and with the cache at
/// the end.
#[rattlefmt::skip]
const BEFORE_COPY: &[Step] = &[Answers(FillAlone(0), None), Answers(FillAlone(4), None), Answers(FillAlone(5), None), Answers(Write(0, 70), Some(70))];

#[rattlefmt::skip]
const COPIED: &[Step] = &[Has(0, &[(0, Modified), (4, Exclusive)])];

#[rattlefmt::skip]
const AFTER_COPY: &[Step] = &[Answers(Read(4), Some(4))];

#[rattlefmt::skip]
const IN_COPY: &[Step] = &[Answers(GiveUp(5), Some(5)), Has(0, &[(0, Modified), (4, Exclusive)]), Has(1, &[]), Answers(Read(0), Some(70))];

#[rattlefmt::skip]
const AT_END: &[Step] = &[Has(0, &[(4, Exclusive), (0, Modified)]), Has(1, &[(5, Exclusive)])];

/// Whether what is done with a cache and with its copy is right at each step.
fn are_apart(cache: &mut Cache, copied: &mut Cache) -> bool {
    first_wrong(copied, COPIED).is_none()
        && first_wrong(cache, AFTER_COPY).is_none()
        && first_wrong(copied, IN_COPY).is_none()
        && first_wrong(cache, AT_END).is_none()
}

/// What happens to a copy doesn't happen to the cache, nor the other way round.
#[test]
fn a_copy(rt: HostRuntime) {
    let mut cache = cache_of(&rt, rt.alloc(), (4, 2));
    assert_eq!(rt; first_wrong(&mut cache, BEFORE_COPY), None);
    let mut copied = cache.copy().expect(&rt, "memory for a copy");
    assert!(rt; are_apart(&mut cache, &mut copied));
}
