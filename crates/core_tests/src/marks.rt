//! Cores that are marked, and taken back or kept.
use crate::cores::Fact::*;
use crate::cores::Step::*;
use crate::cores::{Case, Fact, *};
use slack_base::{CoreEnd, Counts, PostKind, Trap};

/// A core that is marked at cycle 2, while it waits for a line, and goes on to a trap. The load at 4100 misses in cycle 1; the
/// reply is due in cycle 3, in which the load hits; the word at 4104 is no instruction.
const LOADING: &[u32] = &[LUI_X8, LW_X5, 0];

/// What is counted in the cycles 0 and 1.
const FIRST_COUNTS: Counts = Counts {
    retired: 1,
    accesses: 0,
    misses: 1,
    retries: 0,
    waits: 0,
    snoops: 0,
    writebacks: 0,
};

/// What is counted up to cycle 4, where no snoop came in.
const LATER_COUNTS: Counts = Counts {
    retired: 2,
    accesses: 1,
    waits: 1,
    ..FIRST_COUNTS
};

/// The same, where a snoop came in.
const SNOOPED_COUNTS: Counts = Counts {
    snoops: 1,
    ..LATER_COUNTS
};

/// How the core ends.
const LOADED: CoreEnd = CoreEnd::Trapped {
    at: 4,
    trap: Trap::Illegal { bits: 0 },
};

/// What is so after cycle 1.
#[rattlefmt::skip]
const AT_MARK: &[Fact] = &[Pc(4100), Register(5, 0), Holds(256, None), Ended(CoreEnd::Running), AllCounts(FIRST_COUNTS)];

/// What is so after cycle 4, where a snoop came in after the mark.
#[rattlefmt::skip]
const SNOOPED: &[Fact] = &[Pc(4104), Register(5, 22), Holds(256, EXCLUSIVE), Ended(LOADED), AllCounts(SNOOPED_COUNTS)];

/// What is so after cycle 4, where none did.
#[rattlefmt::skip]
const NOT_SNOOPED: &[Fact] = &[Pc(4104), Register(5, 22), Holds(256, EXCLUSIVE), Ended(LOADED), AllCounts(LATER_COUNTS)];

/// A core is as it was, its inbox too: it goes on without the snoop, and the reply comes once more. A second mark replaces the
/// first, which was of a core with no line.
#[rattlefmt::skip]
const MARKS: &[Case] = &[
    Case { name: "a core is taken back", shape: ONE_LINE, words: LOADING, posts: &[(3, 256, REPLY)], steps: &[
        Ticks(0, 2), Mark, Put((3, 300, PostKind::SnoopOwn)), Ticks(2, 5), See(SNOOPED), Undo, See(AT_MARK), Ticks(2, 5), See(NOT_SNOOPED),
    ] },
    Case { name: "a core is kept", shape: ONE_LINE, words: LOADING, posts: &[(3, 256, REPLY)], steps: &[
        Ticks(0, 2), Mark, Put((3, 300, PostKind::SnoopOwn)), Ticks(2, 5), Keep, See(SNOOPED),
    ] },
    Case { name: "a mark replaces the first", shape: ONE_LINE, words: LOADING, posts: &[(3, 256, REPLY)], steps: &[
        Ticks(0, 2), Mark, Put((3, 300, PostKind::SnoopOwn)), Ticks(2, 5), Mark, Put((5, 256, PostKind::Invalidate)), Ticks(5, 6), See(&[Holds(256, None)]),
        Undo, See(SNOOPED),
    ] },
];

/// A core with four sets of one line, marked at cycle 2, while it waits for line 256, which belongs to set 0. The reply of
/// cycle 3 fills it, and the load hits; the store hits in cycle 4. The load of line 257, of set 1, misses in cycle 5, which
/// touches the set, and hits in cycle 7. The word at 4112 is no instruction: the core ends in cycle 8. In cycle 9 another
/// core takes line 256, and in cycle 10 line 258, of set 2.
const NOTING: &[u32] = &[LUI_X8, LW_X5, SW_X8, LW_NEXT_LINE, 0];

/// Its posts.
const NOTING_POSTS: &[Coming] = &[
    (3, 256, REPLY),
    (7, 257, REPLY),
    (9, 256, PostKind::SnoopOwn),
    (10, 258, PostKind::SnoopOwn),
];

/// What is counted up to cycle 10.
const NOTED_COUNTS: Counts = Counts {
    retired: 4,
    accesses: 3,
    misses: 2,
    retries: 0,
    waits: 2,
    snoops: 2,
    writebacks: 0,
};

/// How the core ends.
const STORED: CoreEnd = CoreEnd::Trapped {
    at: 8,
    trap: Trap::Illegal { bits: 0 },
};

/// What is so after cycle 10. The store of cycle 4 made line 256 Modified, and it was taken in cycle 9.
#[rattlefmt::skip]
const AT_END: &[Fact] = &[Pc(4112), Register(5, 11), Holds(256, None), Ended(STORED), Runs(false), AllCounts(NOTED_COUNTS)];

/// What else is so at the mark.
#[rattlefmt::skip]
const REST_AT_MARK: &[Fact] = &[Number(0), Register(8, 8192), Reserved(None), Holds(257, None), Runs(true)];

/// Sets are noted as they change. A second mark, at cycle 8, notes nothing of what was noted since the first.
#[rattlefmt::skip]
const NOTED: &[Case] = &[
    Case { name: "noted before cycle 2", shape: FOUR_SETS, words: NOTING, posts: NOTING_POSTS, steps: &[Ticks(0, 2), Notes(2, 2, 0)] },
    Case { name: "noted before cycle 3", shape: FOUR_SETS, words: NOTING, posts: NOTING_POSTS, steps: &[Ticks(0, 2), Notes(2, 3, 0)] },
    Case { name: "noted before cycle 4", shape: FOUR_SETS, words: NOTING, posts: NOTING_POSTS, steps: &[Ticks(0, 2), Notes(2, 4, 1)] },
    Case { name: "noted before cycle 5", shape: FOUR_SETS, words: NOTING, posts: NOTING_POSTS, steps: &[Ticks(0, 2), Notes(2, 5, 1)] },
    Case { name: "noted before cycle 6", shape: FOUR_SETS, words: NOTING, posts: NOTING_POSTS, steps: &[Ticks(0, 2), Notes(2, 6, 2)] },
    Case { name: "noted before cycle 8", shape: FOUR_SETS, words: NOTING, posts: NOTING_POSTS, steps: &[Ticks(0, 2), Notes(2, 8, 2)] },
    Case { name: "noted before cycle 10", shape: FOUR_SETS, words: NOTING, posts: NOTING_POSTS, steps: &[Ticks(0, 2), Notes(2, 10, 2)] },
    Case { name: "noted before cycle 11", shape: FOUR_SETS, words: NOTING, posts: NOTING_POSTS, steps: &[Ticks(0, 2), Notes(2, 11, 3)] },
    Case { name: "a second mark has noted nothing", shape: FOUR_SETS, words: NOTING, posts: NOTING_POSTS, steps: &[Ticks(0, 2), Notes(2, 8, 2), Notes(8, 8, 0)] },
    Case { name: "a second mark notes anew", shape: FOUR_SETS, words: NOTING, posts: NOTING_POSTS, steps: &[Ticks(0, 2), Notes(2, 8, 2), Notes(8, 10, 1)] },
    Case { name: "noted sets are put back", shape: FOUR_SETS, words: NOTING, posts: NOTING_POSTS, steps: &[
        Ticks(0, 2), Mark, Ticks(2, 11), See(AT_END), Undo, See(AT_MARK), See(REST_AT_MARK),
    ] },
];

#[test]
fn marked_cores_are_taken_back_or_kept(rt: HostRuntime) {
    check(&rt, rt.alloc(), MARKS);
}

#[test]
fn sets_are_noted_and_put_back(rt: HostRuntime) {
    check(&rt, rt.alloc(), NOTED);
}
