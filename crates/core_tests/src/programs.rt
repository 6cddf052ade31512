//! Small programs whose loads, stores and reservations meet posts.
use crate::cores::Count::*;
use crate::cores::Fact::*;
use crate::cores::Step::*;
use crate::cores::{Case, *};
use mesi_cache::{Held, HeldLine};
use slack_base::{Ask, CoreEnd, Counts, Id, PostKind, Words};

/// addi x8, x8, 4
const ADDI_X8_4: u32 = 0x0044_0413;

/// The line after a store of 8192 to its first word.
const STORED: Words = Words { w0: 8192, ..WORDS };

/// The line after 8192 was added to its first word, which was 11.
const ADDED: Option<HeldLine> = Some(HeldLine {
    held: Held::Modified,
    words: Words { w0: 8203, ..WORDS },
});

/// What is counted of a load that misses, waits for a cycle and hits, and of the instruction before it.
const ONE_LOAD: Counts = Counts {
    retired: 2,
    accesses: 1,
    misses: 1,
    retries: 0,
    waits: 1,
    snoops: 0,
    writebacks: 0,
};

/// A load, a store whose line is sent back, a store to a line that is shared between, an AMO, and an SC of the next word
/// of the same line: a reservation is of a word.
#[rattlefmt::skip]
const PROGRAMS: &[Case] = &[
    Case { name: "a load misses, waits and hits", shape: ONE_LINE, words: &[LUI_X8, LW_X5], posts: &[(3, 256, REPLY)], steps: &[
        Ticks(0, 4),
        See(&[Asked(&[Ask::Read { id: Id { cycle: 1, core: 0, number: 0 }, line: 256 }]), AllCounts(ONE_LOAD), Register(5, 22), Pc(4104)]),
        See(&[State(256, Some(Held::Exclusive)), Number(0)]),
    ] },
    Case { name: "a modified victim is sent back", shape: ONE_LINE, words: &[LUI_X8, SW_X8, LW_NEXT_LINE], posts: &[(2, 256, REPLY), (5, 257, REPLY)], steps: &[
        Ticks(0, 6),
        See(&[Asked(&[
            Ask::ReadOwn { id: Id { cycle: 1, core: 0, number: 0 }, line: 256 },
            Ask::Read { id: Id { cycle: 3, core: 0, number: 0 }, line: 257 },
            Ask::WriteBack { id: Id { cycle: 5, core: 0, number: 0 }, line: 256, words: STORED },
        ])]),
        See(&[Counted(WriteBacks, 1), Register(5, 11), Holds(256, None)]),
    ] },
    Case { name: "a snoop is answered before the store asks", shape: ONE_LINE, words: &[LUI_X8, SW_X8, SW_SECOND], posts: &[(2, 256, REPLY), (3, 300, PostKind::SnoopOwn), (3, 256, PostKind::SnoopShare)], steps: &[
        Ticks(0, 4),
        See(&[Asked(&[
            Ask::ReadOwn { id: Id { cycle: 1, core: 0, number: 0 }, line: 256 },
            Ask::Flush { id: Id { cycle: 3, core: 0, number: 0 }, line: 300, words: None },
            Ask::Flush { id: Id { cycle: 3, core: 0, number: 1 }, line: 256, words: Some(STORED) },
            Ask::ReadOwn { id: Id { cycle: 3, core: 0, number: 2 }, line: 256 },
        ])]),
        See(&[State(256, Some(Held::Shared)), Counted(Snoops, 2)]),
    ] },
    Case { name: "an AMO reads and writes", shape: ONE_LINE, words: &[LUI_X8, AMOADD_X5], posts: &[(2, 256, REPLY)], steps: &[
        Ticks(0, 3),
        See(&[Register(5, 11), Holds(256, ADDED), Ended(CoreEnd::Running), Runs(true)]),
    ] },
    Case { name: "an SC of another word fails", shape: ONE_LINE, words: &[LUI_X8, LR_X5, ADDI_X8_4, SC_X6], posts: &[(2, 256, REPLY)], steps: &[
        Ticks(0, 5),
        See(&[Register(6, 1), Reserved(None), Holds(256, EXCLUSIVE), Counted(Accesses, 1), Counted(Retired, 4)]),
    ] },
];

/// A post between LR and SC, and what there is after the SC.
#[rattlefmt::skip]
const BETWEEN: &[Case] = &[
    Case { name: "a retry of the line between LR and SC", shape: ONE_LINE, words: &[LUI_X8, LR_X5, SC_X6], posts: &[(2, 256, REPLY), (3, 256, PostKind::Retry)], steps: &[Ticks(0, 4), See(&[Register(6, 0), Reserved(None), Counted(Retired, 3), Counted(Accesses, 2), Asks(1)])] },
    Case { name: "an invalidation of the line between LR and SC", shape: ONE_LINE, words: &[LUI_X8, LR_X5, SC_X6], posts: &[(2, 256, REPLY), (3, 256, PostKind::Invalidate)], steps: &[Ticks(0, 4), See(&[Register(6, 1), Reserved(None), Counted(Retired, 3), Counted(Accesses, 1), Asks(1)])] },
    Case { name: "an invalidation of another line between LR and SC", shape: ONE_LINE, words: &[LUI_X8, LR_X5, SC_X6], posts: &[(2, 256, REPLY), (3, 257, PostKind::Invalidate)], steps: &[Ticks(0, 4), See(&[Register(6, 0), Reserved(None), Counted(Retired, 3), Counted(Accesses, 2), Asks(1)])] },
    Case { name: "a snoop that takes of the line between LR and SC", shape: ONE_LINE, words: &[LUI_X8, LR_X5, SC_X6], posts: &[(2, 256, REPLY), (3, 256, PostKind::SnoopOwn)], steps: &[Ticks(0, 4), See(&[Register(6, 1), Reserved(None), Counted(Retired, 3), Counted(Accesses, 1), Asks(2)])] },
    Case { name: "a snoop that takes of another line between LR and SC", shape: ONE_LINE, words: &[LUI_X8, LR_X5, SC_X6], posts: &[(2, 256, REPLY), (3, 257, PostKind::SnoopOwn)], steps: &[Ticks(0, 4), See(&[Register(6, 0), Reserved(None), Counted(Retired, 3), Counted(Accesses, 2), Asks(2)])] },
    Case { name: "a snoop that shares of the line between LR and SC", shape: ONE_LINE, words: &[LUI_X8, LR_X5, SC_X6], posts: &[(2, 256, REPLY), (3, 256, PostKind::SnoopShare)], steps: &[Ticks(0, 4), See(&[Register(6, 0), Reserved(Some(8192)), Counted(Retired, 2), Counted(Accesses, 1), Asks(3)])] },
    Case { name: "a reply of another line between LR and SC", shape: ONE_LINE, words: &[LUI_X8, LR_X5, SC_X6], posts: &[(2, 256, REPLY), (3, 257, REPLY)], steps: &[Ticks(0, 4), See(&[Register(6, 1), Reserved(None), Counted(Retired, 3), Counted(Accesses, 1), Asks(1)])] },
];

#[test]
fn small_programs(rt: HostRuntime) {
    check(&rt, rt.alloc(), PROGRAMS);
}

#[test]
fn what_comes_between_lr_and_sc(rt: HostRuntime) {
    check(&rt, rt.alloc(), BETWEEN);
}
