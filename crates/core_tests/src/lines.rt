//! What each memory instruction and each post does, by what the cache holds of its line at the start of cycle 4. A load, or
//! LR where there is to be a reservation, is at 4100, misses in cycle 1 and hits in cycle 2; a store in cycle 3 makes the line
//! Modified. An instruction that is executed in cycle 4 is at 4112 where the line isn't held, and at 4108 where it is.
use crate::cores::Count::*;
use crate::cores::Fact::*;
use crate::cores::Step::*;
use crate::cores::{Case, *};
use mesi_cache::{Held, HeldLine};
use slack_base::{Ask, Id, PostKind, Words};

/// lw x6, 8(x8)
const LW_X6: u32 = 0x0084_2303;
/// lr.w x6, (x8)
const LR_X6: u32 = 0x1004_232f;
/// amoadd.w x6, x8, (x8)
const AMOADD_X6: u32 = 0x0084_232f;

/// The line's words after the store of 8192 that makes it Modified.
const STORED: Words = Words {
    w0: 8192,
    w1: 22,
    w2: 33,
    w3: 44,
};

/// The line after the store.
const MODIFIED: Option<HeldLine> = Some(HeldLine {
    held: Held::Modified,
    words: STORED,
});

/// The line after a store of 8192 to its second word.
const SECOND_STORED: Option<HeldLine> = Some(HeldLine {
    held: Held::Modified,
    words: Words { w1: 8192, ..WORDS },
});

/// The stored line after a store of 8192 to its second word.
const BOTH_STORED: Option<HeldLine> = Some(HeldLine {
    held: Held::Modified,
    words: Words { w1: 8192, ..STORED },
});

/// The line after 8192 was added to its first word, which was 11.
const ADDED: Option<HeldLine> = Some(HeldLine {
    held: Held::Modified,
    words: Words { w0: 8203, ..WORDS },
});

/// The stored line after 8192 was added to its first word, which was 8192.
const ADDED_TO_STORED: Option<HeldLine> = Some(HeldLine {
    held: Held::Modified,
    words: Words { w0: 16384, ..WORDS },
});

/// The words of a reply, other than those that the line has.
const NEW: Words = Words {
    w0: 5,
    w1: 6,
    w2: 7,
    w3: 8,
};

const NEW_REPLY: PostKind = PostKind::Reply {
    exclusive: true,
    words: NEW,
};

const NEW_SHARED_REPLY: PostKind = PostKind::Reply {
    exclusive: false,
    words: NEW,
};

/// The line as an exclusive reply fills it anew.
const FILLED: Option<HeldLine> = Some(HeldLine {
    held: Held::Exclusive,
    words: NEW,
});

/// The line as a shared reply fills it anew.
const FILLED_SHARED: Option<HeldLine> = Some(HeldLine {
    held: Held::Shared,
    words: NEW,
});

/// The stored line once it is shared.
const STORED_SHARED: Option<HeldLine> = Some(HeldLine {
    held: Held::Shared,
    words: STORED,
});

/// What brought the line, in cycle 1.
const FIRST: Option<Ask> = Some(Ask::Read {
    id: Id {
        cycle: 1,
        core: 0,
        number: 0,
    },
    line: 256,
});

/// The stamp of what is asked in cycle 4.
const STAMP: Id = Id {
    cycle: 4,
    core: 0,
    number: 0,
};

/// What a load or LR asks for where it misses.
const READ: Option<Ask> = Some(Ask::Read {
    id: STAMP,
    line: 256,
});

/// What a write asks for where it misses.
const OWN: Option<Ask> = Some(Ask::ReadOwn {
    id: STAMP,
    line: 256,
});

/// The answer to a snoop of a line that isn't held.
const FLUSH: Option<Ask> = Some(Ask::Flush {
    id: STAMP,
    line: 256,
    words: None,
});

/// The answer to a snoop of the line as it came.
const FLUSH_CLEAN: Option<Ask> = Some(Ask::Flush {
    id: STAMP,
    line: 256,
    words: Some(WORDS),
});

/// The answer to a snoop of the stored line.
const FLUSH_STORED: Option<Ask> = Some(Ask::Flush {
    id: STAMP,
    line: 256,
    words: Some(STORED),
});

/// The stored line goes back to memory.
const BACK: Option<Ask> = Some(Ask::WriteBack {
    id: STAMP,
    line: 256,
    words: STORED,
});

const RESERVED: Option<u32> = Some(8192);

/// Programs after which the line isn't held, is held as it came, and is stored.
const NOT_HELD: &[u32] = &[LUI_X8, FENCE, FENCE, FENCE, FENCE];

const HELD_LINE: &[u32] = &[LUI_X8, LW_X5, FENCE, FENCE, FENCE];

const STORED_LINE: &[u32] = &[LUI_X8, LW_X5, SW_X8, FENCE, FENCE];

/// The same with a reservation of the line's first word.
const RESERVED_LINE: &[u32] = &[LUI_X8, LR_X5, FENCE, FENCE, FENCE];

const RESERVED_STORED_LINE: &[u32] = &[LUI_X8, LR_X5, SW_X8, FENCE, FENCE];

/// An instruction in cycle 4. Where the line was held before, a load or LR has hit, and so has the store that made it
/// Modified.
#[rattlefmt::skip]
const INSTRUCTIONS: &[Case] = &[
    Case { name: "a load of a line that is not held", shape: ONE_LINE, words: &[LUI_X8, FENCE, FENCE, FENCE, LW_X6], posts: &[], steps: &[Ticks(0, 5), See(&[Holds(256, None), Register(6, 0), Counted(Accesses, 0), Pc(4112), AskedLast(READ), Reserved(None)])] },
    Case { name: "a load of a Shared line", shape: ONE_LINE, words: &[LUI_X8, LW_X5, FENCE, LW_X6, FENCE], posts: &[(2, 256, SHARED_REPLY)], steps: &[Ticks(0, 5), See(&[Holds(256, SHARED), Register(6, 33), Counted(Accesses, 2), Pc(4112), AskedLast(FIRST), Reserved(None)])] },
    Case { name: "a load of an Exclusive line", shape: ONE_LINE, words: &[LUI_X8, LW_X5, FENCE, LW_X6, FENCE], posts: &[(2, 256, REPLY)], steps: &[Ticks(0, 5), See(&[Holds(256, EXCLUSIVE), Register(6, 33), Counted(Accesses, 2), Pc(4112), AskedLast(FIRST), Reserved(None)])] },
    Case { name: "a load of a Modified line", shape: ONE_LINE, words: &[LUI_X8, LW_X5, SW_X8, LW_X6, FENCE], posts: &[(2, 256, REPLY)], steps: &[Ticks(0, 5), See(&[Holds(256, MODIFIED), Register(6, 33), Counted(Accesses, 3), Pc(4112), AskedLast(FIRST), Reserved(None)])] },
    // LR reserves its word.
    Case { name: "LR of a line that is not held", shape: ONE_LINE, words: &[LUI_X8, FENCE, FENCE, FENCE, LR_X6], posts: &[], steps: &[Ticks(0, 5), See(&[Holds(256, None), Register(6, 0), Counted(Accesses, 0), Pc(4112), AskedLast(READ), Reserved(None)])] },
    Case { name: "LR of a Shared line", shape: ONE_LINE, words: &[LUI_X8, LW_X5, FENCE, LR_X6, FENCE], posts: &[(2, 256, SHARED_REPLY)], steps: &[Ticks(0, 5), See(&[Holds(256, SHARED), Register(6, 11), Counted(Accesses, 2), Pc(4112), AskedLast(FIRST), Reserved(RESERVED)])] },
    Case { name: "LR of an Exclusive line", shape: ONE_LINE, words: &[LUI_X8, LW_X5, FENCE, LR_X6, FENCE], posts: &[(2, 256, REPLY)], steps: &[Ticks(0, 5), See(&[Holds(256, EXCLUSIVE), Register(6, 11), Counted(Accesses, 2), Pc(4112), AskedLast(FIRST), Reserved(RESERVED)])] },
    Case { name: "LR of a Modified line", shape: ONE_LINE, words: &[LUI_X8, LW_X5, SW_X8, LR_X6, FENCE], posts: &[(2, 256, REPLY)], steps: &[Ticks(0, 5), See(&[Holds(256, MODIFIED), Register(6, 8192), Counted(Accesses, 3), Pc(4112), AskedLast(FIRST), Reserved(RESERVED)])] },
    // A store writes a line that no other cache holds, and leaves a reservation in it.
    Case { name: "a store of a line that is not held", shape: ONE_LINE, words: &[LUI_X8, FENCE, FENCE, FENCE, SW_SECOND], posts: &[], steps: &[Ticks(0, 5), See(&[Holds(256, None), Register(6, 0), Counted(Accesses, 0), Pc(4112), AskedLast(OWN), Reserved(None)])] },
    Case { name: "a store of a Shared line, in which a word is reserved", shape: ONE_LINE, words: &[LUI_X8, LR_X5, FENCE, SW_SECOND, FENCE], posts: &[(2, 256, SHARED_REPLY)], steps: &[Ticks(0, 5), See(&[Holds(256, SHARED), Register(6, 0), Counted(Accesses, 1), Pc(4108), AskedLast(OWN), Reserved(RESERVED)])] },
    Case { name: "a store of an Exclusive line, in which a word is reserved", shape: ONE_LINE, words: &[LUI_X8, LR_X5, FENCE, SW_SECOND, FENCE], posts: &[(2, 256, REPLY)], steps: &[Ticks(0, 5), See(&[Holds(256, SECOND_STORED), Register(6, 0), Counted(Accesses, 2), Pc(4112), AskedLast(FIRST), Reserved(RESERVED)])] },
    Case { name: "a store of a Modified line, in which a word is reserved", shape: ONE_LINE, words: &[LUI_X8, LR_X5, SW_X8, SW_SECOND, FENCE], posts: &[(2, 256, REPLY)], steps: &[Ticks(0, 5), See(&[Holds(256, BOTH_STORED), Register(6, 0), Counted(Accesses, 3), Pc(4112), AskedLast(FIRST), Reserved(RESERVED)])] },
    // An AMO gives the old word and writes the sum, and leaves a reservation of its word.
    Case { name: "an AMO of a line that is not held", shape: ONE_LINE, words: &[LUI_X8, FENCE, FENCE, FENCE, AMOADD_X6], posts: &[], steps: &[Ticks(0, 5), See(&[Holds(256, None), Register(6, 0), Counted(Accesses, 0), Pc(4112), AskedLast(OWN), Reserved(None)])] },
    Case { name: "an AMO of a Shared line, where its word is reserved", shape: ONE_LINE, words: &[LUI_X8, LR_X5, FENCE, AMOADD_X6, FENCE], posts: &[(2, 256, SHARED_REPLY)], steps: &[Ticks(0, 5), See(&[Holds(256, SHARED), Register(6, 0), Counted(Accesses, 1), Pc(4108), AskedLast(OWN), Reserved(RESERVED)])] },
    Case { name: "an AMO of an Exclusive line, where its word is reserved", shape: ONE_LINE, words: &[LUI_X8, LR_X5, FENCE, AMOADD_X6, FENCE], posts: &[(2, 256, REPLY)], steps: &[Ticks(0, 5), See(&[Holds(256, ADDED), Register(6, 11), Counted(Accesses, 2), Pc(4112), AskedLast(FIRST), Reserved(RESERVED)])] },
    Case { name: "an AMO of a Modified line, where its word is reserved", shape: ONE_LINE, words: &[LUI_X8, LR_X5, SW_X8, AMOADD_X6, FENCE], posts: &[(2, 256, REPLY)], steps: &[Ticks(0, 5), See(&[Holds(256, ADDED_TO_STORED), Register(6, 8192), Counted(Accesses, 3), Pc(4112), AskedLast(FIRST), Reserved(RESERVED)])] },
    // An SC of the reserved word. A miss keeps the reservation, since the SC is executed again.
    Case { name: "an SC of a Shared line", shape: ONE_LINE, words: &[LUI_X8, LR_X5, FENCE, SC_X6, FENCE], posts: &[(2, 256, SHARED_REPLY)], steps: &[Ticks(0, 5), See(&[Holds(256, SHARED), Register(6, 0), Counted(Accesses, 1), Pc(4108), AskedLast(OWN), Reserved(RESERVED)])] },
    Case { name: "an SC of an Exclusive line", shape: ONE_LINE, words: &[LUI_X8, LR_X5, FENCE, SC_X6, FENCE], posts: &[(2, 256, REPLY)], steps: &[Ticks(0, 5), See(&[Holds(256, MODIFIED), Register(6, 0), Counted(Accesses, 2), Pc(4112), AskedLast(FIRST), Reserved(None)])] },
    Case { name: "an SC of a Modified line", shape: ONE_LINE, words: &[LUI_X8, LR_X5, SW_X8, SC_X6, FENCE], posts: &[(2, 256, REPLY)], steps: &[Ticks(0, 5), See(&[Holds(256, MODIFIED), Register(6, 0), Counted(Accesses, 3), Pc(4112), AskedLast(FIRST), Reserved(None)])] },
    // An SC without a reservation gives 1, whatever the cache holds, and accesses nothing.
    Case { name: "an SC without a reservation of a line that is not held", shape: ONE_LINE, words: &[LUI_X8, FENCE, FENCE, FENCE, SC_X6], posts: &[], steps: &[Ticks(0, 5), See(&[Holds(256, None), Register(6, 1), Counted(Accesses, 0), Pc(4116), AskedLast(None), Reserved(None)])] },
    Case { name: "an SC without a reservation of a Shared line", shape: ONE_LINE, words: &[LUI_X8, LW_X5, FENCE, SC_X6, FENCE], posts: &[(2, 256, SHARED_REPLY)], steps: &[Ticks(0, 5), See(&[Holds(256, SHARED), Register(6, 1), Counted(Accesses, 1), Pc(4112), AskedLast(FIRST), Reserved(None)])] },
    Case { name: "an SC without a reservation of an Exclusive line", shape: ONE_LINE, words: &[LUI_X8, LW_X5, FENCE, SC_X6, FENCE], posts: &[(2, 256, REPLY)], steps: &[Ticks(0, 5), See(&[Holds(256, EXCLUSIVE), Register(6, 1), Counted(Accesses, 1), Pc(4112), AskedLast(FIRST), Reserved(None)])] },
    Case { name: "an SC without a reservation of a Modified line", shape: ONE_LINE, words: &[LUI_X8, LW_X5, SW_X8, SC_X6, FENCE], posts: &[(2, 256, REPLY)], steps: &[Ticks(0, 5), See(&[Holds(256, MODIFIED), Register(6, 1), Counted(Accesses, 2), Pc(4112), AskedLast(FIRST), Reserved(None)])] },
];

/// A post in cycle 4.
#[rattlefmt::skip]
const POSTS: &[Case] = &[
    Case { name: "an exclusive reply of a line that is not held", shape: ONE_LINE, words: NOT_HELD, posts: &[(4, 256, NEW_REPLY)], steps: &[Ticks(0, 5), See(&[Holds(256, FILLED), AskedLast(None)])] },
    Case { name: "an exclusive reply of a Shared line", shape: ONE_LINE, words: HELD_LINE, posts: &[(2, 256, SHARED_REPLY), (4, 256, NEW_REPLY)], steps: &[Ticks(0, 5), See(&[Holds(256, FILLED), AskedLast(FIRST)])] },
    Case { name: "an exclusive reply of an Exclusive line", shape: ONE_LINE, words: HELD_LINE, posts: &[(2, 256, REPLY), (4, 256, NEW_REPLY)], steps: &[Ticks(0, 5), See(&[Holds(256, FILLED), AskedLast(FIRST)])] },
    Case { name: "an exclusive reply of a Modified line", shape: ONE_LINE, words: STORED_LINE, posts: &[(2, 256, REPLY), (4, 256, NEW_REPLY)], steps: &[Ticks(0, 5), See(&[Holds(256, FILLED), AskedLast(FIRST)])] },
    Case { name: "a shared reply of a line that is not held", shape: ONE_LINE, words: NOT_HELD, posts: &[(4, 256, NEW_SHARED_REPLY)], steps: &[Ticks(0, 5), See(&[Holds(256, FILLED_SHARED), AskedLast(None)])] },
    Case { name: "a shared reply of a Shared line", shape: ONE_LINE, words: HELD_LINE, posts: &[(2, 256, SHARED_REPLY), (4, 256, NEW_SHARED_REPLY)], steps: &[Ticks(0, 5), See(&[Holds(256, FILLED_SHARED), AskedLast(FIRST)])] },
    Case { name: "a shared reply of an Exclusive line", shape: ONE_LINE, words: HELD_LINE, posts: &[(2, 256, REPLY), (4, 256, NEW_SHARED_REPLY)], steps: &[Ticks(0, 5), See(&[Holds(256, FILLED_SHARED), AskedLast(FIRST)])] },
    Case { name: "a shared reply of a Modified line", shape: ONE_LINE, words: STORED_LINE, posts: &[(2, 256, REPLY), (4, 256, NEW_SHARED_REPLY)], steps: &[Ticks(0, 5), See(&[Holds(256, FILLED_SHARED), AskedLast(FIRST)])] },
    Case { name: "a retry of a line that is not held", shape: ONE_LINE, words: NOT_HELD, posts: &[(4, 256, PostKind::Retry)], steps: &[Ticks(0, 5), See(&[Holds(256, None), AskedLast(None)])] },
    Case { name: "a retry of a Shared line", shape: ONE_LINE, words: HELD_LINE, posts: &[(2, 256, SHARED_REPLY), (4, 256, PostKind::Retry)], steps: &[Ticks(0, 5), See(&[Holds(256, SHARED), AskedLast(FIRST)])] },
    Case { name: "a retry of an Exclusive line", shape: ONE_LINE, words: HELD_LINE, posts: &[(2, 256, REPLY), (4, 256, PostKind::Retry)], steps: &[Ticks(0, 5), See(&[Holds(256, EXCLUSIVE), AskedLast(FIRST)])] },
    Case { name: "a retry of a Modified line", shape: ONE_LINE, words: STORED_LINE, posts: &[(2, 256, REPLY), (4, 256, PostKind::Retry)], steps: &[Ticks(0, 5), See(&[Holds(256, MODIFIED), AskedLast(FIRST)])] },
    Case { name: "a snoop that shares of a line that is not held", shape: ONE_LINE, words: NOT_HELD, posts: &[(4, 256, PostKind::SnoopShare)], steps: &[Ticks(0, 5), See(&[Holds(256, None), AskedLast(FLUSH)])] },
    Case { name: "a snoop that shares of a Shared line", shape: ONE_LINE, words: HELD_LINE, posts: &[(2, 256, SHARED_REPLY), (4, 256, PostKind::SnoopShare)], steps: &[Ticks(0, 5), See(&[Holds(256, SHARED), AskedLast(FLUSH_CLEAN)])] },
    Case { name: "a snoop that shares of an Exclusive line", shape: ONE_LINE, words: HELD_LINE, posts: &[(2, 256, REPLY), (4, 256, PostKind::SnoopShare)], steps: &[Ticks(0, 5), See(&[Holds(256, SHARED), AskedLast(FLUSH_CLEAN)])] },
    Case { name: "a snoop that shares of a Modified line", shape: ONE_LINE, words: STORED_LINE, posts: &[(2, 256, REPLY), (4, 256, PostKind::SnoopShare)], steps: &[Ticks(0, 5), See(&[Holds(256, STORED_SHARED), AskedLast(FLUSH_STORED)])] },
    Case { name: "a snoop that takes of a line that is not held", shape: ONE_LINE, words: NOT_HELD, posts: &[(4, 256, PostKind::SnoopOwn)], steps: &[Ticks(0, 5), See(&[Holds(256, None), AskedLast(FLUSH)])] },
    Case { name: "a snoop that takes of a Shared line", shape: ONE_LINE, words: HELD_LINE, posts: &[(2, 256, SHARED_REPLY), (4, 256, PostKind::SnoopOwn)], steps: &[Ticks(0, 5), See(&[Holds(256, None), AskedLast(FLUSH_CLEAN)])] },
    Case { name: "a snoop that takes of an Exclusive line", shape: ONE_LINE, words: HELD_LINE, posts: &[(2, 256, REPLY), (4, 256, PostKind::SnoopOwn)], steps: &[Ticks(0, 5), See(&[Holds(256, None), AskedLast(FLUSH_CLEAN)])] },
    Case { name: "a snoop that takes of a Modified line", shape: ONE_LINE, words: STORED_LINE, posts: &[(2, 256, REPLY), (4, 256, PostKind::SnoopOwn)], steps: &[Ticks(0, 5), See(&[Holds(256, None), AskedLast(FLUSH_STORED)])] },
    Case { name: "an invalidation of a line that is not held", shape: ONE_LINE, words: NOT_HELD, posts: &[(4, 256, PostKind::Invalidate)], steps: &[Ticks(0, 5), See(&[Holds(256, None), AskedLast(None)])] },
    Case { name: "an invalidation of a Shared line", shape: ONE_LINE, words: HELD_LINE, posts: &[(2, 256, SHARED_REPLY), (4, 256, PostKind::Invalidate)], steps: &[Ticks(0, 5), See(&[Holds(256, None), AskedLast(FIRST)])] },
    Case { name: "an invalidation of an Exclusive line", shape: ONE_LINE, words: HELD_LINE, posts: &[(2, 256, REPLY), (4, 256, PostKind::Invalidate)], steps: &[Ticks(0, 5), See(&[Holds(256, None), AskedLast(FIRST)])] },
    Case { name: "an invalidation of a Modified line", shape: ONE_LINE, words: STORED_LINE, posts: &[(2, 256, REPLY), (4, 256, PostKind::Invalidate)], steps: &[Ticks(0, 5), See(&[Holds(256, None), AskedLast(FIRST)])] },
];

/// A post to a core that has reserved a word of the line. A reservation in the line stays, but where another core takes the
/// line. Of a line that isn't held there is none.
#[rattlefmt::skip]
const RESERVATIONS: &[Case] = &[
    Case { name: "an exclusive reply of a line that is not held", shape: ONE_LINE, words: NOT_HELD, posts: &[(4, 256, NEW_REPLY)], steps: &[Ticks(0, 5), See(&[Counted(Snoops, 0), Counted(Retries, 0), Reserved(None)])] },
    Case { name: "an exclusive reply of a Shared line in which a word is reserved", shape: ONE_LINE, words: RESERVED_LINE, posts: &[(2, 256, SHARED_REPLY), (4, 256, NEW_REPLY)], steps: &[Ticks(0, 5), See(&[Counted(Snoops, 0), Counted(Retries, 0), Reserved(RESERVED)])] },
    Case { name: "an exclusive reply of an Exclusive line in which a word is reserved", shape: ONE_LINE, words: RESERVED_LINE, posts: &[(2, 256, REPLY), (4, 256, NEW_REPLY)], steps: &[Ticks(0, 5), See(&[Counted(Snoops, 0), Counted(Retries, 0), Reserved(RESERVED)])] },
    Case { name: "an exclusive reply of a Modified line in which a word is reserved", shape: ONE_LINE, words: RESERVED_STORED_LINE, posts: &[(2, 256, REPLY), (4, 256, NEW_REPLY)], steps: &[Ticks(0, 5), See(&[Counted(Snoops, 0), Counted(Retries, 0), Reserved(RESERVED)])] },
    Case { name: "a shared reply of a line that is not held", shape: ONE_LINE, words: NOT_HELD, posts: &[(4, 256, NEW_SHARED_REPLY)], steps: &[Ticks(0, 5), See(&[Counted(Snoops, 0), Counted(Retries, 0), Reserved(None)])] },
    Case { name: "a shared reply of a Shared line in which a word is reserved", shape: ONE_LINE, words: RESERVED_LINE, posts: &[(2, 256, SHARED_REPLY), (4, 256, NEW_SHARED_REPLY)], steps: &[Ticks(0, 5), See(&[Counted(Snoops, 0), Counted(Retries, 0), Reserved(RESERVED)])] },
    Case { name: "a shared reply of an Exclusive line in which a word is reserved", shape: ONE_LINE, words: RESERVED_LINE, posts: &[(2, 256, REPLY), (4, 256, NEW_SHARED_REPLY)], steps: &[Ticks(0, 5), See(&[Counted(Snoops, 0), Counted(Retries, 0), Reserved(RESERVED)])] },
    Case { name: "a shared reply of a Modified line in which a word is reserved", shape: ONE_LINE, words: RESERVED_STORED_LINE, posts: &[(2, 256, REPLY), (4, 256, NEW_SHARED_REPLY)], steps: &[Ticks(0, 5), See(&[Counted(Snoops, 0), Counted(Retries, 0), Reserved(RESERVED)])] },
    Case { name: "a retry of a line that is not held", shape: ONE_LINE, words: NOT_HELD, posts: &[(4, 256, PostKind::Retry)], steps: &[Ticks(0, 5), See(&[Counted(Snoops, 0), Counted(Retries, 1), Reserved(None)])] },
    Case { name: "a retry of a Shared line in which a word is reserved", shape: ONE_LINE, words: RESERVED_LINE, posts: &[(2, 256, SHARED_REPLY), (4, 256, PostKind::Retry)], steps: &[Ticks(0, 5), See(&[Counted(Snoops, 0), Counted(Retries, 1), Reserved(RESERVED)])] },
    Case { name: "a retry of an Exclusive line in which a word is reserved", shape: ONE_LINE, words: RESERVED_LINE, posts: &[(2, 256, REPLY), (4, 256, PostKind::Retry)], steps: &[Ticks(0, 5), See(&[Counted(Snoops, 0), Counted(Retries, 1), Reserved(RESERVED)])] },
    Case { name: "a retry of a Modified line in which a word is reserved", shape: ONE_LINE, words: RESERVED_STORED_LINE, posts: &[(2, 256, REPLY), (4, 256, PostKind::Retry)], steps: &[Ticks(0, 5), See(&[Counted(Snoops, 0), Counted(Retries, 1), Reserved(RESERVED)])] },
    Case { name: "a snoop that shares of a line that is not held", shape: ONE_LINE, words: NOT_HELD, posts: &[(4, 256, PostKind::SnoopShare)], steps: &[Ticks(0, 5), See(&[Counted(Snoops, 1), Counted(Retries, 0), Reserved(None)])] },
    Case { name: "a snoop that shares of a Shared line in which a word is reserved", shape: ONE_LINE, words: RESERVED_LINE, posts: &[(2, 256, SHARED_REPLY), (4, 256, PostKind::SnoopShare)], steps: &[Ticks(0, 5), See(&[Counted(Snoops, 1), Counted(Retries, 0), Reserved(RESERVED)])] },
    Case { name: "a snoop that shares of an Exclusive line in which a word is reserved", shape: ONE_LINE, words: RESERVED_LINE, posts: &[(2, 256, REPLY), (4, 256, PostKind::SnoopShare)], steps: &[Ticks(0, 5), See(&[Counted(Snoops, 1), Counted(Retries, 0), Reserved(RESERVED)])] },
    Case { name: "a snoop that shares of a Modified line in which a word is reserved", shape: ONE_LINE, words: RESERVED_STORED_LINE, posts: &[(2, 256, REPLY), (4, 256, PostKind::SnoopShare)], steps: &[Ticks(0, 5), See(&[Counted(Snoops, 1), Counted(Retries, 0), Reserved(RESERVED)])] },
    Case { name: "a snoop that takes of a line that is not held", shape: ONE_LINE, words: NOT_HELD, posts: &[(4, 256, PostKind::SnoopOwn)], steps: &[Ticks(0, 5), See(&[Counted(Snoops, 1), Counted(Retries, 0), Reserved(None)])] },
    Case { name: "a snoop that takes of a Shared line in which a word is reserved", shape: ONE_LINE, words: RESERVED_LINE, posts: &[(2, 256, SHARED_REPLY), (4, 256, PostKind::SnoopOwn)], steps: &[Ticks(0, 5), See(&[Counted(Snoops, 1), Counted(Retries, 0), Reserved(None)])] },
    Case { name: "a snoop that takes of an Exclusive line in which a word is reserved", shape: ONE_LINE, words: RESERVED_LINE, posts: &[(2, 256, REPLY), (4, 256, PostKind::SnoopOwn)], steps: &[Ticks(0, 5), See(&[Counted(Snoops, 1), Counted(Retries, 0), Reserved(None)])] },
    Case { name: "a snoop that takes of a Modified line in which a word is reserved", shape: ONE_LINE, words: RESERVED_STORED_LINE, posts: &[(2, 256, REPLY), (4, 256, PostKind::SnoopOwn)], steps: &[Ticks(0, 5), See(&[Counted(Snoops, 1), Counted(Retries, 0), Reserved(None)])] },
    Case { name: "an invalidation of a line that is not held", shape: ONE_LINE, words: NOT_HELD, posts: &[(4, 256, PostKind::Invalidate)], steps: &[Ticks(0, 5), See(&[Counted(Snoops, 1), Counted(Retries, 0), Reserved(None)])] },
    Case { name: "an invalidation of a Shared line in which a word is reserved", shape: ONE_LINE, words: RESERVED_LINE, posts: &[(2, 256, SHARED_REPLY), (4, 256, PostKind::Invalidate)], steps: &[Ticks(0, 5), See(&[Counted(Snoops, 1), Counted(Retries, 0), Reserved(None)])] },
    Case { name: "an invalidation of an Exclusive line in which a word is reserved", shape: ONE_LINE, words: RESERVED_LINE, posts: &[(2, 256, REPLY), (4, 256, PostKind::Invalidate)], steps: &[Ticks(0, 5), See(&[Counted(Snoops, 1), Counted(Retries, 0), Reserved(None)])] },
    Case { name: "an invalidation of a Modified line in which a word is reserved", shape: ONE_LINE, words: RESERVED_STORED_LINE, posts: &[(2, 256, REPLY), (4, 256, PostKind::Invalidate)], steps: &[Ticks(0, 5), See(&[Counted(Snoops, 1), Counted(Retries, 0), Reserved(None)])] },
];

/// A load missed in cycle 1. A reply, of any line, and a retry end the waiting in cycle 3, in which the load is executed
/// again.
#[rattlefmt::skip]
const WAITING: &[Case] = &[
    Case { name: "an exclusive reply of the line comes to a core that waits", shape: ONE_LINE, words: &[LUI_X8, LW_X5], posts: &[(3, 256, NEW_REPLY)], steps: &[Ticks(0, 4), See(&[Counted(Waits, 1), Counted(Misses, 1), Counted(Retired, 2), Asks(1)])] },
    Case { name: "a shared reply of the line comes to a core that waits", shape: ONE_LINE, words: &[LUI_X8, LW_X5], posts: &[(3, 256, NEW_SHARED_REPLY)], steps: &[Ticks(0, 4), See(&[Counted(Waits, 1), Counted(Misses, 1), Counted(Retired, 2), Asks(1)])] },
    Case { name: "an exclusive reply of another line comes to a core that waits", shape: ONE_LINE, words: &[LUI_X8, LW_X5], posts: &[(3, 257, NEW_REPLY)], steps: &[Ticks(0, 4), See(&[Counted(Waits, 1), Counted(Misses, 2), Counted(Retired, 1), Asks(2)])] },
    Case { name: "a retry of the line comes to a core that waits", shape: ONE_LINE, words: &[LUI_X8, LW_X5], posts: &[(3, 256, PostKind::Retry)], steps: &[Ticks(0, 4), See(&[Counted(Waits, 1), Counted(Misses, 2), Counted(Retired, 1), Asks(2)])] },
    Case { name: "a snoop that shares of the line comes to a core that waits", shape: ONE_LINE, words: &[LUI_X8, LW_X5], posts: &[(3, 256, PostKind::SnoopShare)], steps: &[Ticks(0, 4), See(&[Counted(Waits, 2), Counted(Misses, 1), Counted(Retired, 1), Asks(2)])] },
    Case { name: "a snoop that takes of the line comes to a core that waits", shape: ONE_LINE, words: &[LUI_X8, LW_X5], posts: &[(3, 256, PostKind::SnoopOwn)], steps: &[Ticks(0, 4), See(&[Counted(Waits, 2), Counted(Misses, 1), Counted(Retired, 1), Asks(2)])] },
    Case { name: "an invalidation of the line comes to a core that waits", shape: ONE_LINE, words: &[LUI_X8, LW_X5], posts: &[(3, 256, PostKind::Invalidate)], steps: &[Ticks(0, 4), See(&[Counted(Waits, 2), Counted(Misses, 1), Counted(Retired, 1), Asks(1)])] },
];

/// Another line is filled. A Modified victim alone is sent back; a reservation in any victim is lost. Of two ways, the line
/// that was used first falls out.
#[rattlefmt::skip]
const VICTIMS: &[Case] = &[
    Case { name: "a Shared line falls out", shape: ONE_LINE, words: RESERVED_LINE, posts: &[(2, 256, SHARED_REPLY), (4, 257, REPLY)], steps: &[Ticks(0, 5), See(&[Holds(256, None), Holds(257, EXCLUSIVE), Counted(WriteBacks, 0), Reserved(None), AskedLast(FIRST)])] },
    Case { name: "an Exclusive line falls out", shape: ONE_LINE, words: RESERVED_LINE, posts: &[(2, 256, REPLY), (4, 257, REPLY)], steps: &[Ticks(0, 5), See(&[Holds(256, None), Holds(257, EXCLUSIVE), Counted(WriteBacks, 0), Reserved(None), AskedLast(FIRST)])] },
    Case { name: "a Modified line falls out", shape: ONE_LINE, words: RESERVED_STORED_LINE, posts: &[(2, 256, REPLY), (4, 257, REPLY)], steps: &[Ticks(0, 5), See(&[Holds(256, None), Holds(257, EXCLUSIVE), Counted(WriteBacks, 1), Reserved(None), AskedLast(BACK)])] },
    Case { name: "the line used first falls out, and a reservation in the other stays", shape: (1, 2), words: &[LUI_X8, LW_NEXT_LINE, LR_X5, FENCE], posts: &[(2, 257, REPLY), (4, 256, REPLY), (5, 258, REPLY)], steps: &[Ticks(0, 6), See(&[Holds(257, None), Holds(256, EXCLUSIVE), Holds(258, EXCLUSIVE), Reserved(Some(8192)), Asks(2)])] },
    Case { name: "the line used first falls out, and the reservation in it with it", shape: (1, 2), words: &[LUI_X8, LR_X5, LW_NEXT_LINE, FENCE], posts: &[(2, 256, REPLY), (4, 257, REPLY), (5, 258, REPLY)], steps: &[Ticks(0, 6), See(&[Holds(256, None), Holds(257, EXCLUSIVE), Holds(258, EXCLUSIVE), Reserved(None), Asks(2)])] },
];

#[test]
fn what_instructions_do_to_lines(rt: HostRuntime) {
    check(&rt, rt.alloc(), INSTRUCTIONS);
}

#[test]
fn what_posts_do_to_lines(rt: HostRuntime) {
    check(&rt, rt.alloc(), POSTS);
}

#[test]
fn what_posts_do_to_reservations_and_counts(rt: HostRuntime) {
    check(&rt, rt.alloc(), RESERVATIONS);
}

#[test]
fn a_reply_or_a_retry_ends_the_waiting(rt: HostRuntime) {
    check(&rt, rt.alloc(), WAITING);
}

#[test]
fn what_a_fill_drives_out(rt: HostRuntime) {
    check(&rt, rt.alloc(), VICTIMS);
}
