//! Small histories over one channel, and what is recorded of them, worked out by hand. An id is written as its cycle, its
//! core and its number, as 4.1.0.

use slack_base::Ask::{Flush, Put, Read, ReadOwn, WriteBack};
use slack_base::PostKind::{Invalidate, Reply, Retry, SnoopOwn, SnoopShare};
use slack_base::Violation::{Bus, Line, Map, Reply as LateReply};
use slack_base::{Ask, Id, Post, PostKind, Taken, Violation, Words};

const ZEROS: Words = Words {
    w0: 0,
    w1: 0,
    w2: 0,
    w3: 0,
};

/// Asks in the order in which they are served, each with what it clashes with. An ask whose slot is free clashes with
/// nothing, also where it is out of order.
#[rattlefmt::skip]
pub const SERVED: [(Ask, Option<Id>); 12] = [
    (Read { id: Id { cycle: 4, core: 1, number: 0 }, line: 5 }, None),
    // In order, for another line.
    (ReadOwn { id: Id { cycle: 6, core: 0, number: 0 }, line: 6 }, None),
    // Out of order on the channel, and in order for its line, after 4.1.0.
    (Read { id: Id { cycle: 5, core: 2, number: 0 }, line: 5 }, Some(Id { cycle: 6, core: 0, number: 0 })),
    // A byte for the console out of order: it is of no line.
    (Put { id: Id { cycle: 3, core: 0, number: 0 }, byte: 65 }, Some(Id { cycle: 6, core: 0, number: 0 })),
    // Below 5.2.0 of its line, above 4.1.0 of the same tick: out of order for its line alone.
    (Flush { id: Id { cycle: 4, core: 1, number: 1 }, line: 5, words: None }, None),
    // Below 4.1.0, 5.2.0 and 4.1.1 of its line: the greatest of them is named.
    (WriteBack { id: Id { cycle: 4, core: 0, number: 0 }, line: 5, words: ZEROS }, Some(Id { cycle: 6, core: 0, number: 0 })),
    // After 6.0.0, of the same tick: in order.
    (Read { id: Id { cycle: 6, core: 0, number: 1 }, line: 6 }, None),
    // In order for line 5, whatever came for line 6.
    (ReadOwn { id: Id { cycle: 6, core: 1, number: 0 }, line: 5 }, None),
    // Of the same cycle as 6.1.0, of a lower core.
    (Flush { id: Id { cycle: 6, core: 0, number: 2 }, line: 5, words: Some(ZEROS) }, None),
    // A byte in order, and after it an ask that is below it, the first one of its line.
    (Put { id: Id { cycle: 9, core: 2, number: 0 }, byte: 66 }, None),
    (Read { id: Id { cycle: 7, core: 2, number: 0 }, line: 0 }, Some(Id { cycle: 9, core: 2, number: 0 })),
    // The next of its tick: in order for line 0.
    (Read { id: Id { cycle: 7, core: 2, number: 1 }, line: 0 }, Some(Id { cycle: 9, core: 2, number: 0 })),
];

/// What is recorded of these asks.
#[rattlefmt::skip]
pub const OF_SERVED: [Violation; 8] = [
    Bus { channel: 0, high: Id { cycle: 6, core: 0, number: 0 }, low: Id { cycle: 5, core: 2, number: 0 } },
    Bus { channel: 0, high: Id { cycle: 6, core: 0, number: 0 }, low: Id { cycle: 3, core: 0, number: 0 } },
    Map { line: 5, high: Id { cycle: 5, core: 2, number: 0 }, low: Id { cycle: 4, core: 1, number: 1 } },
    Bus { channel: 0, high: Id { cycle: 6, core: 0, number: 0 }, low: Id { cycle: 4, core: 0, number: 0 } },
    Map { line: 5, high: Id { cycle: 5, core: 2, number: 0 }, low: Id { cycle: 4, core: 0, number: 0 } },
    Map { line: 5, high: Id { cycle: 6, core: 1, number: 0 }, low: Id { cycle: 6, core: 0, number: 2 } },
    Bus { channel: 0, high: Id { cycle: 9, core: 2, number: 0 }, low: Id { cycle: 7, core: 2, number: 0 } },
    Bus { channel: 0, high: Id { cycle: 9, core: 2, number: 0 }, low: Id { cycle: 7, core: 2, number: 1 } },
];

/// The clock at which the drift ends.
pub const END: u64 = 30;

/// The stamp of the posts.
const ASK: Id = Id {
    cycle: 2,
    core: 1,
    number: 0,
};

const REPLY: PostKind = Reply {
    exclusive: true,
    words: ZEROS,
};

/// Posts that core 0 takes: each kind in time, and later.
#[rattlefmt::skip]
pub const TAKEN_BY_0: [Taken; 9] = [
    Taken { post: Post { to: 0, due: 4, id: ASK, line: 5, kind: Retry }, clock: 4, touched: 0 },
    Taken { post: Post { to: 0, due: 4, id: ASK, line: 5, kind: Retry }, clock: 5, touched: 0 },
    Taken { post: Post { to: 0, due: 9, id: ASK, line: 5, kind: REPLY }, clock: 8, touched: 0 },
    Taken { post: Post { to: 0, due: 9, id: ASK, line: 5, kind: REPLY }, clock: 9, touched: 0 },
    Taken { post: Post { to: 0, due: 9, id: ASK, line: 5, kind: REPLY }, clock: 12, touched: 0 },
    Taken { post: Post { to: 0, due: 12, id: ASK, line: 5, kind: SnoopShare }, clock: 12, touched: 0 },
    Taken { post: Post { to: 0, due: 12, id: ASK, line: 5, kind: SnoopShare }, clock: 13, touched: 0 },
    Taken { post: Post { to: 0, due: 13, id: ASK, line: 5, kind: SnoopOwn }, clock: 13, touched: 0 },
    Taken { post: Post { to: 0, due: 13, id: ASK, line: 5, kind: SnoopOwn }, clock: 20, touched: 0 },
];

/// What is recorded of these posts.
#[rattlefmt::skip]
pub const OF_CORE_0: [Violation; 4] = [
    LateReply { core: 0, id: ASK, due: 4, clock: 5 },
    LateReply { core: 0, id: ASK, due: 9, clock: 12 },
    Line { core: 0, id: ASK, due: 12, clock: 13 },
    Line { core: 0, id: ASK, due: 13, clock: 20 },
];

/// Posts that core 2 takes, most of them an Invalidate. A late one is harmless where the core touched up to its due at
/// most, and where it is taken before the end.
#[rattlefmt::skip]
pub const TAKEN_BY_2: [Taken; 8] = [
    Taken { post: Post { to: 2, due: 12, id: ASK, line: 5, kind: Invalidate }, clock: 12, touched: 13 },
    Taken { post: Post { to: 2, due: 12, id: ASK, line: 5, kind: Invalidate }, clock: 15, touched: 12 },
    Taken { post: Post { to: 2, due: 12, id: ASK, line: 5, kind: Invalidate }, clock: 15, touched: 13 },
    Taken { post: Post { to: 2, due: 22, id: ASK, line: 5, kind: Invalidate }, clock: 29, touched: 16 },
    Taken { post: Post { to: 2, due: 22, id: ASK, line: 5, kind: Invalidate }, clock: 30, touched: 16 },
    Taken { post: Post { to: 2, due: 30, id: ASK, line: 5, kind: Invalidate }, clock: 30, touched: 31 },
    Taken { post: Post { to: 2, due: 30, id: ASK, line: 5, kind: SnoopOwn }, clock: 30, touched: 0 },
    Taken { post: Post { to: 2, due: 29, id: ASK, line: 5, kind: Retry }, clock: 30, touched: 0 },
];

/// What is recorded of these posts.
#[rattlefmt::skip]
pub const OF_CORE_2: [Violation; 3] = [
    Line { core: 2, id: ASK, due: 12, clock: 15 },
    Line { core: 2, id: ASK, due: 22, clock: 30 },
    LateReply { core: 2, id: ASK, due: 29, clock: 30 },
];
