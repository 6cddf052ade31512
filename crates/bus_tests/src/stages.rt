//! Entries of line 256, and what each kind of ask makes of them.
use crate::entries::{Asked, Stage};
use crate::requests::Request::{Flush, Read, ReadOwn, WriteBack};
use crate::requests::{View, ZEROS};
use slack_base::PostKind::{Invalidate, Reply, Retry, SnoopOwn, SnoopShare};
use slack_base::{PostKind, Words};
use status_map::EntryKind;
use status_map::EntryKind::{Idle, Moving, Owned, Shared};

/// Lines with a word at their front.
const FIVE: Words = Words { w0: 5, ..ZEROS };

const SIX: Words = Words { w0: 6, ..ZEROS };

const SEVEN: Words = Words { w0: 7, ..ZEROS };

const NINE: Words = Words { w0: 9, ..ZEROS };

/// Replies with these words, to be held alone or among sharers.
const ZEROS_ALONE: PostKind = Reply {
    exclusive: true,
    words: ZEROS,
};

const FIVE_ALONE: PostKind = Reply {
    exclusive: true,
    words: FIVE,
};

const SIX_ALONE: PostKind = Reply {
    exclusive: true,
    words: SIX,
};

const SEVEN_ALONE: PostKind = Reply {
    exclusive: true,
    words: SEVEN,
};

const NINE_ALONE: PostKind = Reply {
    exclusive: true,
    words: NINE,
};

const FIVE_SHARED: PostKind = Reply {
    exclusive: false,
    words: FIVE,
};

const SIX_SHARED: PostKind = Reply {
    exclusive: false,
    words: SIX,
};

const SEVEN_SHARED: PostKind = Reply {
    exclusive: false,
    words: SEVEN,
};

const NINE_SHARED: PostKind = Reply {
    exclusive: false,
    words: NINE,
};

/// Core 0 asks to own the line: it has it from cycle 10 on.
const TAKEN: Asked = (0, ReadOwn(256), 0, &[(0, 10, FIVE_ALONE)]);

/// Core 1 asks for the line of core 0 once it is settled, to read it or to own it.
const SHARED_OUT: Asked = (1, Read(256), 11, &[(0, 13, SnoopShare)]);

const TAKEN_OVER: Asked = (1, ReadOwn(256), 11, &[(0, 13, SnoopOwn)]);

/// Core 0 answers with another word: both have the line from cycle 16 on.
const FLUSHED: Asked = (0, Flush(256, Some(SIX)), 13, &[(1, 16, SIX_SHARED)]);

/// Core 1 waits for the line of core 0, to share it or to own it.
const ASKED_TO_SHARE: EntryKind = Moving {
    owner: 0,
    requester: 1,
    exclusive: false,
};

const ASKED_TO_GIVE: EntryKind = Moving {
    owner: 0,
    requester: 1,
    exclusive: true,
};

const SHARING: View = (ASKED_TO_SHARE, 11, FIVE);

const TAKING: View = (ASKED_TO_GIVE, 11, FIVE);

#[rattlefmt::skip]
pub(crate) const STAGES: [Stage; 11] = [
    Stage { name: "an idle line", words: FIVE, asked: &[], view: (Idle, 0, FIVE), rows: &OF_IDLE },
    Stage { name: "a line of another", words: FIVE, asked: &[TAKEN], view: (Owned { core: 0 }, 11, FIVE), rows: &OF_ANOTHER },
    Stage { name: "an own line", words: FIVE, asked: &[TAKEN], view: (Owned { core: 0 }, 11, FIVE), rows: &OF_ITS_OWNER },
    Stage { name: "a shared line", words: FIVE, asked: &[TAKEN, SHARED_OUT, FLUSHED], view: (Shared { cores: 3 }, 17, SIX), rows: &OF_SHARERS },
    Stage { name: "a line of all cores", words: FIVE, asked: &BY_ALL, view: (Shared { cores: 65535 }, 31, SIX), rows: &OF_ALL },
    Stage { name: "a line to be shared", words: FIVE, asked: &[TAKEN, SHARED_OUT], view: SHARING, rows: &TO_BE_SHARED },
    Stage { name: "a line to be owned", words: FIVE, asked: &[TAKEN, TAKEN_OVER], view: TAKING, rows: &TO_BE_OWNED },
    Stage { name: "a line on its way to be shared", words: FIVE, asked: &[TAKEN, SHARED_OUT], view: SHARING, rows: &ON_ITS_WAY },
    Stage { name: "a line on its way to be owned", words: FIVE, asked: &[TAKEN, TAKEN_OVER], view: TAKING, rows: &ON_ITS_WAY },
    Stage { name: "two cores store to one line", words: ZEROS, asked: &STORES, view: (Owned { core: 1 }, 19, SEVEN), rows: &[] },
    Stage { name: "a write-back passes a snoop", words: ZEROS, asked: &PASSING, view: (Owned { core: 3 }, 51, SEVEN), rows: &[] },
];

#[rattlefmt::skip]
const OF_IDLE: [(Asked, Option<View>); 5] = [
    ((2, Read(256), 7, &[(2, 17, FIVE_ALONE)]), Some((Owned { core: 2 }, 18, FIVE))),
    ((2, ReadOwn(256), 7, &[(2, 17, FIVE_ALONE)]), Some((Owned { core: 2 }, 18, FIVE))),
    ((2, WriteBack(256, NINE), 50, &[]), None),
    ((2, Flush(256, Some(NINE)), 50, &[]), None),
    ((2, Flush(256, None), 50, &[]), None),
];

/// Another core's ask moves an owned line once it is settled, in the cycle after the reply that was promised.
#[rattlefmt::skip]
const OF_ANOTHER: [(Asked, Option<View>); 9] = [
    ((1, Read(256), 0, &[(1, 2, Retry)]), None),
    ((1, Read(256), 10, &[(1, 12, Retry)]), None),
    ((1, ReadOwn(256), 0, &[(1, 2, Retry)]), None),
    ((1, ReadOwn(256), 10, &[(1, 12, Retry)]), None),
    ((1, Read(256), 11, &[(0, 13, SnoopShare)]), Some(SHARING)),
    ((1, ReadOwn(256), 11, &[(0, 13, SnoopOwn)]), Some(TAKING)),
    ((1, WriteBack(256, NINE), 50, &[]), None),
    ((1, Flush(256, Some(NINE)), 50, &[]), None),
    ((1, Flush(256, None), 50, &[]), None),
];

/// The owner itself asks again, or gives its line back.
#[rattlefmt::skip]
const OF_ITS_OWNER: [(Asked, Option<View>); 7] = [
    ((0, Read(256), 10, &[(0, 12, Retry)]), None),
    ((0, ReadOwn(256), 10, &[(0, 12, Retry)]), None),
    ((0, Read(256), 11, &[(0, 21, FIVE_ALONE)]), Some((Owned { core: 0 }, 22, FIVE))),
    ((0, ReadOwn(256), 11, &[(0, 21, FIVE_ALONE)]), Some((Owned { core: 0 }, 22, FIVE))),
    ((0, WriteBack(256, NINE), 11, &[]), Some((Idle, 11, NINE))),
    ((0, Flush(256, Some(NINE)), 50, &[]), None),
    ((0, Flush(256, None), 50, &[]), None),
];

/// A reader needn't wait until the line is settled, and a reply that is due sooner settles it no sooner. One that takes
/// the line waits, and the other sharers are told before its reply.
#[rattlefmt::skip]
const OF_SHARERS: [(Asked, Option<View>); 12] = [
    ((2, Read(256), 1, &[(2, 11, SIX_SHARED)]), Some((Shared { cores: 7 }, 17, SIX))),
    ((2, Read(256), 16, &[(2, 26, SIX_SHARED)]), Some((Shared { cores: 7 }, 27, SIX))),
    ((0, Read(256), 16, &[(0, 26, SIX_SHARED)]), Some((Shared { cores: 3 }, 27, SIX))),
    ((0, WriteBack(256, NINE), 50, &[]), None),
    ((0, Flush(256, Some(NINE)), 50, &[]), None),
    ((0, Flush(256, None), 50, &[]), None),
    ((0, ReadOwn(256), 16, &[(0, 18, Retry)]), None),
    ((1, ReadOwn(256), 16, &[(1, 18, Retry)]), None),
    ((2, ReadOwn(256), 16, &[(2, 18, Retry)]), None),
    ((0, ReadOwn(256), 17, &[(1, 19, Invalidate), (0, 27, SIX_ALONE)]), Some((Owned { core: 0 }, 28, SIX))),
    ((1, ReadOwn(256), 17, &[(0, 19, Invalidate), (1, 27, SIX_ALONE)]), Some((Owned { core: 1 }, 28, SIX))),
    ((2, ReadOwn(256), 17, &[(0, 19, Invalidate), (1, 19, Invalidate), (2, 27, SIX_ALONE)]), Some((Owned { core: 2 }, 28, SIX))),
];

/// Sixteen cores come to share the line.
#[rattlefmt::skip]
const BY_ALL: [Asked; 17] = [
    TAKEN, SHARED_OUT, FLUSHED,
    (2, Read(256), 20, &[(2, 30, SIX_SHARED)]),
    (3, Read(256), 20, &[(3, 30, SIX_SHARED)]),
    (4, Read(256), 20, &[(4, 30, SIX_SHARED)]),
    (5, Read(256), 20, &[(5, 30, SIX_SHARED)]),
    (6, Read(256), 20, &[(6, 30, SIX_SHARED)]),
    (7, Read(256), 20, &[(7, 30, SIX_SHARED)]),
    (8, Read(256), 20, &[(8, 30, SIX_SHARED)]),
    (9, Read(256), 20, &[(9, 30, SIX_SHARED)]),
    (10, Read(256), 20, &[(10, 30, SIX_SHARED)]),
    (11, Read(256), 20, &[(11, 30, SIX_SHARED)]),
    (12, Read(256), 20, &[(12, 30, SIX_SHARED)]),
    (13, Read(256), 20, &[(13, 30, SIX_SHARED)]),
    (14, Read(256), 20, &[(14, 30, SIX_SHARED)]),
    (15, Read(256), 20, &[(15, 30, SIX_SHARED)]),
];

/// One of them takes it: the others are told in their order.
#[rattlefmt::skip]
const OF_ALL: [(Asked, Option<View>); 1] = [
    (
        (3, ReadOwn(256), 31, &[
            (0, 33, Invalidate), (1, 33, Invalidate), (2, 33, Invalidate), (4, 33, Invalidate), (5, 33, Invalidate),
            (6, 33, Invalidate), (7, 33, Invalidate), (8, 33, Invalidate), (9, 33, Invalidate), (10, 33, Invalidate),
            (11, 33, Invalidate), (12, 33, Invalidate), (13, 33, Invalidate), (14, 33, Invalidate), (15, 33, Invalidate),
            (3, 41, SIX_ALONE),
        ]),
        Some((Owned { core: 3 }, 42, SIX)),
    ),
];

#[rattlefmt::skip]
const TO_BE_SHARED: [(Asked, Option<View>); 3] = [
    ((0, WriteBack(256, NINE), 13, &[]), Some((ASKED_TO_SHARE, 11, NINE))),
    ((0, Flush(256, Some(NINE)), 13, &[(1, 16, NINE_SHARED)]), Some((Shared { cores: 3 }, 17, NINE))),
    ((0, Flush(256, None), 13, &[(1, 16, FIVE_SHARED)]), Some((Shared { cores: 2 }, 17, FIVE))),
];

#[rattlefmt::skip]
const TO_BE_OWNED: [(Asked, Option<View>); 3] = [
    ((0, WriteBack(256, NINE), 13, &[]), Some((ASKED_TO_GIVE, 11, NINE))),
    ((0, Flush(256, Some(NINE)), 13, &[(1, 16, NINE_ALONE)]), Some((Owned { core: 1 }, 17, NINE))),
    ((0, Flush(256, None), 13, &[(1, 16, FIVE_ALONE)]), Some((Owned { core: 1 }, 17, FIVE))),
];

/// A line on its way makes each core wait, its owner and its requester too, and only its owner's answer counts.
#[rattlefmt::skip]
const ON_ITS_WAY: [(Asked, Option<View>); 15] = [
    ((0, Read(256), 100, &[(0, 102, Retry)]), None),
    ((1, Read(256), 100, &[(1, 102, Retry)]), None),
    ((2, Read(256), 100, &[(2, 102, Retry)]), None),
    ((0, ReadOwn(256), 100, &[(0, 102, Retry)]), None),
    ((1, ReadOwn(256), 100, &[(1, 102, Retry)]), None),
    ((2, ReadOwn(256), 100, &[(2, 102, Retry)]), None),
    ((0, ReadOwn(256), 10, &[(0, 12, Retry)]), None),
    ((1, ReadOwn(256), 10, &[(1, 12, Retry)]), None),
    ((2, ReadOwn(256), 10, &[(2, 12, Retry)]), None),
    ((1, WriteBack(256, NINE), 50, &[]), None),
    ((2, WriteBack(256, NINE), 50, &[]), None),
    ((1, Flush(256, Some(NINE)), 50, &[]), None),
    ((2, Flush(256, Some(NINE)), 50, &[]), None),
    ((1, Flush(256, None), 50, &[]), None),
    ((2, Flush(256, None), 50, &[]), None),
];

/// Two cores store to one line.
#[rattlefmt::skip]
const STORES: [Asked; 5] = [
    (0, ReadOwn(256), 1, &[(0, 11, ZEROS_ALONE)]),
    (1, ReadOwn(256), 3, &[(1, 5, Retry)]),
    (1, ReadOwn(256), 11, &[(1, 13, Retry)]),
    (1, ReadOwn(256), 13, &[(0, 15, SnoopOwn)]),
    (0, Flush(256, Some(SEVEN)), 15, &[(1, 18, SEVEN_ALONE)]),
];

/// A line is written back while a snoop for it is on its way, and two sharers then lose it.
#[rattlefmt::skip]
const PASSING: [Asked; 6] = [
    (0, ReadOwn(256), 1, &[(0, 11, ZEROS_ALONE)]),
    (1, Read(256), 21, &[(0, 23, SnoopShare)]),
    (0, WriteBack(256, SEVEN), 23, &[]),
    (0, Flush(256, None), 25, &[(1, 28, SEVEN_SHARED)]),
    (2, Read(256), 27, &[(2, 37, SEVEN_SHARED)]),
    (3, ReadOwn(256), 40, &[(1, 42, Invalidate), (2, 42, Invalidate), (3, 50, SEVEN_ALONE)]),
];
