//! Asks on a channel, one after another, each with the posts that come of it.
use crate::requests::Request::{Flush, Read, ReadOwn, WriteBack};
use crate::requests::{Request, Sent, Short, ZEROS};
use slack_base::PostKind::{Invalidate, Reply, Retry, SnoopOwn, SnoopShare};
use slack_base::{PostKind, TOP, Words};

/// The id of an ask, what is asked, and the posts that come of it.
pub(crate) type Exchange = (Short, Request, &'static [Sent]);

/// The words of line 256.
pub(crate) const FIRST: Words = Words {
    w0: 0x04030201,
    w1: 5,
    ..ZEROS
};

/// The words of the last line of memory.
pub(crate) const LAST: Words = Words {
    w0: 0xdeadbeef,
    w1: 0xffffffff,
    w2: 0x80000000,
    w3: 0x01020304,
};

/// A line after a store of 1, of 7 and of 4096.
const ONE: Words = Words { w0: 1, ..ZEROS };

pub(crate) const SEVEN: Words = Words { w0: 7, ..ZEROS };

const PAGE: Words = Words { w0: 4096, ..ZEROS };

/// Replies with these words, to be held alone or among sharers.
pub(crate) const FIRST_ALONE: PostKind = Reply {
    exclusive: true,
    words: FIRST,
};

pub(crate) const ZEROS_ALONE: PostKind = Reply {
    exclusive: true,
    words: ZEROS,
};

const LAST_ALONE: PostKind = Reply {
    exclusive: true,
    words: LAST,
};

const ONE_ALONE: PostKind = Reply {
    exclusive: true,
    words: ONE,
};

pub(crate) const SEVEN_ALONE: PostKind = Reply {
    exclusive: true,
    words: SEVEN,
};

const SEVEN_SHARED: PostKind = Reply {
    exclusive: false,
    words: SEVEN,
};

const PAGE_SHARED: PostKind = Reply {
    exclusive: false,
    words: PAGE,
};

/// Two cores store to one line.
#[rattlefmt::skip]
pub(crate) const STORES: [Exchange; 8] = [
    ((0, 1, 0), ReadOwn(256), &[(0, 11, FIRST_ALONE)]),
    ((1, 1, 0), ReadOwn(256), &[(1, 5, Retry)]),
    ((1, 5, 0), ReadOwn(256), &[(1, 7, Retry)]),
    ((1, 7, 0), ReadOwn(256), &[(1, 9, Retry)]),
    ((1, 9, 0), ReadOwn(256), &[(1, 11, Retry)]),
    ((1, 11, 0), ReadOwn(256), &[(1, 13, Retry)]),
    ((1, 13, 0), ReadOwn(256), &[(0, 15, SnoopOwn)]),
    ((0, 15, 0), Flush(256, Some(ONE)), &[(1, 18, ONE_ALONE)]),
];

/// A line is written back while a snoop for it is on its way.
#[rattlefmt::skip]
pub(crate) const PASSING: [Exchange; 5] = [
    ((0, 1, 0), ReadOwn(256), &[(0, 11, FIRST_ALONE)]),
    ((0, 13, 0), Read(257), &[(0, 23, ZEROS_ALONE)]),
    ((1, 21, 0), Read(256), &[(0, 23, SnoopShare)]),
    ((0, 23, 0), WriteBack(256, PAGE), &[]),
    ((0, 23, 1), Flush(256, None), &[(1, 28, PAGE_SHARED)]),
];

/// Two cores come to share a line, and one of them takes it: the other loses it, and then the reply is sent.
#[rattlefmt::skip]
pub(crate) const SHARING: [Exchange; 5] = [
    ((0, 1, 0), Read(511), &[(0, 11, LAST_ALONE)]),
    ((1, 12, 0), Read(511), &[(0, 14, SnoopShare)]),
    ((0, 14, 0), Flush(511, Some(SEVEN)), &[(1, 17, SEVEN_SHARED)]),
    ((0, 18, 0), Read(511), &[(0, 28, SEVEN_SHARED)]),
    ((0, 30, 0), ReadOwn(511), &[(1, 32, Invalidate), (0, 40, SEVEN_ALONE)]),
];

/// Two lines of bus 1 of four are asked for.
#[rattlefmt::skip]
pub(crate) const NEIGHBOURS: [Exchange; 2] = [
    ((0, 1, 0), Read(257), &[(0, 11, ZEROS_ALONE)]),
    ((1, 1, 0), ReadOwn(509), &[(1, 13, ZEROS_ALONE)]),
];

/// Asks up to the cycle where the numbers of a bus stop.
#[rattlefmt::skip]
pub(crate) const LAST_CYCLES: [Exchange; 3] = [
    ((0, TOP - 1, 0), Read(257), &[(0, TOP + 9, ZEROS_ALONE)]),
    ((1, 5, 0), ReadOwn(257), &[(1, 7, Retry)]),
    ((1, TOP, 0), Read(258), &[(1, TOP + 10, ZEROS_ALONE)]),
];

/// Core 0 takes line 256.
pub(crate) const TAKEN: [Exchange; 1] = [((0, 1, 0), ReadOwn(256), &[(0, 11, FIRST_ALONE)])];

/// It reads another line, which core 1 may not have yet, and gives back the one that it took.
#[rattlefmt::skip]
pub(crate) const GIVEN_BACK: [Exchange; 3] = [
    ((0, 13, 0), Read(257), &[(0, 23, ZEROS_ALONE)]),
    ((0, 14, 0), WriteBack(256, SEVEN), &[]),
    ((1, 14, 0), Read(257), &[(1, 19, Retry)]),
];

/// The bus is granted in cycle 5, and the ask of cycle 2 comes late: it takes the bus for three cycles.
#[rattlefmt::skip]
pub(crate) const AHEAD: [Exchange; 2] = [
    ((1, 5, 0), Read(257), &[(1, 15, ZEROS_ALONE)]),
    ((0, 2, 0), Read(256), &[(0, 12, FIRST_ALONE)]),
];

/// The same for four cycles: the late ask is granted once the other is done, in cycle 9.
#[rattlefmt::skip]
pub(crate) const BEHIND: [Exchange; 2] = [
    ((1, 5, 0), Read(257), &[(1, 15, ZEROS_ALONE)]),
    ((0, 2, 0), Read(256), &[(0, 19, FIRST_ALONE)]),
];
