//! What is done with a channel, step by step, and what it says meanwhile.
use crate::channels::Step::{
    Asks, Bytes, Clash, Close, Counts, Entry, Keep, Lines, Mark, Noted, Undo,
};
use crate::channels::{Course, Repeat, Step};
use crate::exchanges::{
    AHEAD, BEHIND, Exchange, FIRST, FIRST_ALONE, GIVEN_BACK, LAST, LAST_CYCLES, NEIGHBOURS,
    PASSING, SEVEN, SEVEN_ALONE, SHARING, STORES, TAKEN, ZEROS_ALONE,
};
use crate::requests::Request::{Put, Read, ReadOwn};
use crate::requests::{View, ZEROS};
use slack_base::PostKind::Retry;
use slack_base::{RawConfig, TOP};
use status_map::EntryKind::{Idle, Owned};

/// Two cores, one bus and a memory of 512 lines.
pub(crate) const TWO_CORES: RawConfig = RawConfig {
    cores: 2,
    memory: 8192,
    ..RawConfig::DEFAULT
};

/// The same with four buses.
const FOUR_BUSES: RawConfig = RawConfig {
    buses: 4,
    ..TWO_CORES
};

/// Two cores whose asks take the bus for three cycles.
const SHORT_SLOTS: RawConfig = RawConfig {
    occupancy: 3,
    ..TWO_CORES
};

/// And for four.
const LONG_SLOTS: RawConfig = RawConfig {
    occupancy: 4,
    ..TWO_CORES
};

/// The entry of a line of zeros that no core holds.
const UNUSED: View = (Idle, 0, ZEROS);

/// The entry of line 256 while core 0 has it, and once it was given back with a 7 in it.
const LINE_TAKEN: View = (Owned { core: 0 }, 12, FIRST);

const LINE_BACK: View = (Idle, 12, SEVEN);

#[rattlefmt::skip]
pub(crate) const COURSES: [Course; 19] = [
    Course { name: "a bus begins with the image", numbers: TWO_CORES, bus: Some(0), steps: &BEGINNING },
    Course { name: "two cores store to one line", numbers: TWO_CORES, bus: Some(0), steps: &[Asks(&STORES), Close, Counts(8, 5, 17)] },
    Course { name: "a write-back passes a snoop", numbers: TWO_CORES, bus: Some(0), steps: &[Asks(&PASSING), Close, Counts(5, 0, 27)] },
    Course { name: "a shared line is taken", numbers: TWO_CORES, bus: Some(0), steps: &[Asks(&SHARING), Close, Counts(5, 0, 32)] },
    Course { name: "the first of four buses", numbers: FOUR_BUSES, bus: Some(0), steps: &[Lines(Some(0), 128), Entry(256, (Idle, 0, FIRST)), Entry(508, UNUSED)] },
    Course { name: "the last of four buses", numbers: FOUR_BUSES, bus: Some(3), steps: &[Lines(Some(3), 128), Entry(511, (Idle, 0, LAST)), Entry(3, UNUSED)] },
    Course { name: "lines of one bus", numbers: FOUR_BUSES, bus: Some(1), steps: &LINES_OF_ONE },
    Course { name: "the end of time", numbers: TWO_CORES, bus: Some(0), steps: &[Asks(&LAST_CYCLES), Close, Counts(3, 1, TOP)] },
    Course { name: "a bus is free no later than the end of time", numbers: TWO_CORES, bus: Some(0), steps: &FREE_AT_THE_END },
    Course { name: "a late ask passes", numbers: SHORT_SLOTS, bus: Some(0), steps: &[Asks(&AHEAD), Close, Counts(2, 0, 8)] },
    Course { name: "a late ask clashes", numbers: LONG_SLOTS, bus: Some(0), steps: &[Asks(&BEHIND), Close, Counts(2, 0, 13)] },
    Course { name: "a bus is closed", numbers: TWO_CORES, bus: Some(0), steps: &CLOSING },
    Course { name: "a bus comes back", numbers: TWO_CORES, bus: Some(0), steps: &COMING_BACK },
    Course { name: "a calendar comes back", numbers: TWO_CORES, bus: Some(0), steps: &CALENDAR_BACK },
    Course { name: "a bus goes on", numbers: TWO_CORES, bus: Some(0), steps: &GOING_ON },
    Course { name: "a later mark", numbers: TWO_CORES, bus: Some(0), steps: &LATER_MARK },
    Course { name: "the console keeps its bytes", numbers: TWO_CORES, bus: None, steps: &TWO_BYTES },
    Course { name: "a console is closed", numbers: TWO_CORES, bus: None, steps: &CONSOLE_CLOSING },
    Course { name: "a console comes back", numbers: TWO_CORES, bus: None, steps: &CONSOLE_BACK },
];

#[rattlefmt::skip]
const BEGINNING: [Step; 6] = [
    Entry(256, (Idle, 0, FIRST)), Entry(511, (Idle, 0, LAST)), Entry(0, UNUSED),
    Lines(Some(0), 512), Counts(0, 0, 0), Bytes(b""),
];

/// An ask at one of four buses changes the entry of its line alone.
#[rattlefmt::skip]
const LINES_OF_ONE: [Step; 6] = [
    Asks(&NEIGHBOURS),
    Entry(257, (Owned { core: 0 }, 12, ZEROS)), Entry(509, (Owned { core: 1 }, 14, ZEROS)), Entry(253, UNUSED),
    Close, Counts(2, 0, 5),
];

/// The bus is free from `TOP - 3` on, and is granted there and at `TOP - 1` to asks of cycle 1. The line is then on its
/// way to core 0, and so core 1 is sent away.
#[rattlefmt::skip]
const FREE_AT_THE_END: [Step; 9] = [
    Asks(&[((0, TOP - 5, 0), Read(257), &[(0, TOP + 5, ZEROS_ALONE)])]), Close, Counts(1, 0, TOP - 3),
    Asks(&[((0, 1, 0), ReadOwn(256), &[(0, TOP + 7, FIRST_ALONE)])]), Close, Counts(2, 0, TOP - 1),
    Asks(&[((1, 1, 0), ReadOwn(256), &[(1, TOP + 1, Retry)])]), Close, Counts(3, 1, TOP),
];

/// Core 1 reads line 256 in this cycle. It has the line at cycle 15, and is sent away before.
const READ_AT_5: Exchange = ((1, 5, 0), Read(256), &[(1, 15, FIRST_ALONE)]);

const READ_AT_3: Exchange = ((1, 3, 0), Read(256), &[(1, 5, Retry)]);

const READ_AT_8: Exchange = ((1, 8, 0), Read(256), &[(1, 10, Retry)]);

/// On a bus an ask clashes where it isn't done before one of a greater id has the bus. Once the bus is closed it counts
/// as before, and is free after all its asks.
#[rattlefmt::skip]
const CLOSING: [Step; 7] = [
    Clash((1, 0, 0), Read(256), None),
    Asks(&[READ_AT_5, READ_AT_3]),
    Clash((1, 4, 0), Read(256), Some((1, 5, 0))), Clash((1, 6, 0), Read(256), None),
    Close, Clash((1, 4, 0), Read(256), None), Counts(2, 1, 7),
];

/// Whatever the bus says, it says again what it said at the mark. Three asks for two lines are two lines noted.
#[rattlefmt::skip]
const COMING_BACK: [Step; 14] = [
    Asks(&TAKEN), Close, Mark, Noted(0),
    Asks(&GIVEN_BACK), Close, Counts(4, 1, 19), Noted(2),
    Undo, Entry(256, LINE_TAKEN), Entry(257, UNUSED), Counts(1, 0, 3), Lines(Some(0), 512), Clash((1, 2, 0), Read(256), None),
];

/// A bus that is marked before it is closed has its calendar again.
#[rattlefmt::skip]
const CALENDAR_BACK: [Step; 8] = [
    Asks(&[READ_AT_5]), Mark, Asks(&[READ_AT_8]), Close,
    Undo, Clash((1, 4, 0), Read(256), Some((1, 5, 0))), Close, Counts(1, 0, 7),
];

/// A bus that forgets its mark stays as it is.
#[rattlefmt::skip]
const GOING_ON: [Step; 11] = [
    Asks(&TAKEN), Close, Mark,
    Asks(&GIVEN_BACK), Keep, Entry(256, LINE_BACK), Entry(257, (Owned { core: 0 }, 24, ZEROS)), Close, Counts(4, 1, 19),
    Mark, Noted(0),
];

/// A mark takes the place of the one before it.
#[rattlefmt::skip]
const LATER_MARK: [Step; 12] = [
    Asks(&TAKEN), Close, Mark,
    Asks(&GIVEN_BACK), Close, Mark, Noted(0),
    Asks(&[((1, 30, 0), Read(256), &[(1, 40, SEVEN_ALONE)]), ((1, 50, 0), Read(256), &[(1, 60, SEVEN_ALONE)])]), Noted(1),
    Undo, Entry(256, LINE_BACK), Counts(4, 1, 19),
];

/// The console sends no posts, and counts nothing.
#[rattlefmt::skip]
const TWO_BYTES: [Step; 4] = [
    Asks(&[((0, 2, 0), Put(b'A'), &[]), ((1, 2, 0), Put(b'B'), &[])]),
    Bytes(b"AB"), Counts(0, 0, 0), Lines(None, 0),
];

/// Core 0 puts a byte in this cycle.
const PUT_AT_3: Exchange = ((0, 3, 0), Put(b'A'), &[]);

const PUT_AT_5: Exchange = ((0, 5, 0), Put(b'A'), &[]);

const PUT_AT_7: Exchange = ((0, 7, 0), Put(b'A'), &[]);

/// An ask clashes with the greatest id since the console was closed, where that is above its own.
#[rattlefmt::skip]
const CONSOLE_CLOSING: [Step; 7] = [
    Clash((0, 0, 0), Put(b'A'), None),
    Asks(&[PUT_AT_5, PUT_AT_3]), Clash((0, 4, 0), Put(b'A'), Some((0, 5, 0))), Clash((0, 5, 0), Put(b'A'), None),
    Close, Clash((0, 0, 0), Put(b'A'), None), Bytes(b"AA"),
];

/// The console loses the bytes that came after the mark, and what only tells asks out of order is as it was.
#[rattlefmt::skip]
const CONSOLE_BACK: [Step; 9] = [
    Asks(&[PUT_AT_5]), Mark, Asks(&[PUT_AT_7]), Bytes(b"AA"), Noted(0),
    Undo, Bytes(b"A"), Clash((0, 6, 0), Put(b'A'), None), Clash((0, 4, 0), Put(b'A'), Some((0, 5, 0))),
];

/// Asks that are to be marked anywhere among them, and taken back.
#[rattlefmt::skip]
pub(crate) const REPEATS: [Repeat; 4] = [
    Repeat { name: "two cores store to one line", numbers: TWO_CORES, bus: 0, exchanges: &STORES, counts: (8, 5, 17) },
    Repeat { name: "a write-back passes a snoop", numbers: TWO_CORES, bus: 0, exchanges: &PASSING, counts: (5, 0, 27) },
    Repeat { name: "a shared line is taken", numbers: TWO_CORES, bus: 0, exchanges: &SHARING, counts: (5, 0, 32) },
    Repeat { name: "lines of one bus", numbers: FOUR_BUSES, bus: 1, exchanges: &NEIGHBOURS, counts: (2, 0, 5) },
];
