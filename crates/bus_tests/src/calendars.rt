//! Asks on one calendar, one after another, with the grants and the clashes that come of them.
ghost use Rattle.std.specs.Prelude.{◌≤◌};
ghost use Rattle.slack_base.specs.declared.bounds.TheConstants.{TOP};

use slack_base::{Id, OutOfMemory, TOP};
use slot_calendar::Calendar;
use std::alloc::Global;
use std::test::Fail;

/// The cycle and the core of an id.
type Brief = (u64, u32);

/// An ask's id and its stamp, the id that it clashes with, and its grant.
type Row = (Brief, u64, Option<Brief>, u64);

fn id(brief: Brief) -> Id {
    Id {
        cycle: brief.0,
        core: brief.1,
        number: 0,
    }
}

/// For an occupancy of 4, from cycle 10 on.
const OUT_OF_ORDER: [Row; 8] = [
    ((12, 1), 12, None, 12),
    ((20, 0), 20, None, 20),
    // from 16 to 20, between the two
    ((14, 0), 14, None, 16),
    // from 16 on it would meet the last one, but not the one from 20 on
    ((13, 0), 13, Some((14, 0)), 24),
    // from 10 to 14 it would meet the first one
    ((5, 0), 5, Some((12, 1)), 28),
    ((4, 0), 6, Some((12, 1)), 32),
    // behind the last two, and so not before any other
    ((11, 0), 0, Some((20, 0)), 36),
    ((21, 0), 21, None, 40),
];

/// For an occupancy of 2, from cycle 0 on: of two equal ids none is in the way of the other.
const EQUAL_IDS: [Row; 5] = [
    ((3, 0), 3, None, 3),
    ((3, 0), 3, None, 3),
    ((4, 0), 3, None, 5),
    ((3, 0), 4, Some((4, 0)), 7),
    ((3, 1), 0, Some((4, 0)), 9),
];

/// For an occupancy of 64, from 10 cycles below `TOP` on: what would end above `TOP` ends at it.
const AT_THE_TOP: [Row; 5] = [
    ((5, 0), TOP - 5, None, TOP - 5),
    ((6, 0), 0, None, TOP),
    ((4, 0), 0, Some((5, 0)), TOP),
    ((6, 1), TOP, None, TOP),
    ((3, 0), 7, Some((5, 0)), TOP),
];

/// Some asks, from when on the bus is free, for how many cycles each takes it, and from when on it is free once the
/// calendar is closed.
type Round = (&'static str, &'static [Row], u64, u64, u64);

const ROUNDS: [Round; 3] = [
    ("asks out of order", &OUT_OF_ORDER, 10, 4, 44),
    ("equal ids", &EQUAL_IDS, 0, 2, 11),
    ("ends at the top", &AT_THE_TOP, TOP - 10, 64, TOP),
];

/// Whether an ask clashes, and is granted the bus, as is written beside it.
fn is_as_written(
    calendar: &mut Calendar,
    row: &Row,
    free: u64,
    occupancy: u64,
) -> Result<bool, OutOfMemory>
    requires { free ≤ TOP }
{
    let (brief, stamp, high, wanted) = *row;
    let stamp = stamp.min(TOP);
    let clash = calendar.clash(id(brief), stamp, free, occupancy);
    let grant = calendar.place(id(brief), stamp, free, occupancy)?;
    Ok(clash == high.map(id) && grant == wanted)
}

/// Whether each ask clashes, and is granted the bus, as is written beside it.
fn are_as_written(
    calendar: &mut Calendar,
    rows: &[Row],
    free: u64,
    occupancy: u64,
) -> Result<bool, OutOfMemory>
    requires { free ≤ TOP }
{
    for row in rows {
        if !is_as_written(calendar, row, free, occupancy)? {
            return Ok(false);
        }
    }
    Ok(true)
}

/// Whether a calendar is empty once it is closed, and the bus free from this cycle on.
fn closes(calendar: &mut Calendar, free: u64, occupancy: u64, end: u64) -> bool
    requires { free ≤ TOP }
{
    calendar.close(free, occupancy) == end && calendar.is_empty()
}

/// Whether a round comes out as written, and once more on the calendar that was closed and then closed again.
fn repeats(
    alloc: Global,
    rows: &[Row],
    free: u64,
    occupancy: u64,
    end: u64,
) -> Result<bool, OutOfMemory> {
    if free > TOP || end > TOP {
        return Ok(false);
    }
    let mut calendar = Calendar::new(alloc);
    let first = are_as_written(&mut calendar, rows, free, occupancy)?;
    let closed = closes(&mut calendar, free, occupancy, end)
        && closes(&mut calendar, end, occupancy, end);
    let again = are_as_written(&mut calendar, rows, free, occupancy)?;
    Ok(first && closed && again)
}

#[test]
fn rounds_of_asks(rt: HostRuntime) -> Result<(), Fail> {
    for (name, rows, free, occupancy, end) in &ROUNDS {
        assert!(rt;
            repeats(rt.alloc(), *rows, *free, *occupancy, *end)?,
            "{name}"
        );
    }
    Ok(())
}

/// What comes into a calendar later leaves its copy as it was.
#[test]
fn a_copy_stands_alone(rt: HostRuntime) -> Result<(), Fail> {
    let mut calendar = Calendar::new(rt.alloc());
    assert!(rt; calendar.copy()?.is_empty());
    assert_eq!(rt; calendar.place(id((8, 0)), 8, 0, 3)?, 8);
    let copy = calendar.copy()?;
    assert_eq!(rt; calendar.place(id((9, 0)), 9, 0, 3)?, 11);
    assert_eq!(rt; calendar.close(0, 3), 14);
    assert!(rt; !copy.is_empty());
    assert_eq!(rt; copy.clash(id((7, 0)), 7, 0, 3), Some(id((8, 0))));
    assert_eq!(rt; copy.clash(id((7, 0)), 5, 0, 3), None);
    Ok(())
}
