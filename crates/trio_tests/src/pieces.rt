//! The small machine in pieces, beside what it does by hand. Its lookahead is 2.
ghost use Rattle.std.specs.Prelude.{◌≤◌};
ghost use Rattle.slack_base.specs.declared.bounds.TheConstants.{TOP};

use crate::machine::{Reached, TEN, TWENTY, reached};
use pacing::quantum_run;
use slack_base::{Drift, Id, Interval, OutOfMemory, Violation};
use std::alloc::Global;
use std::test::Fail;
use std::thread::Threads;
use target_law::{Bounded, Trio};

// The ids of asks, each the only one of its tick.
const CORE_0_AT_0: Id = Id {
    cycle: 0,
    core: 0,
    number: 0,
};

const CORE_1_AT_0: Id = Id {
    cycle: 0,
    core: 1,
    number: 0,
};

const CORE_2_AT_0: Id = Id {
    cycle: 0,
    core: 2,
    number: 0,
};

const CORE_0_AT_2: Id = Id {
    cycle: 2,
    core: 0,
    number: 0,
};

const CORE_1_AT_3: Id = Id {
    cycle: 3,
    core: 1,
    number: 0,
};

const CORE_0_AT_4: Id = Id {
    cycle: 4,
    core: 0,
    number: 0,
};

const CORE_2_AT_4: Id = Id {
    cycle: 4,
    core: 2,
    number: 0,
};

const CORE_0_AT_6: Id = Id {
    cycle: 6,
    core: 0,
    number: 0,
};

const CORE_1_AT_6: Id = Id {
    cycle: 6,
    core: 1,
    number: 0,
};

const CORE_0_AT_8: Id = Id {
    cycle: 8,
    core: 0,
    number: 0,
};

const CORE_2_AT_8: Id = Id {
    cycle: 8,
    core: 2,
    number: 0,
};

const CORE_1_AT_9: Id = Id {
    cycle: 9,
    core: 1,
    number: 0,
};

/// A post that a core took: the ask that it is of, and the clock.
#[derive(Clone, Copy, PartialEq)]
struct Took {
    core: usize,
    id: Id,
    clock: u64,
}

/// The interval from 0 to 5, in pieces of 3 cycles and of 2: the asks as they are served.
const FIRST_SERVED: [Id; 7] = [
    CORE_0_AT_0,
    CORE_1_AT_0,
    CORE_2_AT_0,
    CORE_0_AT_2,
    CORE_1_AT_3,
    CORE_0_AT_4,
    CORE_2_AT_4,
];

/// The posts of core after core as they are taken. Those of the asks at 0 were due at 2.
const FIRST_TAKEN: [Took; 7] = [
    Took {
        core: 0,
        id: CORE_2_AT_0,
        clock: 3,
    },
    Took {
        core: 0,
        id: CORE_2_AT_4,
        clock: 5,
    },
    Took {
        core: 1,
        id: CORE_0_AT_0,
        clock: 3,
    },
    Took {
        core: 1,
        id: CORE_0_AT_2,
        clock: 3,
    },
    Took {
        core: 1,
        id: CORE_0_AT_4,
        clock: 5,
    },
    Took {
        core: 2,
        id: CORE_1_AT_0,
        clock: 3,
    },
    Took {
        core: 2,
        id: CORE_1_AT_3,
        clock: 5,
    },
];

/// What is recorded of them.
const FIRST_SEEN: [Violation; 3] = [
    Violation::Reply {
        core: 0,
        id: CORE_2_AT_0,
        due: 2,
        clock: 3,
    },
    Violation::Reply {
        core: 1,
        id: CORE_0_AT_0,
        due: 2,
        clock: 3,
    },
    Violation::Reply {
        core: 2,
        id: CORE_1_AT_0,
        due: 2,
        clock: 3,
    },
];

/// The interval from 5 to 10. Its pieces begin at 5, and end at 8 and at 10.
const SECOND_SERVED: [Id; 5] = [
    CORE_0_AT_6,
    CORE_1_AT_6,
    CORE_0_AT_8,
    CORE_2_AT_8,
    CORE_1_AT_9,
];

/// No post is late.
const SECOND_TAKEN: [Took; 5] = [
    Took {
        core: 0,
        id: CORE_2_AT_8,
        clock: 10,
    },
    Took {
        core: 1,
        id: CORE_0_AT_6,
        clock: 8,
    },
    Took {
        core: 1,
        id: CORE_0_AT_8,
        clock: 10,
    },
    Took {
        core: 2,
        id: CORE_1_AT_6,
        clock: 8,
    },
    Took {
        core: 2,
        id: CORE_1_AT_9,
        clock: 10,
    },
];

/// The note of an interval: its length, the asks as they are served, the posts of core after core, and what is recorded.
struct Noted {
    cycles: u64,
    served: &'static [Id],
    taken: &'static [Took],
    seen: &'static [Violation],
}

/// The notes of two intervals in pieces of three cycles.
#[rattlefmt::skip]
const LONG: [Noted; 2] = [
    Noted { cycles: 5, served: &FIRST_SERVED, taken: &FIRST_TAKEN, seen: &FIRST_SEEN },
    Noted { cycles: 5, served: &SECOND_SERVED, taken: &SECOND_TAKEN, seen: &[] },
];

/// A run: the interval, the limit, the length of a piece, its end, how many intervals it has, whether nothing is recorded in
/// any, and, where they are given, the notes of all.
struct Row {
    name: &'static str,
    run: (u64, u64, u64),
    end: Reached,
    intervals: usize,
    quiet: bool,
    notes: &'static [Noted],
}

#[rattlefmt::skip]
const ROWS: [Row; 4] = [
    Row { name: "pieces of one cycle", run: (7, 20, 1), end: TWENTY, intervals: 3, quiet: true, notes: &[] },
    Row { name: "pieces of two cycles", run: (7, 20, 2), end: TWENTY, intervals: 3, quiet: true, notes: &[] },
    // At 10 core 0 has counted the posts of the asks of core 2 at 0 and 4, core 1 those of core 0 at 0, 2, 4 and 6, and core 2
    // those of core 1 at 0, 3 and 6.
    Row { name: "long pieces", run: (5, 10, 3), end: TEN, intervals: 2, quiet: false, notes: &LONG },
    // One piece, whose cores tick in threads. No post is taken before its end: so nothing is counted of the asks, 36,000 of
    // core 0, 24,000 of core 1 and 18,000 of core 2. All are late at the end, but those of the last two cycles.
    Row { name: "a piece in threads", run: (72_000, 72_000, 72_000), end: (72_000, [0, 0, 0], 78_000), intervals: 1, quiet: false, notes: &[] },
];

/// A run of the small machine from its start.
fn ran<R: Threads + Sync>(
    rt: &R,
    alloc: Global,
    interval: u64,
    limit: u64,
    quantum: u64,
) -> Result<Bounded<Trio>, OutOfMemory>
    requires interval { 1 ≤ interval }
    requires top { limit ≤ TOP }
    requires quantum { 1 ≤ quantum }
{
    let start = Trio::start(alloc)?;
    quantum_run(rt, alloc, &Trio::new(), start, interval, limit, quantum)
}

/// Whether the asks are those of these ids, in this order.
fn have_served(drift: &Drift, ids: &[Id]) -> bool {
    drift
        .served
        .as_slice()
        .iter()
        .map(|ask| ask.id())
        .eq(ids.iter().copied())
}

/// Whether the posts that were taken, of core after core, are these.
fn have_taken(drift: &Drift, posts: &[Took]) -> bool {
    let mut left = posts.iter();
    for (core, list) in drift.sent.as_slice().iter().enumerate() {
        for one in list.as_slice() {
            let took = Took {
                core,
                id: one.post.id,
                clock: one.clock,
            };
            if left.next() != Some(&took) {
                return false;
            }
        }
    }
    left.next().is_none()
}

/// Whether an interval was noted so.
fn is_noted(note: &Interval, wanted: &Noted) -> bool {
    match note {
        Interval::Bounded {
            cycles,
            drift,
            seen,
        } => {
            *cycles == wanted.cycles
                && have_served(drift, wanted.served)
                && have_taken(drift, wanted.taken)
                && seen.as_slice() == wanted.seen
        }
        _ => false,
    }
}

/// Whether nothing was recorded in an interval that was kept.
fn is_quiet(note: &Interval) -> bool {
    matches!(note, Interval::Bounded { seen, .. } if seen.is_empty())
}

/// What comes of a run: its end, how many intervals it has, whether nothing was recorded in any, and whether those whose notes
/// are given were noted so.
fn found<R: Threads + Sync>(
    rt: &R,
    alloc: Global,
    row: &Row,
) -> Result<(Reached, usize, bool, bool), OutOfMemory> {
    let (interval, limit, quantum) = row.run;
    let run = ran(
        rt,
        alloc,
        interval.max(1),
        limit.min(100_000),
        quantum.max(1),
    )?;
    let notes = run.notes.as_slice();
    Ok((
        reached(&run.end),
        notes.len(),
        notes.iter().all(|note| is_quiet(note)),
        notes
            .iter()
            .zip(row.notes)
            .all(|(note, wanted)| is_noted(note, wanted)),
    ))
}

#[test]
fn pieces(rt: HostRuntime) -> Result<(), Fail> {
    for row in &ROWS {
        let name = row.name;
        let (end, intervals, quiet, noted) = found(&rt, rt.alloc(), row)?;
        assert_eq!(rt; end, row.end, "{name}");
        assert_eq!(rt; intervals, row.intervals, "{name}");
        assert_eq!(rt; quiet, row.quiet, "{name}");
        assert!(rt; noted, "{name}");
    }
    Ok(())
}
