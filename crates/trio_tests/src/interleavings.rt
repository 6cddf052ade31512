//! Interleavings of the small machine, beside what it does by hand.
ghost use Rattle.std.specs.Prelude.{◌≤◌};
ghost use Rattle.slack_base.specs.declared.bounds.TheConstants.{TOP};

use crate::machine::{Calls, Reached, TWENTY, calls_of, reached};
use drive_script::drive;
use slack_base::{Id, OutOfMemory, Step, StepList, Violation};
use std::alloc::Global;
use std::test::Fail;
use target_law::{Drifted, Trio};

/// Cores 0 and 1 run ahead by two cycles, before anything that they could have got was due.
const AHEAD: [Step; 4] = [
    Step::Tick { core: 0 },
    Step::Tick { core: 1 },
    Step::Tick { core: 0 },
    Step::Tick { core: 1 },
];

/// Core 0 runs ahead by three cycles, and its second ask is served before the first of core 1; core 2 runs to the end,
/// and takes the post of that ask there. Some steps can't be done: the last tick of core 2, and those of cores for which
/// nothing waits, or that aren't there.
const OUT_OF_ORDER: [Step; 17] = [
    Step::Tick { core: 0 },
    Step::Tick { core: 0 },
    Step::Tick { core: 0 },
    Step::Tick { core: 1 },
    Step::Take { core: 0 },
    Step::Serve { core: 0 },
    Step::Serve { core: 0 },
    Step::Serve { core: 1 },
    Step::Serve { core: 1 },
    Step::Tick { core: 2 },
    Step::Tick { core: 2 },
    Step::Tick { core: 2 },
    Step::Tick { core: 2 },
    Step::Tick { core: 2 },
    Step::Tick { core: 7 },
    Step::Take { core: 2 },
    Step::Take { core: 1 },
];

// The ids of asks, each the only one of its tick.
const CORE_0_AT_0: Id = Id {
    cycle: 0,
    core: 0,
    number: 0,
};

const CORE_0_AT_2: Id = Id {
    cycle: 2,
    core: 0,
    number: 0,
};

const CORE_1_AT_0: Id = Id {
    cycle: 0,
    core: 1,
    number: 0,
};

const CORE_1_AT_3: Id = Id {
    cycle: 3,
    core: 1,
    number: 0,
};

const CORE_2_AT_0: Id = Id {
    cycle: 0,
    core: 2,
    number: 0,
};

/// The first asks in order.
const RISING: [Id; 5] = [
    CORE_0_AT_0,
    CORE_1_AT_0,
    CORE_2_AT_0,
    CORE_0_AT_2,
    CORE_1_AT_3,
];

/// The asks in the order in which they are served: by the steps those of core 0 at 0 and 2 and that of core 1 at 0, by
/// finishing that of core 2 at 0, and, once core 1 has ticked to 3, that of core 1 at 3.
const SERVED: [Id; 5] = [
    CORE_0_AT_0,
    CORE_0_AT_2,
    CORE_1_AT_0,
    CORE_2_AT_0,
    CORE_1_AT_3,
];

/// The asks of cores 1 and 2 at 0 were served after that of core 0 at 2. Core 0 was at 3, and core 2 at 4, when they took
/// posts that were due at 2.
const SEEN: [Violation; 6] = [
    Violation::Bus {
        channel: 0,
        high: CORE_0_AT_2,
        low: CORE_1_AT_0,
    },
    Violation::Map {
        line: 0,
        high: CORE_0_AT_2,
        low: CORE_1_AT_0,
    },
    Violation::Bus {
        channel: 0,
        high: CORE_0_AT_2,
        low: CORE_2_AT_0,
    },
    Violation::Map {
        line: 0,
        high: CORE_0_AT_2,
        low: CORE_2_AT_0,
    },
    Violation::Reply {
        core: 0,
        id: CORE_2_AT_0,
        due: 2,
        clock: 3,
    },
    Violation::Reply {
        core: 2,
        id: CORE_1_AT_0,
        due: 2,
        clock: 4,
    },
];

/// An interleaving over some cycles, and what comes of it.
struct Row {
    name: &'static str,
    len: u64,
    steps: &'static [Step],
    end: Reached,
    calls: Calls,
    /// The asks that are served first.
    served: &'static [Id],
    seen: &'static [Violation],
}

#[rattlefmt::skip]
const ROWS: [Row; 3] = [
    Row { name: "no step", len: 20, steps: &[], end: TWENTY, calls: (60, 22, 22), served: &RISING, seen: &[] },
    Row { name: "two cores a little ahead", len: 20, steps: &AHEAD, end: TWENTY, calls: (60, 22, 22), served: &RISING, seen: &[] },
    // Core 0 counts the post of core 2 in its tick of 3, and core 1 that of core 0 in its tick of 2; core 2 had no post as it
    // ticked.
    Row { name: "out of order", len: 4, steps: &OUT_OF_ORDER, end: (4, [1, 1, 0], 5), calls: (12, 5, 5), served: &SERVED, seen: &SEEN },
];

/// What comes of an interleaving: its end, the calls that were made, and whether all that was served first and all that was
/// recorded is what was to be.
type Found = (Reached, Calls, bool, bool);

/// The drift of these steps over so many cycles from the start.
fn driven(
    alloc: Global,
    target: &Trio,
    len: u64,
    steps: &[Step],
) -> Result<Drifted<Trio>, OutOfMemory>
    requires { len ≤ TOP }
{
    let mut list = StepList::new(alloc);
    for step in steps {
        list.push(*step)?;
    }
    let drifted = drive(alloc, target, Trio::start(alloc)?, len, &list)?;
    Ok(drifted)
}

/// Whether these are the asks that were served first.
fn served_first(drifted: &Drifted<Trio>, ids: &[Id]) -> bool {
    let served = drifted.drift.served.as_slice();
    served.len() >= ids.len() && served.iter().zip(ids).all(|(ask, id)| ask.id() == *id)
}

/// What comes of an interleaving.
fn found(alloc: Global, row: &Row) -> Result<Found, OutOfMemory> {
    let target = Trio::new();
    let drifted = driven(alloc, &target, row.len.min(1000), row.steps)?;
    Ok((
        reached(&drifted.end),
        calls_of(&target),
        served_first(&drifted, row.served),
        drifted.seen.as_slice() == row.seen,
    ))
}

#[test]
fn interleavings(rt: HostRuntime) -> Result<(), Fail> {
    for row in &ROWS {
        let name = row.name;
        let (end, calls, served, seen) = found(rt.alloc(), row)?;
        assert_eq!(rt; end, row.end, "{name}");
        assert_eq!(rt; calls, row.calls, "{name}");
        assert!(rt; served && seen, "{name}: {served}, {seen}");
    }
    Ok(())
}
