//! Speculative runs of the small machine, beside what it does by hand. All cores have ended after the cycle of clock 18.
ghost use Rattle.std.specs.Prelude.{◌≤◌};
ghost use Rattle.slack_base.specs.declared.bounds.TheConstants.{TOP};

use crate::machine::{Reached, TEN, TWENTY, calls_of, reached};
use io_edge::{Stop, StopGate, StopList};
use slack_base::{Interval, NoteList, OutOfMemory};
use spec_run::{Run, Speculated, speculate};
use std::alloc::Global;
use std::test::Fail;
use std::thread::Threads;
use target_law::Trio;

/// A run: the slack, the interval, the limit, and where cores are held. What it makes: the ticks in drifts, the least and the
/// most ticks in replays, the places of notes of one cycle that was kept, and its end.
struct Row {
    name: &'static str,
    run: (u64, u64, u64),
    stops: &'static [Stop],
    drift_ticks: u64,
    least_replayed: u64,
    most_replayed: u64,
    kept: &'static [usize],
    end: Reached,
}

/// Each core ticks once a cycle in drifts, and once more where an interval was rolled back, and not at all beside.
#[rattlefmt::skip]
const ROWS: [Row; 5] = [
    Row { name: "the least slack", run: (1, 10, 40), stops: &[], drift_ticks: 60, least_replayed: 0, most_replayed: 60, kept: &[], end: TWENTY },
    Row { name: "some slack", run: (4, 10, 40), stops: &[], drift_ticks: 60, least_replayed: 0, most_replayed: 60, kept: &[], end: TWENTY },
    Row { name: "more slack than cycles", run: (64, 10, 40), stops: &[], drift_ticks: 60, least_replayed: 0, most_replayed: 60, kept: &[], end: TWENTY },
    // At most one core asks at the clocks 1, 2, 3, 5, 7 and 9, so that nothing can be out of order. These six are kept: no more
    // than four intervals of ten can be rolled back.
    Row { name: "intervals of one cycle", run: (4, 1, 10), stops: &[], drift_ticks: 30, least_replayed: 0, most_replayed: 12, kept: &[1, 2, 3, 5, 7, 9], end: TEN },
    // The first ask of core 0 comes after those of the others, which clashes: the first interval is rolled back.
    Row { name: "a core is held", run: (4, 10, 40), stops: &[Stop { core: 0, clock: 0 }], drift_ticks: 60, least_replayed: 30, most_replayed: 60, kept: &[], end: TWENTY },
];

/// A run from the start.
fn speculated<R: Threads + Sync>(
    rt: &R,
    alloc: Global,
    target: &Trio,
    run: &Run,
    gate: &StopGate,
) -> Result<Speculated<Trio>, OutOfMemory>
    requires slack { (1 ≤ run.now.slack) × (run.now.slack ≤ TOP) }
    requires interval { 1 ≤ run.now.interval }
    requires limit { run.now.limit ≤ 100 }
    requires slots { 1 ≤ run.now.slots }
{
    let start = Trio::start(alloc)?;
    speculate(rt, alloc, target, start, run, gate)
}

/// What comes of a run: the ticks of drifts and of replays, those that were made, whether the notes at these places are of a
/// cycle that was kept, and the end.
type Found = (u64, u64, u64, bool, Reached);

/// Whether the notes at these places are of a cycle that was kept.
fn are_kept(notes: &NoteList, places: &[usize]) -> bool {
    places.iter().all(|place| matches!(notes.get(*place), Some(Interval::Kept { cycles: 1 })))
}

/// What comes of a run.
fn found<R: Threads + Sync>(rt: &R, alloc: Global, row: &Row) -> Result<Found, OutOfMemory> {
    let target = Trio::new();
    let mut stops = StopList::new(alloc);
    for stop in row.stops {
        stops.push(*stop)?;
    }
    let (slack, interval, limit) = row.run;
    let run = Run {
        slack: slack.clamp(1, 1000),
        interval: interval.max(1),
        limit: limit.min(100),
        patience: 10_000,
        slots: 256,
    };
    let done = speculated(rt, alloc, &target, &run, &StopGate { stops })?;
    let (ticked, _, _) = calls_of(&target);
    Ok((
        done.drift_ticks,
        done.replay_ticks,
        ticked,
        are_kept(&done.notes, row.kept),
        reached(&done.end),
    ))
}

#[test]
fn runs(rt: HostRuntime) -> Result<(), Fail> {
    for row in &ROWS {
        let name = row.name;
        let (drifted, replayed, ticked, kept, end) = found(&rt, rt.alloc(), row)?;
        assert_eq!(rt; ticked, drifted.saturating_add(replayed), "{name}");
        assert_eq!(rt; drifted, row.drift_ticks, "{name}");
        assert!(rt;
            replayed >= row.least_replayed && replayed <= row.most_replayed,
            "{name}: {replayed}"
        );
        assert!(rt; kept, "{name}");
        assert_eq!(rt; end, row.end, "{name}");
    }
    Ok(())
}
