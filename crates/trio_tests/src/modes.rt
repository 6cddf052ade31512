//! A run in each mode simulates each cycle once, and in speculative mode once more those that it rolls back: no simulation is
//! made and thrown away.
ghost use Rattle.std.specs.Prelude.{◌≡◌};
ghost use Rattle.slack_base.specs.Numbers.{numbers_of};
ghost use Rattle.bus_model.specs.Laws.{lookahead_of};
ghost use Rattle.bus_model.specs.Settings.{delays_of};

use image_run::modes::run_in_mode;
use io_edge::NeverHold;
use sim_words::Mode;
use slack_base::{Config, Interval, NoteList, OutOfMemory, RawConfig, StepList};
use std::alloc::Global;
use std::process::Abort;
use std::sync::atomic::Ordering;
use std::test::Fail;
use std::thread::Threads;
use target_law::Trio;

/// A mode, and the clock at the end where it is the same for every order of threads. In intervals of ten cycles all cores have
/// ended at the second checkpoint; a given interleaving is of one interval.
struct Row {
    name: &'static str,
    mode: Mode,
    end: Option<u64>,
}

#[rattlefmt::skip]
const ROWS: [Row; 5] = [
    Row { name: "cycle by cycle", mode: Mode::Lockstep, end: Some(20) },
    Row { name: "in pieces of the lookahead", mode: Mode::Quantum, end: Some(20) },
    Row { name: "drifts by threads", mode: Mode::Bounded, end: None },
    Row { name: "a given interleaving", mode: Mode::Script, end: Some(10) },
    Row { name: "speculation", mode: Mode::Speculative, end: Some(20) },
];

/// Three cores, in intervals of ten cycles up to forty.
fn config<R: Abort>(rt: &R) -> Config
    ensures lookahead { lookahead_of (delays_of (numbers_of result)) ≡ 2 }
    ensures limit { result.limit ≡ 40 }
{
    let numbers = RawConfig {
        cores: 3,
        interval: 10,
        limit: 40,
        ..RawConfig::DEFAULT
    };
    Config::checked(numbers).expect(rt, "a configuration within its bounds")
}

/// The cycles that were simulated a second time.
fn replayed(notes: &NoteList) -> u64 {
    let mut cycles: u64 = 0;
    for note in notes.as_slice() {
        if let Interval::Rolled { cycles: again, .. } = note {
            cycles = cycles.saturating_add(*again);
        }
    }
    cycles
}

/// What comes of a run: the ticks that were made, those that the notes account for, and the clock at the end.
fn found<R: Threads + Sync + Abort>(
    rt: &R,
    alloc: Global,
    mode: Mode,
) -> Result<(u64, u64, u64), OutOfMemory> {
    let target = Trio::new();
    let state = Trio::start(alloc)?;
    let config = config(rt);
    let steps = StepList::new(alloc);
    let done = run_in_mode(rt, alloc, &NeverHold, &target, state, &config, mode, &steps)?;
    let cycles = done.end.clock.saturating_add(replayed(&done.notes));
    let made = target.ticked.load(Ordering::SeqCst);
    Ok((made, cycles.saturating_mul(3), done.end.clock))
}

#[test]
fn nothing_is_simulated_in_vain(rt: HostRuntime) -> Result<(), Fail> {
    for row in &ROWS {
        let (made, owed, clock) = found(&rt, rt.alloc(), row.mode)?;
        let name = row.name;
        assert!(rt;
            made == owed,
            "{name}: {made} ticks, where the notes say {owed}"
        );
        assert!(rt;
            row.end.is_none_or(|end| end == clock),
            "{name}: it ends at {clock}"
        );
    }
    Ok(())
}
