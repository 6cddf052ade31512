//! Two cores and the overseer of a clock table, in turn, and each in a thread of its own.
ghost use Rattle.std.specs.Prelude.{◌≡◌};
ghost use Rattle.core_gate.specs.Seats.{cores_of};

use core_gate::{ClockTable, Overseer, Pacer};
use slack_base::TOP;
use std::test::Fail;
use std::thread::{self, Threads, join_mut};

/// What is asked of the seats of a table of two cores, at clock 5 with slack 2, and what is found. `a` and `b` advance
/// where they may, and tell the clock; `A` and `B` observe; `0` and `1` look; `r` raises.
const TURNS: [(u8, u64); 32] = [
    (b'A', 5),
    (b'0', 5),
    (b'r', 5),
    (b'a', 6),
    (b'a', 7),
    (b'a', 7),
    (b'0', 7),
    (b'r', 5),
    (b'A', 5),
    (b'a', 7),
    (b'b', 6),
    (b'r', 5),
    (b'1', 6),
    (b'a', 7),
    (b'r', 6),
    (b'a', 7),
    (b'A', 6),
    (b'a', 8),
    (b'a', 8),
    (b'r', 6),
    (b'b', 7),
    (b'b', 7),
    (b'1', 7),
    (b'r', 7),
    (b'B', 7),
    (b'b', 8),
    (b'b', 9),
    (b'b', 9),
    (b'0', 8),
    (b'r', 7),
    (b'1', 9),
    (b'r', 8),
];

/// Advances where that is allowed, and tells the clock.
fn advance(pacer: &mut Pacer) -> u64 {
    if pacer.may_advance() && pacer.clock() < TOP {
        pacer.advance();
    }
    pacer.clock()
}

/// One turn, and the number that it finds.
fn turn(overseer: &mut Overseer, first: &mut Pacer, second: &mut Pacer, letter: u8) -> u64
    requires { cores_of overseer.old ≡ 2 }
    ensures { cores_of overseer.new ≡ 2 }
{
    match letter {
        b'A' => first.observe(),
        b'B' => second.observe(),
        b'a' => advance(first),
        b'b' => advance(second),
        b'0' => overseer.look(0),
        b'1' => overseer.look(1),
        _ => overseer.raise(),
    }
}

#[test]
fn two_cores_in_turn_stay_in_step(rt: HostRuntime) -> Result<(), Fail> {
    let mut table = ClockTable::make(rt.alloc(), 2, 5, 2)?;
    let (mut overseer, pacers) = table.seats()?;
    let mut pacers = pacers.into_vec();
    let (Some(mut second), Some(mut first)) = (pacers.pop(), pacers.pop()) else {
        unreachable!()
    };
    for (place, (letter, found)) in TURNS.iter().enumerate() {
        let answer = turn(&mut overseer, &mut first, &mut second, *letter);
        assert_eq!(rt; answer, *found, "turn {place}");
    }
    Ok(())
}

/// What a core stored stays where its pacer is dropped.
#[test]
fn a_dropped_pacer_leaves_its_clock(rt: HostRuntime) -> Result<(), Fail> {
    let mut table = ClockTable::make(rt.alloc(), 1, 5, 2)?;
    let (mut overseer, pacers) = table.seats()?;
    for mut pacer in pacers.into_vec() {
        assert_eq!(rt; advance(&mut pacer), 6);
    }
    assert_eq!(rt; overseer.look(0), 6);
    assert_eq!(rt; overseer.raise(), 6);
    Ok(())
}

/// The clocks that each core advances.
const CLOCKS: u64 = 100_000;

/// So many turns in a row with nothing to do, and a thread gives up.
const PATIENCE: u32 = 10_000_000;

/// A core that only advances.
#[derive(Drop)]
struct Core {
    pacer: Pacer,
    slack: u32,
}

impl Core {
    /// Advances to the last clock, or until nothing was to do for long. Returns whether it came there and was in step
    /// with what it saw at each step.
    fn advance_all(&mut self) -> bool {
        let mut idle = 0;
        for _ in 0..u64::MAX {
            if self.pacer.clock() >= CLOCKS || idle >= PATIENCE {
                break;
            }
            let before = self.pacer.seen();
            let seen = self.pacer.observe();
            if self.pacer.may_advance() && self.pacer.clock() < TOP {
                self.pacer.advance();
                idle = 0;
            } else {
                idle += 1;
                thread::yield_now();
            }
            if seen < before || self.pacer.clock() > seen.saturating_add(u64::from(self.slack)) {
                return false;
            }
        }
        self.pacer.clock() == CLOCKS
    }
}

/// Raises global time to the last clock, or until it didn't rise for long. Returns whether it came there, never passed
/// a clock, and never fell.
fn oversee(overseer: &mut Overseer) -> bool
    requires { cores_of overseer.old ≡ 2 }
{
    let mut idle = 0;
    let mut global = 0;
    for _ in 0..u64::MAX {
        if global >= CLOCKS || idle >= PATIENCE {
            break;
        }
        let least = overseer.look(0).min(overseer.look(1));
        let raised = overseer.raise();
        if raised < global || raised > least {
            return false;
        }
        if raised > global {
            idle = 0;
        } else {
            idle += 1;
            thread::yield_now();
        }
        global = raised;
    }
    global == CLOCKS
}

/// Runs two cores beside the overseer, and returns what each says.
fn run<R: Threads + Sync>(
    rt: &R,
    overseer: &mut Overseer,
    first: &mut Core,
    second: &mut Core,
) -> (bool, bool, bool)
    requires { cores_of overseer.old ≡ 2 }
{
    let (one, (two, all)) = join_mut(
        rt,
        &mut || first.advance_all(),
        &mut || run_beside(rt, overseer, second),
    );
    (one, two, all)
}

fn run_beside<R: Threads>(rt: &R, overseer: &mut Overseer, core: &mut Core) -> (bool, bool)
    requires { cores_of overseer.old ≡ 2 }
{
    join_mut(rt, &mut || core.advance_all(), &mut || oversee(overseer))
}

#[test]
fn cores_in_threads_of_their_own_stay_in_step(rt: HostRuntime) -> Result<(), Fail> {
    for slack in [1, 8, 1000] {
        assert!(rt; slack > 0);
        let mut table = ClockTable::make(rt.alloc(), 2, 0, u64::from(slack))?;
        let (mut overseer, pacers) = table.seats()?;
        let mut pacers = pacers.into_vec();
        let (Some(last), Some(pacer)) = (pacers.pop(), pacers.pop()) else {
            unreachable!()
        };
        let mut first = Core { pacer, slack };
        let mut second = Core { pacer: last, slack };
        let (one, two, all) = run(&rt, &mut overseer, &mut first, &mut second);
        assert!(rt; one && two && all, "slack {slack}: {one}, {two}, {all}");
    }
    Ok(())
}
