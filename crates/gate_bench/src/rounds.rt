//! The overseer beside the cores, and both in one thread.
ghost use Rattle.std.specs.Prelude.{◌≡◌, ◌<◌, ◌≤◌};
ghost use Rattle.core_gate.specs.Seats.{cores_of};

use crate::cores::{PATIENCE, Pair, advance_pairs, step};
use core_gate::{ClockTable, Overseer, Pacer};
use slack_base::OutOfMemory;
use std::alloc::Global;
use std::thread::{self, Threads, join_mut};

/// Looks at each core, and raises global time.
fn look_at_all(overseer: &mut Overseer, cores: u32) -> u64
    requires { cores_of overseer.old ≡ cores }
    ensures { cores_of overseer.new ≡ cores }
{
    for core in 0..cores {
        overseer.look(core);
    }
    overseer.raise()
}

/// Raises global time to the end.
fn oversee(overseer: &mut Overseer, cores: u32, end: u64) -> u64
    requires { cores_of overseer.old ≡ cores }
{
    let mut global = 0;
    let mut idle = 0u32;
    for _ in 0..u64::MAX {
        if global >= end || idle >= PATIENCE {
            break;
        }
        let raised = look_at_all(overseer, cores);
        if raised > global {
            idle = 0;
        } else {
            idle = idle.saturating_add(1);
            thread::yield_now();
        }
        global = raised;
    }
    global
}

/// Rounds in which each core observes and advances, and the overseer looks at all and raises global time.
fn alone(overseer: &mut Overseer, pacers: &mut [Pacer], cores: u32, end: u64) -> u64
    requires { cores_of overseer.old ≡ cores }
{
    let mut global = 0;
    for _ in 0..end {
        for pacer in pacers.iter_mut() {
            step(pacer, end);
        }
        global = look_at_all(overseer, cores);
    }
    global
}

/// Each core in a thread of its own, and the overseer beside them.
fn apart<R: Threads + Sync>(
    rt: &R,
    overseer: &mut Overseer,
    mut pacers: Vec<Pacer>,
    cores: u32,
    end: u64,
) -> u64
    requires { cores_of overseer.old ≡ cores }
{
    let (Some(second), Some(first)) = (pacers.pop(), pacers.pop()) else {
        return 0;
    };
    let mut pair = Pair { first, second, end };
    let (Some(second), Some(first)) = (pacers.pop(), pacers.pop()) else {
        let (_, global) = join_mut(
            rt,
            &mut || pair.advance(rt),
            &mut || { oversee(overseer, cores, end) },
        );
        return global;
    };
    let mut other = Pair { first, second, end };
    let (_, global) = join_mut(
        rt,
        &mut || advance_pairs(rt, &mut pair, &mut other),
        &mut || { oversee(overseer, cores, end) },
    );
    global
}

/// Advances so many cores to the last clock, in one thread or apart, and returns the global time at the end.
pub fn run<R: Threads + Sync>(
    rt: &R,
    alloc: Global,
    in_threads: bool,
    cores: u32,
    slack: u32,
    clocks: u32,
) -> Result<u64, OutOfMemory>
    requires { (0 < cores) × (0 < slack) }
{
    let end = u64::from(clocks);
    let mut table = ClockTable::make(alloc, cores, 0, u64::from(slack))?;
    let (mut overseer, pacers) = table.seats()?;
    let mut pacers = pacers.into_vec();
    if in_threads {
        Ok(apart(rt, &mut overseer, pacers, cores, end))
    } else {
        Ok(alone(&mut overseer, pacers.as_mut_slice(), cores, end))
    }
}
