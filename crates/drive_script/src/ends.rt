//! The world before the first step, and what it leaves once finishing is done.
ghost use Rattle.std.specs.Prelude.{◌≡◌, ◌+◌, ◌^◌, ◌<◌, ◌≤◌, map, IfOk};
ghost use Rattle.slack_base.specs.declared.bounds.TheConstants.{TOP};
ghost use Rattle.target_law.specs.Numbered.{AllNumbered};
ghost use Rattle.target_law.specs.Proper.{IsChanOf};
ghost use Rattle.target_law.specs.Views.{state_of};
ghost use Rattle.drive_script.specs.Open.{IsOpen};
ghost use Rattle.drive_script.specs.Scripts.{begun, opened, history, closed};
ghost use Rattle.drive_script.specs.Views.{lane_of, world_of};

use crate::lanes::Lane;
use crate::worlds::World;
use slack_base::{AskList, ClashList, Drift, OutOfMemory, PostList, Row, SentList};
use std::alloc::Global;
use target_law::{State, Target};

/// The world before the first step of an interleaving over so many cycles.
pub fn open<T: Target>(
    alloc: Global,
    target: &T,
    state: State<T>,
    len: u64,
) -> Result<World<T::Core, T::Chan>, OutOfMemory>
    requires { state.clock + len ≤ TOP }
    ensures world { IfOk result (λ w. world_of T.values w ≡ opened (state_of T.values state) len) }
    ensures few { (T.rules target.now).cores < 2 ^ 32 }
{
    let State {
        clock,
        cores,
        chans,
    } = state;
    let lanes = open_lanes(alloc, target, cores, clock)?;
    Ok(World {
        end: clock + len,
        lanes,
        chans: chans.into_vec(),
        served: AskList::new(alloc),
        clashes: ClashList::new(alloc),
        asks: AskList::new(alloc),
        posts: PostList::new(alloc),
    })
}

/// A lane for each core.
fn open_lanes<C: Send + Drop, T: Target<Core = C>>(
    alloc: Global,
    target: &T,
    cores: Row<C>,
    clock: u64,
) -> Result<Vec<Lane<C>>, OutOfMemory>
    ensures lanes { IfOk result (λ lanes. map (lane_of T.values) lanes.items ≡ map (begun clock) (map T.values.core cores)) }
    ensures few { (T.rules target.now).cores < 2 ^ 32 }
{
    let mut lanes = Vec::with_capacity(alloc, target.cores() as usize)?;
    for core in cores.into_vec() {
        lanes.push(Lane::new(alloc, core, clock))?;
    }
    Ok(lanes)
}

/// The history of a world, and the state that it leaves.
pub fn close<T: Target>(
    alloc: Global,
    target: &T,
    world: World<T::Core, T::Chan>,
    start: u64,
    len: u64,
) -> Result<(State<T>, Drift), OutOfMemory>
    requires { IsOpen (T.rules target.now) (T.owns target.now) (world_of T.values world) }
    ensures end { IfOk result (λ r. state_of T.values r.0 ≡ closed (T.rules target.now) (world_of T.values world)) }
    ensures drift { IfOk result (λ r. r.1 ≡ history start len (world_of T.values world)) }
{
    let World {
        end,
        lanes,
        mut chans,
        served,
        clashes,
        ..
    } = world;
    let (cores, sent) = close_lanes::<T::Core, T>(alloc, lanes)?;
    close_all(target, &mut chans);
    let state = State {
        clock: end,
        cores,
        chans: Row::of(chans),
    };
    let drift = Drift {
        start,
        len,
        served,
        clashes,
        sent,
    };
    Ok((state, drift))
}

/// The cores of lanes, and the posts that each took.
fn close_lanes<C: Send + Drop, T: Target<Core = C>>(
    alloc: Global,
    lanes: Vec<Lane<C>>,
) -> Result<(Row<C>, SentList), OutOfMemory>
    ensures cores { IfOk result (λ r. map T.values.core r.0 ≡ map (λ lane. lane.core) (map (lane_of T.values) lanes.items)) }
    ensures sent { IfOk result (λ r. r.1 ≡ map (λ lane. lane.taken) (map (lane_of T.values) lanes.items)) }
{
    let mut cores = Row::new(alloc);
    let mut sent = SentList::new(alloc);
    for lane in lanes {
        let Lane { core, taken, .. } = lane;
        cores.push(core)?;
        sent.push(taken)?;
    }
    Ok((cores, sent))
}

/// Closes each channel.
pub fn close_all<D: Send + Drop, T: Target<Chan = D>>(target: &T, chans: &mut Vec<D>)
    requires { AllNumbered (IsChanOf (T.rules target.now) (T.owns target.now)) 0 (map T.values.chan chans.old.items) }
    ensures { map T.values.chan chans.new.items ≡ map (T.rules target.now).close (map T.values.chan chans.old.items) }
{
    for chan in chans.iter_mut() {
        target.close(chan);
    }
}
