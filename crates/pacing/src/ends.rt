//! A drift before its first piece, and what it leaves after its last.
ghost use Rattle.std.specs.Prelude.{◌≡◌, ◌+◌, ◌^◌, ◌<◌, ◌≤◌, map, [], IfOk};
ghost use Rattle.slack_base.specs.Inboxes.{CoreValue};
ghost use Rattle.target_law.specs.Numbered.{AllNumbered};
ghost use Rattle.target_law.specs.Proper.{IsChanOf};
ghost use Rattle.target_law.specs.Views.{state_of};
ghost use Rattle.pacing.specs.Open.{IsOpen};
ghost use Rattle.pacing.specs.Pieces.{begun, lane_begun, history, closed};
ghost use Rattle.pacing.specs.Views.{lane_of, underway_of};

use crate::lanes::Lane;
use crate::underway::Underway;
use drive_script::ends::close_all;
use slack_base::{AskList, ClashList, Drift, OutOfMemory, PostList, Row, SentList};
use std::alloc::Global;
use target_law::{State, Target};

/// A drift before its first piece.
pub fn begin<T: Target>(
    alloc: Global,
    target: &T,
    state: State<T>,
) -> Result<Underway<T::Core, T::Chan>, OutOfMemory>
    ensures begun { IfOk result (λ w. underway_of T.values w ≡ begun (state_of T.values state)) }
    ensures few { (T.rules target.now).cores < 2 ^ 32 }
{
    let State {
        clock,
        cores,
        chans,
    } = state;
    let lanes = begin_lanes(alloc, target, cores)?;
    Ok(Underway {
        clock,
        lanes,
        chans: chans.into_vec(),
        served: AskList::new(alloc),
        clashes: ClashList::new(alloc),
        asks: Vec::new(alloc),
        posts: PostList::new(alloc),
    })
}

/// A lane for each core.
fn begin_lanes<C: Send + Drop, T: Target<Core = C>>(
    alloc: Global,
    target: &T,
    cores: Row<C>,
) -> Result<Vec<Lane<C>>, OutOfMemory>
    ensures lanes { IfOk result (λ lanes. map (lane_of T.values) lanes.items ≡ map lane_begun (map T.values.core cores)) }
    ensures few { (T.rules target.now).cores < 2 ^ 32 }
{
    let mut lanes = Vec::with_capacity(alloc, target.cores() as usize)?;
    for core in cores.into_vec() {
        lanes.push(Lane::new(alloc, core))?;
    }
    Ok(lanes)
}

/// The state that a drift leaves, and its history of so many cycles from a clock.
pub fn close<T: Target>(
    alloc: Global,
    target: &T,
    drift: Underway<T::Core, T::Chan>,
    start: u64,
    len: u64,
) -> Result<(State<T>, Drift), OutOfMemory>
    requires { IsOpen (T.rules target.now) (T.owns target.now) (underway_of T.values drift) }
    ensures end { IfOk result (λ r. state_of T.values r.0 ≡ closed (T.rules target.now) (underway_of T.values drift)) }
    ensures history { IfOk result (λ r. r.1 ≡ history start len (underway_of T.values drift)) }
{
    let Underway {
        clock,
        lanes,
        mut chans,
        served,
        clashes,
        ..
    } = drift;
    let (cores, sent) = close_lanes::<T::Core, T>(alloc, lanes)?;
    close_all(target, &mut chans);
    let state = State {
        clock,
        cores,
        chans: Row::of(chans),
    };
    let history = Drift {
        start,
        len,
        served,
        clashes,
        sent,
    };
    Ok((state, history))
}

/// The cores of lanes, and the posts that each took.
fn close_lanes<C: Send + Drop, T: Target<Core = C>>(
    alloc: Global,
    lanes: Vec<Lane<C>>,
) -> Result<(Row<C>, SentList), OutOfMemory>
    ensures cores { IfOk result (λ r. map T.values.core r.0 ≡ map (λ lane. lane.core) (map (lane_of T.values) lanes.items)) }
    ensures sent { IfOk result (λ r. r.1 ≡ map (λ lane. lane.taken) (map (lane_of T.values) lanes.items)) }
{
    let mut cores = Row::new(alloc);
    let mut sent = SentList::new(alloc);
    for lane in lanes {
        let Lane { core, taken, .. } = lane;
        cores.push(core)?;
        sent.push(taken)?;
    }
    Ok((cores, sent))
}
