//! All cores tick through a piece, each by itself.
ghost use Rattle.std.specs.Prelude.{◌+◌, ◌≤◌, OnOk};
ghost use Rattle.std.specs.Thread.{IsSync, IsSend};
ghost use Rattle.slack_base.specs.declared.bounds.TheConstants.{TOP};
ghost use Rattle.pacing.specs.Views.{AreCores, HaveTicked};

use crate::lanes::Lane;
use slack_base::OutOfMemory;
use std::thread::{Threads, join_mut};
use target_law::Target;

/// The length of a piece, in cycles, from which its cores tick in threads of their own. To start threads and to wait for
/// them takes as long as thousands of ticks, on a busy machine far longer, so a shorter piece is done sooner on the calling
/// thread (`bench/README.md` has the measurement).
pub const PARALLEL_FROM: u64 = 65_536;

/// Every core ticks through so many cycles from a clock.
pub fn tick_all<R: Threads + Sync, C: Send + Drop, T: Target<Core = C> + Sync>(
    rt: &R,
    target: &T,
    from: u64,
    len: u64,
    lanes: &mut [Lane<C>],
) -> Result<(), OutOfMemory>
    requires end { from + len ≤ TOP }
    requires cores { AreCores T.values (T.rules target.now) (T.owns target.now) lanes.old }
    ensures { OnOk result (HaveTicked T.values (T.rules target.now) from len lanes.old lanes.new) }
{
    if len < PARALLEL_FROM {
        tick_each(target, from, len, lanes)
    } else {
        tick_apart(rt, target, from, len, lanes)
    }
}

/// The cores tick one after another.
fn tick_each<C: Send + Drop, T: Target<Core = C>>(
    target: &T,
    from: u64,
    len: u64,
    lanes: &mut [Lane<C>],
) -> Result<(), OutOfMemory>
    requires end { from + len ≤ TOP }
    requires cores { AreCores T.values (T.rules target.now) (T.owns target.now) lanes.old }
    ensures { OnOk result (HaveTicked T.values (T.rules target.now) from len lanes.old lanes.new) }
{
    for lane in lanes.iter_mut() {
        lane.tick(target, from, len)?;
    }
    Ok(())
}

/// The cores tick each in a thread of its own.
#[cycle(apart)]
fn tick_apart<R: Threads + Sync, C: Send + Drop, T: Target<Core = C> + Sync>(
    rt: &R,
    target: &T,
    from: u64,
    len: u64,
    lanes: &mut [Lane<C>],
) -> Result<(), OutOfMemory>
    requires end { from + len ≤ TOP }
    requires cores { AreCores T.values (T.rules target.now) (T.owns target.now) lanes.old }
    ensures { OnOk result (HaveTicked T.values (T.rules target.now) from len lanes.old lanes.new) }
{
    if lanes.is_empty() {
        return Ok(());
    }
    if lanes.len() == 1 {
        return lanes[0].tick(target, from, len);
    }
    let half = lanes.len() / 2;
    let (front, back) = lanes.split_at_mut(half);
    tick_both(rt, target, from, len, front, back)
}

// A separate function, so that what the closures require is what this function is given.
#[cycle(apart)]
fn tick_both<R: Threads + Sync, C: Send + Drop, T: Target<Core = C> + Sync>(
    rt: &R,
    target: &T,
    from: u64,
    len: u64,
    front: &mut [Lane<C>],
    back: &mut [Lane<C>],
) -> Result<(), OutOfMemory>
    requires end { from + len ≤ TOP }
    requires front { AreCores T.values (T.rules target.now) (T.owns target.now) front.old }
    requires back { AreCores T.values (T.rules target.now) (T.owns target.now) back.old }
    ensures front { OnOk result (HaveTicked T.values (T.rules target.now) from len front.old front.new) }
    ensures back { OnOk result (HaveTicked T.values (T.rules target.now) from len back.old back.new) }
{
    let mut one = || -> Result<(), OutOfMemory>
        requires { IsSync R.row × IsSync T.row × IsSend C.row × (from + len ≤ TOP) × AreCores T.values (T.rules target.now) (T.owns target.now) front.now }
        ensures { OnOk result (HaveTicked T.values (T.rules target.entry.now) from len front.entry.now front.exit.now) }
    { tick_apart(rt, target, from, len, front) };
    let mut two = || -> Result<(), OutOfMemory>
        requires { IsSync R.row × IsSync T.row × IsSend C.row × (from + len ≤ TOP) × AreCores T.values (T.rules target.now) (T.owns target.now) back.now }
        ensures { OnOk result (HaveTicked T.values (T.rules target.entry.now) from len back.entry.now back.exit.now) }
    { tick_apart(rt, target, from, len, back) };
    let (first, second) = join_mut(rt, &mut one, &mut two);
    first?;
    second
}
