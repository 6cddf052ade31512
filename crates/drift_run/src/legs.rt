//! The legs of a drift: all at once, by threads, or one after another on one thread.
ghost use Rattle.std.specs.Prelude.{OnOk, All};
ghost use Rattle.std.specs.List.{AllZip};
ghost use Rattle.std.specs.Thread.{IsSync, IsSend};
ghost use Rattle.core_actor.specs.Actors.{IsReady, Ran};
ghost use Rattle.manager.specs.Leads.{Led};
ghost use Rattle.manager.specs.Managers.{IsReadyManager};

use core_actor::CoreActor;
use io_edge::Gate;
use manager::Manager;
use slack_base::OutOfMemory;
use std::thread::{Threads, join_mut};
use target_law::Target;

/// The leg of each core, in core order, and then the manager's.
///
/// Out of memory: the manager and the actors are left in the middle of a turn.
pub(crate) fn legs_in_turn<C: Send + Drop, D: Send + Drop, T: Target<Core = C, Chan = D>, G: Gate>(
    target: &T,
    gate: &G,
    end: u64,
    patience: u32,
    manager: &mut Manager<D>,
    actors: &mut [CoreActor<C>],
) -> Result<(), OutOfMemory>
    requires manager { IsReadyManager (T.rules target.now) (T.owns target.now) T.values manager.old }
    requires actors { All (IsReady (T.rules target.now) (T.owns target.now) T.values end) actors.old }
    ensures manager { OnOk result (Led (T.rules target.now) (T.owns target.now) T.values manager.old manager.new) }
    ensures actors { OnOk result (AllZip (Ran (T.rules target.now) (T.owns target.now) T.values (record { may = G.may_hold gate.now; must = G.must_hold gate.now }) end) actors.old actors.new) }
{
    for actor in actors.iter_mut() {
        actor.leg(target, gate, end, patience)?;
    }
    manager.leg(target, end, patience)
}

/// The manager's leg, and beside it the leg of each core, each in a thread of its own.
///
/// Out of memory: the manager and the actors are left in the middle of a turn.
pub(crate) fn all_legs<
    R: Threads + Sync,
    C: Send + Drop,
    D: Send + Drop,
    T: Target<Core = C, Chan = D> + Sync,
    G: Gate + Sync,
>(
    rt: &R,
    target: &T,
    gate: &G,
    end: u64,
    patience: u32,
    manager: &mut Manager<D>,
    actors: &mut [CoreActor<C>],
) -> Result<(), OutOfMemory>
    requires manager { IsReadyManager (T.rules target.now) (T.owns target.now) T.values manager.old }
    requires actors { All (IsReady (T.rules target.now) (T.owns target.now) T.values end) actors.old }
    ensures manager { OnOk result (Led (T.rules target.now) (T.owns target.now) T.values manager.old manager.new) }
    ensures actors { OnOk result (AllZip (Ran (T.rules target.now) (T.owns target.now) T.values (record { may = G.may_hold gate.now; must = G.must_hold gate.now }) end) actors.old actors.new) }
{
    let mut lead = || -> Result<(), OutOfMemory>
        requires { IsReadyManager (T.rules target.now) (T.owns target.now) T.values manager.now }
        ensures { OnOk result (Led (T.rules target.entry.now) (T.owns target.entry.now) T.values manager.entry.now manager.exit.now) }
    { manager.leg(target, end, patience) };
    let mut follow = || -> Result<(), OutOfMemory>
        requires { All (IsReady (T.rules target.now) (T.owns target.now) T.values end) actors.now }
        ensures { OnOk result (AllZip (Ran (T.rules target.entry.now) (T.owns target.entry.now) T.values (record { may = G.may_hold gate.entry.now; must = G.must_hold gate.entry.now }) end) actors.entry.now actors.exit.now) }
    { legs(rt, target, gate, end, patience, actors) };
    let (first, second) = join_mut(rt, &mut lead, &mut follow);
    first?;
    second
}

/// The leg of each core, each in a thread of its own.
#[cycle(legs)]
fn legs<R: Threads + Sync, C: Send + Drop, T: Target<Core = C> + Sync, G: Gate + Sync>(
    rt: &R,
    target: &T,
    gate: &G,
    end: u64,
    patience: u32,
    actors: &mut [CoreActor<C>],
) -> Result<(), OutOfMemory>
    requires { All (IsReady (T.rules target.now) (T.owns target.now) T.values end) actors.old }
    ensures { OnOk result (AllZip (Ran (T.rules target.now) (T.owns target.now) T.values (record { may = G.may_hold gate.now; must = G.must_hold gate.now }) end) actors.old actors.new) }
{
    if actors.is_empty() {
        return Ok(());
    }
    if actors.len() == 1 {
        return actors[0].leg(target, gate, end, patience);
    }
    let half = actors.len() / 2;
    let (front, back) = actors.split_at_mut(half);
    both(rt, target, gate, end, patience, front, back)
}

// A separate function, so that what the closures require is what this function is given.
#[cycle(legs)]
fn both<R: Threads + Sync, C: Send + Drop, T: Target<Core = C> + Sync, G: Gate + Sync>(
    rt: &R,
    target: &T,
    gate: &G,
    end: u64,
    patience: u32,
    front: &mut [CoreActor<C>],
    back: &mut [CoreActor<C>],
) -> Result<(), OutOfMemory>
    requires front { All (IsReady (T.rules target.now) (T.owns target.now) T.values end) front.old }
    requires back { All (IsReady (T.rules target.now) (T.owns target.now) T.values end) back.old }
    ensures front { OnOk result (AllZip (Ran (T.rules target.now) (T.owns target.now) T.values (record { may = G.may_hold gate.now; must = G.must_hold gate.now }) end) front.old front.new) }
    ensures back { OnOk result (AllZip (Ran (T.rules target.now) (T.owns target.now) T.values (record { may = G.may_hold gate.now; must = G.must_hold gate.now }) end) back.old back.new) }
{
    let mut one = || -> Result<(), OutOfMemory>
        requires { IsSync R.row × IsSync T.row × IsSync G.row × IsSend C.row × All (IsReady (T.rules target.now) (T.owns target.now) T.values end) front.now }
        ensures { OnOk result (AllZip (Ran (T.rules target.entry.now) (T.owns target.entry.now) T.values (record { may = G.may_hold gate.entry.now; must = G.must_hold gate.entry.now }) end) front.entry.now front.exit.now) }
    { legs(rt, target, gate, end, patience, front) };
    let mut two = || -> Result<(), OutOfMemory>
        requires { IsSync R.row × IsSync T.row × IsSync G.row × IsSend C.row × All (IsReady (T.rules target.now) (T.owns target.now) T.values end) back.now }
        ensures { OnOk result (AllZip (Ran (T.rules target.entry.now) (T.owns target.entry.now) T.values (record { may = G.may_hold gate.entry.now; must = G.must_hold gate.entry.now }) end) back.entry.now back.exit.now) }
    { legs(rt, target, gate, end, patience, back) };
    let (first, second) = join_mut(rt, &mut one, &mut two);
    first?;
    second
}
