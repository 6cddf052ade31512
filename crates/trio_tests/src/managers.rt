//! Legs of a manager of the small machine. What actors do beside it is tested over drifts.
ghost use Rattle.std.specs.Prelude.{◌≡◌, ◌+◌, ◌<◌, ◌≤◌, [], ◌∷◌, None, length, OnOk, IfOk};
ghost use Rattle.core_gate.specs.Seats.{cores_of};
ghost use Rattle.stamp_queue.specs.Rings.{all_received};
ghost use Rattle.target_law.specs.Trio.{trio_rules, trio_owns, trio_values, first_chan};
ghost use Rattle.manager.specs.Managers.{IsReadyManager};
ghost use Rattle.manager.specs.Openings.{AreUnused};

use crate::machine::{are_multiples, ask_of};
use core_gate::{ClockTable, Overseer, Pacer, PacerList};
use manager::Manager;
use manager::managers::{AskReceiverList, PostSenderList};
use slack_base::{OutOfMemory, Row, TOP};
use stamp_queue::{AskReceiver, AskSender, ask_ring, post_ring};
use std::alloc::Global;
use std::test::Fail;
use std::thread::{self, Threads, join_mut};
use std::time::{Clock, Duration};
use target_law::{Trio, TrioChan};

/// How many slots the rings of asks have.
const SLOTS: u32 = 1024;

/// By how many cycles a core may be ahead.
const SLACK: u64 = 2000;

/// The clock at which a leg ends.
const END: u64 = 1000;

/// For how many milliseconds the cores wait in each cycle. A manager's turn takes by far less.
const PAUSE: u64 = 1;

/// So many idle turns in a row don't end a leg: as many take some hundred pauses. On a machine that does nothing else there are
/// several times as many in all.
const PATIENCE: u32 = 300_000;

/// What is there of a core: where its asks go, and its clock.
#[derive(Drop)]
struct Hand {
    asks: AskSender,
    pacer: Pacer,
}

/// The ends of rings of three cores.
#[derive(Drop)]
struct Ends {
    senders: Vec<AskSender>,
    asks: AskReceiverList,
    posts: PostSenderList,
}

/// A manager, and what is there of its three cores.
#[derive(Drop)]
struct Rig {
    manager: Manager<TrioChan>,
    hands: Vec<Hand>,
}

/// The rings of one core more.
fn add_rings(
    alloc: Global,
    asks: &mut AskReceiverList,
    posts: &mut PostSenderList,
) -> Result<AskSender, OutOfMemory>
    requires { AreUnused asks.old posts.old }
    ensures unused { OnOk result (AreUnused asks.new posts.new) }
    ensures count { OnOk result ((length asks.new ≡ length asks.old + 1) × (length posts.new ≡ length posts.old + 1)) }
{
    let (ask_sender, ask_receiver) = ask_ring(alloc, SLOTS)?;
    let (post_sender, _) = post_ring(alloc, 1)?;
    asks.push(ask_receiver)?;
    posts.push(post_sender)?;
    Ok(ask_sender)
}

/// The rings of three cores. The ends at which posts are received are let go.
fn rings(alloc: Global) -> Result<Ends, OutOfMemory>
    ensures unused { IfOk result (λ r. AreUnused r.asks r.posts) }
    ensures count { IfOk result (λ r. (length r.asks ≡ 3) × (length r.posts ≡ 3)) }
{
    let mut asks = AskReceiverList::new(alloc);
    let mut posts = PostSenderList::new(alloc);
    let first = add_rings(alloc, &mut asks, &mut posts)?;
    let second = add_rings(alloc, &mut asks, &mut posts)?;
    let third = add_rings(alloc, &mut asks, &mut posts)?;
    let senders = Vec::from_array(alloc, [first, second, third])?;
    Ok(Ends {
        senders,
        asks,
        posts,
    })
}

/// The overseer and the pacers of three cores at clock 0.
fn seats(alloc: Global) -> Result<(Overseer, PacerList), OutOfMemory>
    ensures { IfOk result (λ r. cores_of r.0 ≡ 3) }
{
    let mut table = ClockTable::make(alloc, 3, 0, SLACK)?;
    let (overseer, pacers) = table.seats()?;
    Ok((overseer, pacers))
}

/// The small machine's channel.
fn chans(alloc: Global) -> Result<Row<TrioChan>, OutOfMemory>
    ensures { IfOk result (λ chans. chans ≡ record { value = first_chan 0; saved = None } ∷ []) }
{
    let mut chans = Row::new(alloc);
    chans.push(TrioChan::new(0))?;
    Ok(chans)
}

/// A manager with these ends of rings.
fn managed(
    alloc: Global,
    asks: AskReceiverList,
    posts: PostSenderList,
    overseer: Overseer,
) -> Result<Manager<TrioChan>, OutOfMemory>
    requires unused { AreUnused asks posts }
    requires count { (length asks ≡ 3) × (length posts ≡ 3) }
    requires clocks { cores_of overseer ≡ 3 }
    ensures { IfOk result (IsReadyManager trio_rules trio_owns trio_values) }
{
    let chans = chans(alloc)?;
    Manager::new(alloc, chans, asks, posts, overseer)
}

/// What is there of cores, by where their asks go and their pacers.
fn hands_of(
    alloc: Global,
    senders: Vec<AskSender>,
    pacers: Vec<Pacer>,
) -> Result<Vec<Hand>, OutOfMemory> {
    let mut hands = Vec::new(alloc);
    for (asks, pacer) in senders.into_iter().zip(pacers) {
        hands.push(Hand { asks, pacer })?;
    }
    Ok(hands)
}

/// A manager and its three cores at clock 0.
fn make_rig(alloc: Global) -> Result<Rig, OutOfMemory>
    ensures { IfOk result (λ r. IsReadyManager trio_rules trio_owns trio_values r.manager) }
{
    let (overseer, pacers) = seats(alloc)?;
    let Ends {
        senders,
        asks,
        posts,
    } = rings(alloc)?;
    let manager = managed(alloc, asks, posts, overseer)?;
    let hands = hands_of(alloc, senders, pacers.into_vec())?;
    Ok(Rig { manager, hands })
}

/// Each core asks once, core 0 at 3, core 1 at 2 and core 2 at 1.
fn ask_once(hands: &mut [Hand]) -> Result<(), OutOfMemory> {
    for hand in hands.iter_mut() {
        let core = hand.pacer.number();
        hand.asks
            .send(ask_of(3u64.saturating_sub(u64::from(core)), core))?;
    }
    Ok(())
}

/// Whether a leg serves the asks that wait, the least id first, each with its clash, and finds nothing.
fn serves_in_order(alloc: Global) -> Result<bool, OutOfMemory> {
    let Rig {
        mut manager,
        mut hands,
    } = make_rig(alloc)?;
    ask_once(hands.as_mut_slice())?;
    manager.leg(&Trio::new(), 10, 0)?;
    let (_, served, clashes, found) = manager.into_parts();
    let in_order = served.as_slice() == [ask_of(1, 2), ask_of(2, 1), ask_of(3, 0)].as_slice();
    Ok(in_order && clashes.len() == 3 && found.is_empty())
}

/// A cycle of a core: it asks where its number says so, and stores its clock.
fn turn(hand: &mut Hand, cycle: u64) -> Result<(), OutOfMemory> {
    let core = hand.pacer.number();
    if cycle % (u64::from(core) + 2) == 0 {
        hand.asks.send(ask_of(cycle, core))?;
    }
    if hand.pacer.may_advance() && hand.pacer.clock() < TOP {
        hand.pacer.advance();
    }
    Ok(())
}

/// The cycles of all cores, with a pause before each.
fn turns<R: Clock>(rt: &R, hands: &mut [Hand]) -> Result<(), OutOfMemory> {
    for cycle in 0..END {
        thread::sleep(rt, Duration::from_millis(PAUSE));
        for hand in hands.iter_mut() {
            turn(hand, cycle)?;
        }
    }
    Ok(())
}

/// The leg of a manager, and beside it the cycles of its cores.
fn lead<R: Threads + Clock + Sync>(
    rt: &R,
    manager: &mut Manager<TrioChan>,
    hands: &mut [Hand],
) -> Result<(), OutOfMemory>
    requires { IsReadyManager trio_rules trio_owns trio_values manager.old }
{
    let target = Trio::new();
    let mut leg = || -> Result<(), OutOfMemory>
        requires { IsReadyManager trio_rules trio_owns trio_values manager.now }
    { manager.leg(&target, END, PATIENCE) };
    let mut cores = || -> Result<(), OutOfMemory> { turns(rt, hands) };
    let (first, second) = join_mut(rt, &mut leg, &mut cores);
    first?;
    second
}

/// What a core sees last of global time.
fn global(hands: &mut [Hand]) -> u64 {
    hands.first_mut().map_or(0, |hand| hand.pacer.observe())
}

/// Global time after a leg beside cores, how many asks were served, and whether they are those of the cores, each with its
/// clash.
fn led<R: Threads + Clock + Sync>(
    rt: &R,
    alloc: Global,
) -> Result<(u64, usize, bool), OutOfMemory> {
    let Rig {
        mut manager,
        mut hands,
    } = make_rig(alloc)?;
    lead(rt, &mut manager, hands.as_mut_slice())?;
    let (_, served, clashes, _) = manager.into_parts();
    let whole = are_multiples(served.as_slice()) && clashes.len() == served.len();
    Ok((global(hands.as_mut_slice()), served.len(), whole))
}

#[test]
fn a_leg_serves_what_waits(rt: HostRuntime) -> Result<(), Fail> {
    assert!(rt; serves_in_order(rt.alloc())?);
    Ok(())
}

/// However many turns are idle in all, the leg comes to its end, and serves all that is asked up to there: 500 asks of core 0,
/// 334 of core 1 (0 to 999) and 250 of core 2.
#[test]
fn a_leg_comes_to_its_end(rt: HostRuntime) -> Result<(), Fail> {
    assert_eq!(rt; led(&rt, rt.alloc())?, (END, 1084, true));
    Ok(())
}
