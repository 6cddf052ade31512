//! Drifts, gone through once more by plain code: what each core does alone with the posts that it took, and what the bus does
//! with the asks in the order in which they were served.
ghost use Rattle.std.specs.Prelude.{◌≡◌, ◌<◌, ◌≤◌, Some, IsTrue, OnOk};
ghost use Rattle.slack_base.specs.Images.{Fits};
ghost use Rattle.slack_base.specs.Numbers.{numbers_of};
ghost use Rattle.timed_core.specs.Code.{code_of};
ghost use Rattle.bus_model.specs.Asks.{IsAskOf};
ghost use Rattle.bus_model.specs.Channels.{bus_setting};
ghost use Rattle.bus_model.specs.Settings.{setting_of};

use crate::machines::{Setup, are_same_channels, are_same_cores, is_lockstep};
use bus_model::Channel;
use lockstep_model::{Machine, RvTarget};
use slack_base::{
    Ask, AskList, ClashList, Config, Drift, OutOfMemory, PostKind, PostList, TOP, Taken, Violation,
    ViolationList,
};
use std::alloc::Global;
use target_law::Drifted;
use timed_core::TimedCore;
use violation_watch::scan;

/// The most cycles that are gone through.
const MOST: u64 = 1000;

/// What is found of a drift.
#[derive(Clone, Copy)]
pub struct Verdict {
    /// Each core alone, and the bus, come to what they are at the end, by what was taken and served.
    pub replayed: bool,
    /// It begins at clock 0, has this length, a list of posts for each core, and a clash or none for each ask.
    pub whole: bool,
    /// A scan finds what the monitors saw.
    pub scanned: bool,
    /// The monitors saw nothing.
    pub quiet: bool,
    /// They saw no post that was late.
    pub in_time: bool,
    /// Its end is that of lockstep.
    pub exact: bool,
}

/// What is found of a drift of so many cycles from the start, of a machine with one bus, in which no byte is put on the console.
pub fn judge(
    alloc: Global,
    setup: &Setup,
    cycles: u64,
    drifted: &Drifted<RvTarget>,
) -> Result<Verdict, OutOfMemory>
    requires fits { Fits setup.now.target.config.base setup.now.target.config.memory setup.now.image }
    requires code { setup.now.target.code ≡ code_of setup.now.image (numbers_of setup.now.target.config) }
    requires top { cycles ≤ 1000 }
{
    let drift = &drifted.drift;
    let end = &drifted.end;
    Ok(Verdict {
        replayed: are_alone(alloc, setup, cycles, drift, end)?
            && is_served(alloc, setup, drift, end)?,
        whole: is_whole(setup, cycles, drift),
        scanned: is_scanned(alloc, &setup.target, drifted)?,
        quiet: drifted.seen.is_empty(),
        in_time: are_in_time(&drifted.seen),
        exact: is_lockstep(alloc, setup, cycles, end)?,
    })
}

/// Whether a drift begins at clock 0, and has this length, a list of posts for each core, and a clash or none for each ask.
pub fn is_whole(setup: &Setup, cycles: u64, drift: &Drift) -> bool {
    drift.start == 0
        && drift.len == cycles
        && drift.sent.len() == setup.target.config.cores as usize
        && drift.clashes.len() == drift.served.len()
}

/// Whether a scan of a drift finds what the monitors saw.
pub fn is_scanned(
    alloc: Global,
    target: &RvTarget,
    drifted: &Drifted<RvTarget>,
) -> Result<bool, OutOfMemory> {
    let drift = &drifted.drift;
    if drift.clashes.len() != drift.served.len()
        || drift.start > MOST
        || drift.len > MOST
        || drift.sent.len() > 16
    {
        return Ok(false);
    }
    let found = scan(alloc, target, drift)?;
    Ok(found == drifted.seen)
}

/// Whether no post was late.
pub fn are_in_time(seen: &ViolationList) -> bool {
    seen.as_slice().iter().all(|one| matches!(one, Violation::Bus { .. } | Violation::Map { .. }))
}

/// Takes the posts that were taken at a clock, in their order. Returns whether each touch is the core's just before.
fn take_at(core: &mut TimedCore, taken: &[Taken], clock: u64) -> Result<bool, OutOfMemory> {
    let mut touched = true;
    for entry in taken {
        if entry.clock == clock {
            touched &= entry.touched == touch_of(core, entry);
            core.put(entry.post)?;
        }
    }
    Ok(touched)
}

/// The touch that is noted of a post: that of an invalidation's set, and 0 of others.
fn touch_of(core: &TimedCore, entry: &Taken) -> u64 {
    match entry.post.kind {
        PostKind::Invalidate => core.touched(&entry.post),
        _ => 0,
    }
}

/// What a core does alone: at each clock it takes its posts and ticks, and last it takes those of the end. Whether it sends the
/// asks of its number that were served, comes to the core at the end, and each touch is so.
fn is_alone(
    alloc: Global,
    setup: &Setup,
    cycles: u64,
    drift: &Drift,
    taken: &[Taken],
    end: &TimedCore,
) -> Result<bool, OutOfMemory>
    requires { cycles ≤ 1000 }
{
    let number = end.number();
    if number >= setup.target.config.cores {
        return Ok(false);
    }
    let mut core = TimedCore::new(alloc, number, &setup.target.config, setup.image.entry)?;
    let mut asks = AskList::new(alloc);
    let mut touched = true;
    for clock in 0..cycles {
        touched &= take_at(&mut core, taken, clock)?;
        core.tick(&setup.target.code, clock, &mut asks)?;
    }
    touched &= take_at(&mut core, taken, cycles)?;
    Ok(
        touched
            && are_clocks(taken, cycles)
            && are_own(drift, number, &asks)
            && are_same_cores(&core, end),
    )
}

/// Whether the asks of a number that were served are these.
fn are_own(drift: &Drift, number: u32, asks: &AskList) -> bool {
    let served = drift.served.as_slice();
    let own = served.iter().filter(|ask| ask.id().core == number);
    own.eq(asks.as_slice().iter())
}

/// Whether each core comes alone to what it is at the end.
fn are_alone(
    alloc: Global,
    setup: &Setup,
    cycles: u64,
    drift: &Drift,
    end: &Machine,
) -> Result<bool, OutOfMemory>
    requires { cycles ≤ 1000 }
{
    let mut alone = end.cores.len() == drift.sent.len();
    for (taken, core) in drift.sent.as_slice().iter().zip(end.cores.as_slice()) {
        alone &= is_alone(alloc, setup, cycles, drift, taken.as_slice(), core)?;
    }
    Ok(alone)
}

/// Whether the clocks never fall, and come to the end at most.
fn are_clocks(taken: &[Taken], end: u64) -> bool {
    let mut last = 0;
    for entry in taken {
        if entry.clock < last || entry.clock > end {
            return false;
        }
        last = entry.clock;
    }
    true
}

/// What the bus does with the asks, one after another: whether it sends the posts that the cores took, tells the clashes, and
/// comes to the bus at the end.
fn is_served(
    alloc: Global,
    setup: &Setup,
    drift: &Drift,
    end: &Machine,
) -> Result<bool, OutOfMemory>
    requires fits { Fits setup.now.target.config.base setup.now.target.config.memory setup.now.image }
    requires code { setup.now.target.code ≡ code_of setup.now.image (numbers_of setup.now.target.config) }
{
    let Some(last) = end.chans.get(0) else {
        return Ok(false);
    };
    let config = &setup.target.config;
    let mut bus = Channel::bus(alloc, 0, config, &setup.image)?;
    let mut posts = PostList::new(alloc);
    let mut clashes = ClashList::new(alloc);
    for ask in drift.served.as_slice() {
        serve_one(config, &mut bus, ask, &mut posts, &mut clashes)?;
    }
    bus.close();
    Ok(clashes == drift.clashes && are_taken(drift, &posts) && are_same_channels(&bus, last))
}

/// Whether each core took the posts to it, in their order.
fn are_taken(drift: &Drift, posts: &PostList) -> bool {
    let mut taken = true;
    for (number, entries) in drift.sent.as_slice().iter().enumerate() {
        let sent = posts
            .as_slice()
            .iter()
            .filter(|post| post.to as usize == number);
        taken &= sent.eq(entries.as_slice().iter().map(|entry| &entry.post));
    }
    taken
}

/// Serves an ask of the bus, with its clash just before. Another one is passed over, so that it lacks a clash.
fn serve_one(
    config: &Config,
    bus: &mut Channel,
    ask: &Ask,
    posts: &mut PostList,
    clashes: &mut ClashList,
) -> Result<(), OutOfMemory>
    requires setting { bus_setting bus.old.value ≡ Some (setting_of (numbers_of config.now) 0) }
    ensures { OnOk result (bus_setting bus.new.value ≡ bus_setting bus.old.value) }
{
    if !is_of_bus(config, ask) {
        return Ok(());
    }
    clashes.push(bus.clash(ask))?;
    bus.serve(ask, posts)
}

/// Whether an ask is for a line of memory, all of which are of the one bus.
fn is_of_bus(config: &Config, ask: &Ask) -> bool
    ensures { IsTrue result → IsAskOf (setting_of (numbers_of config.now) 0) ask.now }
{
    let id = ask.id();
    match ask.line() {
        Some(line) => {
            config.buses == 1
                && id.core < config.cores
                && id.cycle <= TOP
                && line < config.memory / 16
        }
        None => false,
    }
}
