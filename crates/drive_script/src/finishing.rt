//! Finishing: it completes a drift, one step after another, in one order.
ghost use Rattle.std.specs.Prelude.{◌≡◌, ℕ, Option, None, nat_lt, OnOk, IfSome, IfNone, if◌then◌else◌, Some};
ghost use Rattle.slack_base.specs.declared.stamps.Id.{Id};
ghost use Rattle.slack_base.specs.declared.messages.Post.{Post};
ghost use Rattle.drive_script.specs.Open.{IsOpen};
ghost use Rattle.drive_script.specs.Views.{world_of};
ghost use Rattle.drive_script.specs.Finishing.{IsFirstLeast, IsFirst, NoKey, Finishes, first_id, is_before, oldest_id, oldest_post, open_clock};
ghost use Rattle.drive_script.specs.Loops.{LeadsTo, picked, ticks_left};
ghost use Rattle.drive_script.specs.Worlds.{oldest};

use crate::lanes::Lane;
use crate::worlds::World;
use slack_base::{Id, OutOfMemory, Post};
use target_law::Target;

/// The id of the core's oldest ask that wasn't served.
fn first_id<C: Drop>(lane: &Lane<C>) -> Option<Id>
    ensures { result ≡ first_id lane.now.asks.items }
{
    let ask = lane.asks.front()?;
    Some(ask.id())
}

/// The oldest post that the core hasn't taken.
fn oldest_waiting<C: Drop>(lane: &Lane<C>) -> Option<Post>
    ensures { result ≡ oldest lane.now.posts.items }
{
    let post = lane.posts.front()?;
    Some(*post)
}

/// The core's clock, where that is below the end clock.
fn open_clock<C: Drop>(lane: &Lane<C>, end: u64) -> Option<u64>
    ensures { result ≡ (if nat_lt lane.now.clock end then Some lane.now.clock else None) }
{
    if lane.clock < end {
        Some(lane.clock)
    } else {
        None
    }
}

/// The earlier of two ids with their places.
pub fn earlier(best: Option<(usize, Id)>, place: usize, id: Option<Id>) -> Option<(usize, Id)>
    ensures { result ≡ picked is_before best place id }
{
    let Some(id) = id else {
        return best;
    };
    match best {
        Some((_, least)) if !id.precedes(&least) => best,
        _ => Some((place, id)),
    }
}

/// The lower of two clocks with their places.
fn lower(best: Option<(usize, u64)>, place: usize, clock: Option<u64>) -> Option<(usize, u64)>
    ensures { result ≡ picked nat_lt best place clock }
{
    let Some(clock) = clock else {
        return best;
    };
    match best {
        Some((_, least)) if clock >= least => best,
        _ => Some((place, clock)),
    }
}

/// The place of the core whose oldest ask has the least id: none where no ask waits.
fn oldest<C: Send + Drop, D: Send + Drop, T: Target<Core = C, Chan = D>>(
    world: &World<C, D>,
) -> Option<usize>
    ensures some { IfSome result (λ c. (i : Id) × IsFirstLeast Id is_before (oldest_id (world_of T.values world.now).lanes) c i) }
    ensures none { IfNone result (NoKey (oldest_id (world_of T.values world.now).lanes)) }
{
    let mut best = None;
    for place in 0..world.lanes.len() {
        best = earlier(best, place, first_id(&world.lanes[place]));
    }
    let (place, _) = best?;
    Some(place)
}

/// The first place of a core for which a post waits: none where no post waits.
fn first_waiting<C: Send + Drop, D: Send + Drop, T: Target<Core = C, Chan = D>>(
    world: &World<C, D>,
) -> Option<usize>
    ensures some { IfSome result (λ c. (p : Post) × IsFirst (world_of T.values world.now).lanes c p) }
    ensures none { IfNone result (NoKey (oldest_post (world_of T.values world.now).lanes)) }
{
    for place in 0..world.lanes.len() {
        if let Some(_post) = oldest_waiting(&world.lanes[place]) {
            return Some(place);
        }
    }
    None
}

/// The first place of a core with the least clock below the end clock: none where no core is below it.
fn slowest<C: Send + Drop, D: Send + Drop, T: Target<Core = C, Chan = D>>(
    world: &World<C, D>,
) -> Option<usize>
    ensures some { IfSome result (λ c. (clock : ℕ) × IsFirstLeast ℕ nat_lt (open_clock world.now.end (world_of T.values world.now).lanes) c clock) }
    ensures none { IfNone result (NoKey (open_clock world.now.end (world_of T.values world.now).lanes)) }
{
    let mut best = None;
    for place in 0..world.lanes.len() {
        best = lower(best, place, open_clock(&world.lanes[place], world.end));
    }
    let (place, _) = best?;
    Some(place)
}

/// Serves all asks that wait, the least id first.
fn serve_all<C: Send + Drop, D: Send + Drop, T: Target<Core = C, Chan = D>>(
    target: &T,
    world: &mut World<C, D>,
) -> Result<(), OutOfMemory>
    requires { IsOpen (T.rules target.now) (T.owns target.now) (world_of T.values world.old) }
    ensures open { OnOk result (IsOpen (T.rules target.now) (T.owns target.now) (world_of T.values world.new)) }
    ensures leads { OnOk result (LeadsTo (T.rules target.now) (world_of T.values world.old) (world_of T.values world.new)) }
    ensures served { OnOk result (NoKey (oldest_id (world_of T.values world.new).lanes)) }
    ensures left { OnOk result (ticks_left (world_of T.values world.new) ≡ ticks_left (world_of T.values world.old)) }
{
    while let Some(place) = oldest::<C, D, T>(world) {
        world.serve(target, place)?;
    }
    Ok(())
}

/// Each core, in core order, takes all posts that wait for it.
fn take_all<C: Send + Drop, D: Send + Drop, T: Target<Core = C, Chan = D>>(
    target: &T,
    world: &mut World<C, D>,
) -> Result<(), OutOfMemory>
    requires open { IsOpen (T.rules target.now) (T.owns target.now) (world_of T.values world.old) }
    requires served { NoKey (oldest_id (world_of T.values world.old).lanes) }
    ensures open { OnOk result (IsOpen (T.rules target.now) (T.owns target.now) (world_of T.values world.new)) }
    ensures leads { OnOk result (LeadsTo (T.rules target.now) (world_of T.values world.old) (world_of T.values world.new)) }
    ensures served { OnOk result (NoKey (oldest_id (world_of T.values world.new).lanes)) }
    ensures taken { OnOk result (NoKey (oldest_post (world_of T.values world.new).lanes)) }
    ensures left { OnOk result (ticks_left (world_of T.values world.new) ≡ ticks_left (world_of T.values world.old)) }
{
    while let Some(place) = first_waiting::<C, D, T>(world) {
        world.take(target, place)?;
    }
    Ok(())
}

/// Completes a drift. All asks are served, the least id first; then each core, in core order, takes all its posts; then,
/// where some core is below the end clock, the slowest one, of the lowest number, ticks once, and so on from the first.
///
/// Out of memory: the world is left in the middle of a step.
pub fn finish<C: Send + Drop, D: Send + Drop, T: Target<Core = C, Chan = D>>(
    target: &T,
    world: &mut World<C, D>,
) -> Result<(), OutOfMemory>
    requires { IsOpen (T.rules target.now) (T.owns target.now) (world_of T.values world.old) }
    ensures open { OnOk result (IsOpen (T.rules target.now) (T.owns target.now) (world_of T.values world.new)) }
    ensures world { OnOk result (Finishes (T.rules target.now) (world_of T.values world.old) (world_of T.values world.new)) }
{
    serve_all(target, world)?;
    take_all(target, world)?;
    while let Some(place) = slowest::<C, D, T>(world) {
        world.tick(target, place)?;
        serve_all(target, world)?;
        take_all(target, world)?;
    }
    Ok(())
}
