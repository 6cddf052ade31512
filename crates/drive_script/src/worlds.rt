//! The world of a given interleaving, and its steps.
ghost use Rattle.std.specs.Prelude.{◌≡◌, ◌<◌, ◌++◌, ◌∷◌, [], length, map, OnOk, IfOk, All};
ghost use Rattle.target_law.specs.Cycles.{through};
ghost use Rattle.target_law.specs.Numbered.{AllNumbered};
ghost use Rattle.target_law.specs.Proper.{IsProperAsk, IsChanOf};
ghost use Rattle.drive_script.specs.Views.{lane_of};
ghost use Rattle.drive_script.specs.Worlds.{oldest, younger, posted};

use crate::lanes::Lane;
use slack_base::{Ask, AskList, ClashList, Id, OutOfMemory, Post, PostList, Step};
use std::collections::VecDeque;
use target_law::Target;

/// A lane for each core, the channels, the asks that were served with what each clashed with, and the clock at which every
/// core is to end.
#[derive(Drop)]
pub struct World<C: Drop, D: Drop> {
    pub end: u64,
    pub lanes: Vec<Lane<C>>,
    pub chans: Vec<D>,
    pub served: AskList,
    pub clashes: ClashList,
    /// Room for the asks of a tick.
    pub asks: AskList,
    /// Room for the posts of an ask.
    pub posts: PostList,
}

impl<C: Send + Drop, D: Send + Drop> World<C, D> {
    ghost use Rattle.std.specs.Prelude.{◌≡◌, OnOk};
    ghost use Rattle.slack_base.specs.declared.steps.Step.TheVariants.{Tick, Serve, Take};
    ghost use Rattle.drive_script.specs.Open.{IsOpen};
    ghost use Rattle.drive_script.specs.Views.{world_of};
    ghost use Rattle.drive_script.specs.Worlds.{stepped};

    /// Takes a step. One that can't be done changes nothing.
    ///
    /// Out of memory: the world is left in the middle of the step.
    pub fn step<T: Target<Core = C, Chan = D>>(
        &mut self,
        target: &T,
        step: &Step,
    ) -> Result<(), OutOfMemory>
        requires { IsOpen (T.rules target.now) (T.owns target.now) (world_of T.values self.old) }
        ensures world { OnOk result (world_of T.values self.new ≡ stepped (T.rules target.now) step.now (world_of T.values self.old)) }
        ensures open { OnOk result (IsOpen (T.rules target.now) (T.owns target.now) (world_of T.values self.new)) }
    {
        match *step {
            Step::Tick { core } => self.tick(target, core as usize)?,
            Step::Serve { core } => self.serve(target, core as usize)?,
            Step::Take { core } => self.take(target, core as usize)?,
        }
        Ok(())
    }

    /// The core at a place ticks.
    pub(crate) fn tick<T: Target<Core = C, Chan = D>>(
        &mut self,
        target: &T,
        place: usize,
    ) -> Result<(), OutOfMemory>
        requires { IsOpen (T.rules target.now) (T.owns target.now) (world_of T.values self.old) }
        ensures { OnOk result (world_of T.values self.new ≡ stepped (T.rules target.now) (Tick place) (world_of T.values self.old)) }
    {
        if place >= self.lanes.len() {
            return Ok(());
        }
        self.lanes[place].tick(target, self.end, &mut self.asks)?;
        Ok(())
    }

    /// The oldest ask of the core at a place is served.
    pub(crate) fn serve<T: Target<Core = C, Chan = D>>(
        &mut self,
        target: &T,
        place: usize,
    ) -> Result<(), OutOfMemory>
        requires { IsOpen (T.rules target.now) (T.owns target.now) (world_of T.values self.old) }
        ensures { OnOk result (world_of T.values self.new ≡ stepped (T.rules target.now) (Serve place) (world_of T.values self.old)) }
    {
        if place >= self.lanes.len() {
            return Ok(());
        }
        let Some(ask) = next_ask(&mut self.lanes[place].asks) else {
            return Ok(());
        };
        self.posts.clear();
        serve_ask(
            target,
            &mut self.chans,
            &ask,
            &mut self.clashes,
            &mut self.posts,
        )?;
        self.served.push(ask)?;
        post_all::<C, T>(&mut self.lanes, self.posts.as_slice())?;
        Ok(())
    }

    /// The core at a place takes the oldest of its posts.
    pub(crate) fn take<T: Target<Core = C, Chan = D>>(
        &mut self,
        target: &T,
        place: usize,
    ) -> Result<(), OutOfMemory>
        requires { IsOpen (T.rules target.now) (T.owns target.now) (world_of T.values self.old) }
        ensures { OnOk result (world_of T.values self.new ≡ stepped (T.rules target.now) (Take place) (world_of T.values self.old)) }
    {
        if place >= self.lanes.len() {
            return Ok(());
        }
        self.lanes[place].take(target)?;
        Ok(())
    }
}

/// Takes the oldest ask out of a queue.
pub fn next_ask(queue: &mut VecDeque<Ask>) -> Option<Ask>
    ensures ask { result ≡ oldest queue.old.items }
    ensures queue { queue.new.items ≡ younger queue.old.items }
{
    queue.pop_front()
}

/// Serves an ask on its channel. What it clashes with just before is appended and handed back; its posts are appended.
pub fn serve_ask<D: Send + Drop, T: Target<Chan = D>>(
    target: &T,
    chans: &mut Vec<D>,
    ask: &Ask,
    clashes: &mut ClashList,
    posts: &mut PostList,
) -> Result<Option<Id>, OutOfMemory>
    requires count { length chans.old.items ≡ (T.rules target.now).channels }
    requires chans { AllNumbered (IsChanOf (T.rules target.now) (T.owns target.now)) 0 (map T.values.chan chans.old.items) }
    requires ask { IsProperAsk (T.rules target.now) ask.now }
    ensures chans { OnOk result (map T.values.chan chans.new.items ≡ (through (T.rules target.now) (map T.values.chan chans.old.items) (ask.now ∷ [])).chans) }
    ensures clashes { OnOk result (clashes.new ≡ clashes.old ++ (through (T.rules target.now) (map T.values.chan chans.old.items) (ask.now ∷ [])).clashes) }
    ensures clash { IfOk result (λ clash. (through (T.rules target.now) (map T.values.chan chans.old.items) (ask.now ∷ [])).clashes ≡ clash ∷ []) }
    ensures posts { OnOk result (posts.new ≡ posts.old ++ (through (T.rules target.now) (map T.values.chan chans.old.items) (ask.now ∷ [])).posts) }
{
    let number = target.channel_of(ask) as usize;
    let clash = target.clash(&chans[number], ask);
    clashes.push(clash)?;
    target.serve(&mut chans[number], ask, posts)?;
    Ok(clash)
}

/// Posts wait, one after another, each for the core that it is addressed to.
fn post_all<C: Send + Drop, T: Target<Core = C>>(
    lanes: &mut Vec<Lane<C>>,
    posts: &[Post],
) -> Result<(), OutOfMemory>
    requires { All (λ p. p.to < length lanes.old.items) posts.now }
    ensures { OnOk result (map (lane_of T.values) lanes.new.items ≡ posted (map (lane_of T.values) lanes.old.items) posts.now) }
{
    for post in posts {
        lanes[post.to as usize].posts.push_back(*post)?;
    }
    Ok(())
}
