//! A core's actor.

use core_gate::Pacer;
use drive_script::Lane;
use slack_base::{AskList, TakenList, ViolationList};
use stamp_queue::{AskSender, PostReceiver};
use std::alloc::Global;
use violation_watch::Watch;

/// A core at its own clock, with its ends of the rings, its pacer and its watch. Its number is the pacer's. The posts that
/// were received and aren't taken yet wait in the lane; the lane's asks are empty between turns. It may go to another
/// thread where the core may.
#[derive(Drop)]
pub struct CoreActor<C: Drop> {
    pub lane: Lane<C>,
    pub asks: AskSender,
    pub posts: PostReceiver,
    pub pacer: Pacer,
    pub watch: Watch,
    /// Room for the asks of a tick.
    pub(crate) out: AskList,
}

/// What an actor leaves: its lane, its ends of the rings and its watch.
#[derive(Drop)]
pub struct ActorParts<C: Drop> {
    pub lane: Lane<C>,
    pub asks: AskSender,
    pub posts: PostReceiver,
    pub watch: Watch,
}

impl<C: Send + Drop> CoreActor<C> {
    ghost use Rattle.std.specs.Prelude.{◌≡◌, []};
    ghost use Rattle.stamp_queue.specs.Rings.{all_sent, all_received};
    ghost use Rattle.core_actor.specs.Actors.{IsBegun};

    /// An actor of a core, at the clock of its pacer, with no history. It takes no memory.
    pub fn new(
        alloc: Global,
        core: C,
        asks: AskSender,
        posts: PostReceiver,
        pacer: Pacer,
    ) -> CoreActor<C>
        requires sent { all_sent asks ≡ [] }
        requires received { all_received posts ≡ [] }
        ensures { IsBegun core asks posts pacer result }
    {
        let clock = pacer.clock();
        CoreActor {
            lane: Lane::new(alloc, core, clock),
            asks,
            posts,
            pacer,
            watch: Watch::new(alloc),
            out: AskList::new(alloc),
        }
    }

    /// The core, the posts that it took, and what its watch found. Posts that were received and not taken are let go.
    pub fn into_parts(self) -> (C, TakenList, ViolationList)
        ensures { result ≡ (self.lane.core, self.lane.taken, self.watch.found) }
    {
        let CoreActor { lane, watch, .. } = self;
        let Lane { core, taken, .. } = lane;
        (core, taken, watch.into_found())
    }

    /// The lane, the ends of the rings and the watch, as they are. The pacer is let go.
    pub fn into_raw(self) -> ActorParts<C>
        ensures lane { result.lane ≡ self.lane }
        ensures asks { result.asks ≡ self.asks }
        ensures posts { result.posts ≡ self.posts }
        ensures watch { result.watch ≡ self.watch }
    {
        ActorParts {
            lane: self.lane,
            asks: self.asks,
            posts: self.posts,
            watch: self.watch,
        }
    }
}

fn crosses<X: Send>() {}

/// This is proved, or no actor could go to another thread.
fn actors_cross<C: Send + Drop>() {
    crosses::<CoreActor<C>>();
    crosses::<ActorParts<C>>();
}
