//! The actors of a machine's cores, with new rings.
ghost use Rattle.std.specs.Prelude.{◌≡◌, ◌<◌, [], length, IfOk};
ghost use Rattle.drift_run.specs.Crews.{IsCrew};

use core_actor::CoreActor;
use core_gate::Pacer;
use manager::managers::{AskReceiverList, PostSenderList};
use slack_base::OutOfMemory;
use stamp_queue::{ask_ring, post_ring};
use std::alloc::Global;

/// The actors of some cores, in core order, and the other ends of their rings.
#[derive(Drop)]
pub(crate) struct Crew<C: Drop> {
    pub actors: Vec<CoreActor<C>>,
    pub asks: AskReceiverList,
    pub posts: PostSenderList,
}

impl<C: Send + Drop> Crew<C> {
    ghost use Rattle.std.specs.Prelude.{◌<◌, [], ◌∷◌, ◌++◌, List, OnOk};
    ghost use Rattle.core_gate.specs.declared.pacers.Pacer.{Pacer};
    ghost use Rattle.drift_run.specs.Crews.{IsCrew};

    /// One actor more, with rings of so many slots.
    fn add(&mut self, alloc: Global, core: C, pacer: Pacer, slots: u32) -> Result<(), OutOfMemory>
        requires { 0 < slots }
        ensures { (cores : List C) (pacers : List Pacer) → IsCrew cores pacers self.old → OnOk result (IsCrew (cores ++ core ∷ []) (pacers ++ pacer ∷ []) self.new) }
    {
        let (ask_sender, ask_receiver) = ask_ring(alloc, slots)?;
        let (post_sender, post_receiver) = post_ring(alloc, slots)?;
        let actor = CoreActor::new(alloc, core, ask_sender, post_receiver, pacer);
        self.actors.push(actor)?;
        self.asks.push(ask_receiver)?;
        self.posts.push(post_sender)?;
        Ok(())
    }
}

/// An actor for each core and its pacer, with rings of so many slots.
pub(crate) fn crew_of<C: Send + Drop>(
    alloc: Global,
    cores: Vec<C>,
    pacers: Vec<Pacer>,
    slots: u32,
) -> Result<Crew<C>, OutOfMemory>
    requires slots { 0 < slots }
    requires pacers { length pacers.items ≡ length cores.items }
    ensures { IfOk result (λ crew. IsCrew cores.items pacers.items crew) }
{
    let mut crew = Crew {
        actors: Vec::new(alloc),
        asks: AskReceiverList::new(alloc),
        posts: PostSenderList::new(alloc),
    };
    for (core, pacer) in cores.into_iter().zip(pacers) {
        crew.add(alloc, core, pacer, slots)?;
    }
    Ok(crew)
}
