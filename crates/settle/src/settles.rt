//! Finishing of a drift by threads.
ghost use Rattle.std.specs.Prelude.{◌≡◌, ◌+◌, ◌≤◌, ℕ, IfOk, length};
ghost use Rattle.slack_base.specs.declared.bounds.TheConstants.{TOP};
ghost use Rattle.target_law.specs.Cycles.{StateValue};
ghost use Rattle.target_law.specs.Drifts.{IsDrift};
ghost use Rattle.target_law.specs.Numbered.{AllNumbered};
ghost use Rattle.target_law.specs.Proper.{IsProper};
ghost use Rattle.violation_watch.specs.Watching.{SawServed};
ghost use Rattle.drive_script.specs.Open.{IsOpen};
ghost use Rattle.drive_script.specs.Scripts.{history, closed};
ghost use Rattle.drive_script.specs.Views.{world_of};
ghost use Rattle.manager.specs.Managers.{IsReadyManager};
ghost use Rattle.manager.specs.Places.{PlacePairs};
ghost use Rattle.settle.specs.Gathers.{AreLinked};
ghost use Rattle.settle.specs.Parts.{IsReadyPart, AreUnderway};
ghost use Rattle.settle.specs.Settles.{FinishesFrom, HaveTakenMore};

use crate::gathers::gather;
use crate::parts::Part;
use crate::watching::watch_served;
use drive_script::finishing::finish;
use drive_script::worlds::World;
use manager::Manager;
use slack_base::{AskList, OutOfMemory, PostList};
use std::alloc::Global;
use target_law::Target;
use violation_watch::Watch;

/// A drift that is finished: the world that it left, and the manager's monitor, which saw all its asks served.
#[derive(Drop)]
pub struct Settled<C: Drop, D: Drop> {
    pub world: World<C, D>,
    pub watch: Watch,
}

/// Completes a drift by threads, over what its manager and its cores have come to: what is left in the rings waits at the
/// cores, and then the drift is completed as every drift is.
pub fn settle<C: Send + Drop, D: Send + Drop, T: Target<Core = C, Chan = D>>(
    alloc: Global,
    target: &T,
    manager: Manager<D>,
    parts: Vec<Part<C>>,
    end: u64,
) -> Result<Settled<C, D>, OutOfMemory>
    requires top { end ≤ TOP }
    requires manager { IsReadyManager (T.rules target.now) (T.owns target.now) T.values manager }
    requires parts { AllNumbered (IsReadyPart (T.rules target.now) (T.owns target.now) T.values end) 0 parts.items }
    requires ends { PlacePairs (λ c. AreLinked) manager.desks.items parts.items }
    ensures end { IfOk result (λ r. r.world.end ≡ end) }
    ensures open { IfOk result (λ r. IsOpen (T.rules target.now) (T.owns target.now) (world_of T.values r.world)) }
    // What is gathered is led to it by finishing.
    ensures finishes { IfOk result (λ r. FinishesFrom (T.rules target.now) T.values end manager parts.items (world_of T.values r.world)) }
    // From whatever state all of them came, the history is that of a drift from there to what the world is left as.
    ensures drift { (s : StateValue T.Inner T.Channel) (k : ℕ) → end ≡ s.clock + k → IsProper (T.rules target.now) (T.owns target.now) s → AreUnderway (T.rules target.now) T.values s manager parts.items → IfOk result (λ r. IsDrift (T.rules target.now) s (history s.clock k (world_of T.values r.world)) (closed (T.rules target.now) (world_of T.values r.world))) }
    ensures taken { IfOk result (λ r. HaveTakenMore parts.items r.world.lanes.items) }
    ensures watch { IfOk result (λ r. SawServed (T.rules target.now) r.world.clashes r.world.served r.watch) }
{
    let (chans, desks, served, clashes, mut watch) = manager.into_raw();
    let from = served.len();
    let lanes = gather(alloc, desks, parts)?;
    let mut world = World {
        end,
        lanes,
        chans,
        served,
        clashes,
        asks: AskList::new(alloc),
        posts: PostList::new(alloc),
    };
    finish(target, &mut world)?;
    watch_served(
        target,
        &mut watch,
        world.served.as_slice(),
        world.clashes.as_slice(),
        from,
    )?;
    Ok(Settled { world, watch })
}
