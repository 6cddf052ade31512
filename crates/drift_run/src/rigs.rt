//! The manager and the actors of a drift, before its legs.
ghost use Rattle.std.specs.Prelude.{◌≡◌, ◌<◌, ◌≤◌, IfOk};
ghost use Rattle.slack_base.specs.declared.bounds.TheConstants.{TOP};
ghost use Rattle.target_law.specs.InSight.{rules_in_sight, owns_in_sight, values_in_sight};
ghost use Rattle.target_law.specs.Proper.{IsProper};
ghost use Rattle.target_law.specs.Views.{state_of};
ghost use Rattle.drift_run.specs.Rigs.{IsRigged};

use crate::crews::{Crew, crew_of};
use core_actor::CoreActor;
use core_gate::ClockTable;
use manager::Manager;
use slack_base::OutOfMemory;
use std::alloc::Global;
use target_law::{InSight, State, Target};

/// The manager of a drift, and the actors of its cores, in core order.
#[derive(Drop)]
pub(crate) struct Rig<C: Drop, D: Drop> {
    pub manager: Manager<D>,
    pub actors: Vec<CoreActor<C>>,
}

/// A manager and actors at the clock of a state, of its channels and cores, with this slack and with rings of so many
/// slots.
fn make_rig<T: Target>(
    alloc: Global,
    target: &T,
    state: State<T>,
    slack: u64,
    slots: u32,
) -> Result<Rig<T::Core, T::Chan>, OutOfMemory>
    requires proper { IsProper (T.rules target.now) (T.owns target.now) (state_of T.values state) }
    requires slack { (1 ≤ slack) × (slack ≤ TOP) }
    requires slots { 1 ≤ slots }
    ensures { IfOk result (λ r. IsRigged (T.rules target.now) (T.owns target.now) T.values (state_of T.values state) slack r.manager r.actors.items) }
{
    let State {
        clock,
        cores,
        chans,
    } = state;
    let mut table = ClockTable::make(alloc, target.cores(), clock, slack)?;
    let (overseer, pacers) = table.seats()?;
    let Crew {
        actors,
        asks,
        posts,
    } = crew_of(alloc, cores.into_vec(), pacers.into_vec(), slots)?;
    let manager = Manager::new(alloc, chans, asks, posts, overseer)?;
    Ok(Rig { manager, actors })
}

/// The same, of the machine with its marks in sight.
pub(crate) fn rig_in_sight<T: Target>(
    alloc: Global,
    target: &T,
    state: State<T>,
    slack: u64,
    slots: u32,
) -> Result<Rig<T::Core, T::Chan>, OutOfMemory>
    requires proper { IsProper (T.rules target.now) (T.owns target.now) (state_of T.values state) }
    requires slack { (1 ≤ slack) × (slack ≤ TOP) }
    requires slots { 1 ≤ slots }
    ensures { IfOk result (λ r. IsRigged (rules_in_sight (T.rules target.now)) (owns_in_sight (T.owns target.now)) (values_in_sight T.values) (state_of (values_in_sight T.values) state) slack r.manager r.actors.items) }
{
    let State {
        clock,
        cores,
        chans,
    } = state;
    let state = State {
        clock,
        cores,
        chans,
    };
    make_rig(alloc, &InSight::of(target), state, slack, slots)
}
