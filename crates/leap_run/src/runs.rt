//! Runs cycle by cycle, by leaps.
ghost use Rattle.std.specs.Prelude.{◌≡◌, ◌-◌, ◌<◌, ◌≤◌, [], OnOk};
ghost use Rattle.slack_base.specs.declared.bounds.TheConstants.{TOP};
ghost use Rattle.target_law.specs.Cycles.{lockstep, IsLockstepOf};
ghost use Rattle.target_law.specs.Proper.{IsProper, IsPunctual};
ghost use Rattle.target_law.specs.Stops.{Stops};
ghost use Rattle.target_law.specs.Views.{state_of};

use crate::leaps::leap;
use crate::messages::Messages;
use slack_base::OutOfMemory;
use std::alloc::Global;
use target_law::{State, Target, stopped};

/// One leap of a state, no further than a clock. Where memory is wanting, the state is left in the middle of it.
fn leap_on<T: Target>(
    target: &T,
    state: &mut State<T>,
    until: u64,
    messages: &mut Messages,
) -> Result<(), OutOfMemory>
    requires order { state.old.clock < until }
    requires top { until ≤ TOP }
    requires proper { IsProper (T.rules target.now) (T.owns target.now) (state_of T.values state.old) }
    requires punctual { IsPunctual (state_of T.values state.old) }
    requires asks { messages.old.asks ≡ [] }
    requires posts { messages.old.posts ≡ [] }
    ensures ahead { OnOk result ((state.old.clock < state.new.clock) × (state.new.clock ≤ until)) }
    ensures state { OnOk result (IsLockstepOf (T.rules target.now) (state_of T.values state.old) (state_of T.values state.new)) }
    ensures asks { OnOk result (messages.new.asks ≡ []) }
    ensures posts { OnOk result (messages.new.posts ≡ []) }
{
    let cores = state.cores.as_mut_slice();
    let chans = state.chans.as_mut_slice();
    state.clock = leap(target, cores, chans, state.clock, until, messages)?;
    Ok(())
}

/// The cycles up to a clock, from a state in which no post is late. Cycles in which no core can hear of another are gone
/// over at once. Where memory is wanting, the state is left in the middle of some.
pub fn run_to<T: Target>(
    alloc: Global,
    target: &T,
    state: &mut State<T>,
    clock: u64,
) -> Result<(), OutOfMemory>
    requires order { state.old.clock ≤ clock }
    requires top { clock ≤ TOP }
    requires proper { IsProper (T.rules target.now) (T.owns target.now) (state_of T.values state.old) }
    requires punctual { IsPunctual (state_of T.values state.old) }
    ensures state { OnOk result (state_of T.values state.new ≡ lockstep (T.rules target.now) (state_of T.values state.old) (clock - state.old.clock)) }
    ensures clock { OnOk result (state.new.clock ≡ clock) }
    ensures proper { OnOk result (IsProper (T.rules target.now) (T.owns target.now) (state_of T.values state.new)) }
    ensures punctual { OnOk result (IsPunctual (state_of T.values state.new)) }
{
    let mut messages = Messages::new(alloc);
    while state.clock < clock {
        leap_on(target, state, clock, &mut messages)?;
    }
    Ok(())
}

/// Runs cycle by cycle, in intervals of so many cycles, until at the end of an interval all cores have ended, or the
/// limit is reached. A run that begins at its limit ends there. Where memory is wanting, the state is left in the middle
/// of some cycles.
pub fn run<T: Target>(
    alloc: Global,
    target: &T,
    state: &mut State<T>,
    interval: u64,
    limit: u64,
) -> Result<(), OutOfMemory>
    requires begins { state.old.clock ≤ limit }
    requires top { limit ≤ TOP }
    requires interval { 1 ≤ interval }
    requires proper { IsProper (T.rules target.now) (T.owns target.now) (state_of T.values state.old) }
    requires punctual { IsPunctual (state_of T.values state.old) }
    ensures stops { OnOk result (Stops (T.rules target.now) interval limit (state_of T.values state.old) state.new.clock) }
    ensures state { OnOk result (IsLockstepOf (T.rules target.now) (state_of T.values state.old) (state_of T.values state.new)) }
    ensures proper { OnOk result (IsProper (T.rules target.now) (T.owns target.now) (state_of T.values state.new)) }
    ensures punctual { OnOk result (IsPunctual (state_of T.values state.new)) }
{
    while state.clock < limit {
        let next = state.clock + interval.min(limit - state.clock);
        run_to(alloc, target, state, next)?;
        if stopped(target, state) {
            return Ok(());
        }
    }
    Ok(())
}
