//! The legs of a core.

use crate::actors::CoreActor;
use io_edge::Gate;
use slack_base::OutOfMemory;
use std::thread;
use target_law::Target;

impl<C: Send + Drop> CoreActor<C> {
    ghost use Rattle.std.specs.Prelude.{OnOk};
    ghost use Rattle.core_actor.specs.Actors.{IsReady, Ran};

    /// Turns, until the clock is `end` or more than `patience` turns in a row were idle. A turn looks at global time, lets
    /// messages pass, and ticks once where the slack allows it and the gate doesn't hold the core; the gate is asked only
    /// where the slack allows it. A turn without a tick is idle.
    ///
    /// Out of memory: the actor is left in the middle of a turn.
    pub fn leg<T: Target<Core = C>, G: Gate>(
        &mut self,
        target: &T,
        gate: &G,
        end: u64,
        patience: u32,
    ) -> Result<(), OutOfMemory>
        requires { IsReady (T.rules target.now) (T.owns target.now) T.values end self.old }
        ensures { OnOk result (Ran (T.rules target.now) (T.owns target.now) T.values (record { may = G.may_hold gate.now; must = G.must_hold gate.now }) end self.old self.new) }
    {
        let mut idle = 0u64;
        while self.lane.clock < end && idle <= u64::from(patience) {
            self.exchange(target, end)?;
            if self.pacer.may_advance() && !gate.hold(self.pacer.number(), self.lane.clock) {
                self.tick(target, end)?;
                idle = 0;
            } else {
                idle += 1;
                thread::yield_now();
            }
        }
        Ok(())
    }
}
