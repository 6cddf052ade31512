//! The manager's leg.
ghost use Rattle.std.specs.Prelude.{◌≡◌, ◌≤◌, OnOk};
ghost use Rattle.manager.specs.Leads.{Led, Turned, Ended};
ghost use Rattle.manager.specs.Managers.{IsReadyManager};

use crate::managers::Manager;
use crate::turns::{flush_all, look_all, receive_all};
use slack_base::OutOfMemory;
use std::thread;
use target_law::Target;

/// How many asks a leg serves before it ends.
pub const MOST_SERVED: usize = 1 << 32;

impl<D: Send + Drop> Manager<D> {
    /// One turn. Posts that wait are pushed into the rings; each core's clock is looked at once; all asks that the rings
    /// show are received; of the asks that wait those are served that may be, the least id first; and only then global
    /// time is raised, so that a core that sees it finds the posts of all asks below it in its ring.
    fn turn<T: Target<Chan = D>>(&mut self, target: &T, cores: u32) -> Result<(), OutOfMemory>
        requires ready { IsReadyManager (T.rules target.now) (T.owns target.now) T.values self.old }
        requires cores { cores ≤ (T.rules target.now).cores }
        ensures led { OnOk result (Led (T.rules target.now) (T.owns target.now) T.values self.old self.new) }
        ensures turned { OnOk result (Turned (T.rules target.now) self.old self.new) }
    {
        flush_all(&mut self.desks);
        look_all(&mut self.overseer, cores);
        receive_all(&mut self.desks)?;
        self.serve_all(target)?;
        self.overseer.raise();
        Ok(())
    }

    /// Turn after turn, until global time is at least `end`, there were more than `patience` idle turns in a row, or the
    /// leg has served 2^32 asks. A turn is idle in which no ask was served and global time wasn't raised.
    ///
    /// Out of memory: the manager is left in the middle of a turn.
    pub fn leg<T: Target<Chan = D>>(
        &mut self,
        target: &T,
        end: u64,
        patience: u32,
    ) -> Result<(), OutOfMemory>
        requires { IsReadyManager (T.rules target.now) (T.owns target.now) T.values self.old }
        ensures led { OnOk result (Led (T.rules target.now) (T.owns target.now) T.values self.old self.new) }
        ensures ended { OnOk result (Ended (T.rules target.now) end self.old self.new) }
    {
        let cores = target.cores();
        let first = self.served.len();
        let mut idle = 0u64;
        while self.overseer.global() < end
            && idle <= u64::from(patience)
            && self.served.len() - first < MOST_SERVED
        {
            let global = self.overseer.global();
            let count = self.served.len();
            self.turn(target, cores)?;
            if self.overseer.global() > global || self.served.len() > count {
                idle = 0;
            } else {
                idle += 1;
                thread::yield_now();
            }
        }
        Ok(())
    }
}
