//! Serving of asks.
ghost use Rattle.std.specs.Prelude.{◌≡◌, ℕ, List, ◌++◌, Some, length, map, OnOk};
ghost use Rattle.slack_base.specs.declared.messages.Ask.{Ask};
ghost use Rattle.slack_base.specs.declared.stamps.Id.{Id};
ghost use Rattle.target_law.specs.Numbered.{AllNumbered};
ghost use Rattle.target_law.specs.Proper.{IsProperAsk, IsChanOf};
ghost use Rattle.manager.specs.Leads.{ServedOne, Led};
ghost use Rattle.manager.specs.Managers.{IsReadyManager};
ghost use Rattle.manager.specs.Queues.{queues_of, next_id, TakesOldest, ServesAll};

use crate::managers::Manager;
use crate::picking::next_place;
use crate::turns::send_all;
use drive_script::worlds::{next_ask, serve_ask};
use slack_base::{Ask, OutOfMemory};
use target_law::Target;

impl<D: Send + Drop> Manager<D> {
    /// Serves an ask: it goes into the history with what it clashed with, and the monitor sees it. Its posts are left in
    /// `posts`.
    fn serve_one<T: Target<Chan = D>>(&mut self, target: &T, ask: Ask) -> Result<(), OutOfMemory>
        requires count { length self.old.chans.items ≡ (T.rules target.now).channels }
        requires chans { AllNumbered (IsChanOf (T.rules target.now) (T.owns target.now)) 0 (map T.values.chan self.old.chans.items) }
        requires ask { IsProperAsk (T.rules target.now) ask }
        ensures { OnOk result (ServedOne (T.rules target.now) T.values ask self.old self.new) }
    {
        self.posts.clear();
        let clash = serve_ask(
            target,
            &mut self.chans,
            &ask,
            &mut self.clashes,
            &mut self.posts,
        )?;
        self.served.push(ask)?;
        self.watch.on_serve(target, &ask, clash)?;
        Ok(())
    }

    /// Serves the oldest ask that waits at the desk of a place, and sends its posts.
    fn serve_at<T: Target<Chan = D>>(&mut self, target: &T, place: usize) -> Result<(), OutOfMemory>
        requires ready { IsReadyManager (T.rules target.now) (T.owns target.now) T.values self.old }
        requires servable { (i : Id) × (next_id (T.rules target.now) (queues_of self.old.desks.items) place ≡ Some i) }
        ensures led { OnOk result (Led (T.rules target.now) (T.owns target.now) T.values self.old self.new) }
        ensures takes { OnOk result (TakesOldest place self.old self.new) }
        ensures overseer { OnOk result (self.new.overseer ≡ self.old.overseer) }
    {
        let Some(ask) = next_ask(&mut self.desks[place].pending) else {
            unreachable!()
        };
        self.serve_one(target, ask)?;
        send_all(self.posts.as_slice(), &mut self.desks)?;
        Ok(())
    }

    /// Serves the asks that wait, the least id first, until no desk's oldest ask may be served.
    pub(crate) fn serve_all<T: Target<Chan = D>>(&mut self, target: &T) -> Result<(), OutOfMemory>
        requires { IsReadyManager (T.rules target.now) (T.owns target.now) T.values self.old }
        ensures led { OnOk result (Led (T.rules target.now) (T.owns target.now) T.values self.old self.new) }
        ensures order { OnOk result ((asks : List Ask) × (self.new.served ≡ self.old.served ++ asks) × ServesAll (T.rules target.now) (queues_of self.old.desks.items) asks (queues_of self.new.desks.items)) }
        ensures overseer { OnOk result (self.new.overseer ≡ self.old.overseer) }
    {
        while let Some(place) = next_place(target, &self.desks) {
            self.serve_at(target, place)?;
        }
        Ok(())
    }
}
