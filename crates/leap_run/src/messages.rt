//! The messages of a leap.
ghost use Rattle.std.specs.Prelude.{◌≡◌, [], OnOk, All, length, map};
ghost use Rattle.target_law.specs.Numbered.{AllNumbered};
ghost use Rattle.target_law.specs.Proper.{IsProperAsk, IsCoreOf, IsChanOf};
ghost use Rattle.leap_run.specs.Leaps.{IsExchanged};

use pacing::turns::sort_by_id;
use slack_base::{AskList, OutOfMemory, PostList};
use std::alloc::Global;
use target_law::{Target, close_all, deliver_all, serve_all};

/// Asks and the posts that they cause. The lists are empty between two leaps, and the next leap uses them again.
#[derive(Drop)]
pub(crate) struct Messages {
    pub(crate) asks: AskList,
    pub(crate) posts: PostList,
}

impl Messages {
    /// No messages. It takes no memory.
    pub(crate) fn new(alloc: Global) -> Messages
        ensures asks { result.asks ≡ [] }
        ensures posts { result.posts ≡ [] }
    {
        Messages {
            asks: AskList::new(alloc),
            posts: PostList::new(alloc),
        }
    }

    /// Lets go of all messages, and keeps the memory.
    fn clear(&mut self)
        ensures asks { self.new.asks ≡ [] }
        ensures posts { self.new.posts ≡ [] }
    {
        self.asks.clear();
        self.posts.clear();
    }

    /// Serves the asks in the order of their ids, each on its channel, closes all channels, and delivers the posts. No message
    /// is left.
    pub(crate) fn exchange<C: Send + Drop, D: Send + Drop, T: Target<Core = C, Chan = D>>(
        &mut self,
        target: &T,
        cores: &mut [C],
        chans: &mut [D],
    ) -> Result<(), OutOfMemory>
        requires core_count { length cores.old ≡ (T.rules target.now).cores }
        requires cores { AllNumbered (IsCoreOf (T.rules target.now) (T.owns target.now)) 0 (map T.values.core cores.old) }
        requires chan_count { length chans.old ≡ (T.rules target.now).channels }
        requires chans { AllNumbered (IsChanOf (T.rules target.now) (T.owns target.now)) 0 (map T.values.chan chans.old) }
        requires asks { All (IsProperAsk (T.rules target.now)) self.old.asks }
        requires posts { self.old.posts ≡ [] }
        ensures exchanged { OnOk result (IsExchanged (T.rules target.now) self.old.asks (map T.values.core cores.old) (map T.values.chan chans.old) (map T.values.core cores.new) (map T.values.chan chans.new)) }
        ensures asks { OnOk result (self.new.asks ≡ []) }
        ensures posts { OnOk result (self.new.posts ≡ []) }
    {
        sort_by_id(self.asks.as_mut_slice());
        serve_all(target, chans, self.asks.as_slice(), &mut self.posts)?;
        close_all(target, chans);
        deliver_all(target, cores, self.posts.as_slice())?;
        self.clear();
        Ok(())
    }
}
