//! What a machine of cores and channels brings along.
ghost use Rattle.std.specs.Prelude.{◌≡◌, ◌==◌, ◌&&◌, ◌-◌, ◌<◌, ◌≤◌, ◌++◌, [], None, Some, IfNone, IfOk, IfSome, OnOk};
ghost use Rattle.slack_base.specs.declared.bounds.TheConstants.{TOP};
ghost use Rattle.slack_base.specs.Inboxes.{with_put};
ghost use Rattle.target_law.specs.Advances.{MayAdvance};
ghost use Rattle.target_law.specs.Cycles.{tick_of, ticks_of};
ghost use Rattle.target_law.specs.Laws.{Laws};
ghost use Rattle.target_law.specs.Proper.{IsProperAsk, IsPostTo, IsCore, IsChan, IsChanOf};
ghost use Rattle.target_law.specs.Rules.{Rules, Owns};
ghost use Rattle.target_law.specs.Values.{Values};

use slack_base::{Ask, AskList, Id, OutOfMemory, Post, PostList};

/// A machine of cores and channels. Contracts see it as rules over the values of a core and of a channel, of which
/// some are the machine's own. Where a call wants memory that isn't there, nothing is said of its core or channel.
pub trait Target {
    type Core: Send + Drop;

    type Chan: Send + Drop;

    // all of a core's value but its inbox, and a channel's value
    ghost Inner: { Type 0 };

    ghost Channel: { Type 0 };

    // what contracts see of a core and of a channel
    ghost values: { Values Self.Core Self.Chan Inner Channel };

    ghost rules: { Self → Rules Inner Channel };

    // the values that are the machine's own
    ghost owns: { Self → Owns Inner Channel };

    /// How many cores there are.
    fn cores(&self) -> u32
        ensures { result ≡ (rules self.now).cores };

    /// How many channels there are.
    fn channels(&self) -> u32
        ensures { result ≡ (rules self.now).channels };

    /// The least number of cycles from an ask to a post that it causes.
    fn lookahead(&self) -> u64
        ensures { result ≡ (rules self.now).lookahead };

    /// The number of the channel that an ask is of.
    fn channel_of(&self, ask: &Ask) -> u32
        ensures { result ≡ (rules self.now).channel_of ask.now };

    /// The number of a core.
    fn number_of(&self, core: &Self::Core) -> u32
        ensures { result ≡ (rules self.now).core_number (values.core core.now).inner };

    /// Whether an ask is one that the machine's cores may send.
    fn ask_is_proper(&self, ask: &Ask) -> bool
        ensures { result ≡ (rules self.now).is_proper_ask ask.now };

    /// Whether a post is one that the machine's channels may send, and is addressed to this core.
    fn post_is_proper(&self, core: u32, post: &Post) -> bool
        ensures { result ≡ ((rules self.now).is_proper_post post.now && (post.now.to == core)) };

    /// Whether a core has ended.
    fn ended(&self, core: &Self::Core) -> bool
        ensures { result ≡ (rules self.now).has_ended (values.core core.now).inner };

    /// Puts a post into the core's inbox.
    fn put(&self, core: &mut Self::Core, post: Post) -> Result<(), OutOfMemory>
        requires { IsPostTo (rules self.now) ((rules self.now).core_number (values.core core.old).inner) post }
        ensures core { OnOk result (values.core core.new ≡ with_put post (values.core core.old)) }
        ensures saved { OnOk result (values.saved_core core.new ≡ values.saved_core core.old) };

    /// One tick of a core. The asks that it sends are appended.
    fn tick(&self, core: &mut Self::Core, cycle: u64, out: &mut AskList) -> Result<(), OutOfMemory>
        requires clock { cycle ≤ TOP }
        requires core { IsCore (rules self.now) (owns self.now) (values.core core.old) }
        ensures core { OnOk result (values.core core.new ≡ (tick_of (rules self.now) cycle (values.core core.old)).0) }
        ensures asks { OnOk result (out.new ≡ out.old ++ (tick_of (rules self.now) cycle (values.core core.old)).1) }
        ensures saved { OnOk result (values.saved_core core.new ≡ values.saved_core core.old) };

    /// Ticks a core from a clock on, one after another, with no new post: up to `until`, or up to a tick in which it sends
    /// something, which is then the last. The asks are appended, and the clock that comes next is handed back. A machine
    /// may go over ticks in which nothing happens at once; where it does not say how, each call is one tick.
    fn advance(
        &self,
        core: &mut Self::Core,
        from: u64,
        until: u64,
        out: &mut AskList,
    ) -> Result<u64, OutOfMemory>
        requires order { from < until }
        requires clock { until ≤ TOP }
        requires core { IsCore (rules self.now) (owns self.now) (values.core core.old) }
        ensures reached { IfOk result (λ clock. MayAdvance (rules self.now) from until (values.core core.old) clock) }
        ensures core { IfOk result (λ clock. values.core core.new ≡ (ticks_of (rules self.now) from (clock - from) (values.core core.old)).0) }
        ensures asks { IfOk result (λ clock. out.new ≡ out.old ++ (ticks_of (rules self.now) from (clock - from) (values.core core.old)).1) }
        ensures saved { OnOk result (values.saved_core core.new ≡ values.saved_core core.old) }
    {
        self.tick(core, from, out)?;
        Ok(from + 1)
    }

    /// For how many ticks from a clock on a core surely sends nothing, if no post comes in. It takes no memory.
    fn quiet(&self, core: &Self::Core, from: u64) -> u64
        requires { IsCore (rules self.now) (owns self.now) (values.core core.now) }
        ensures { (ticks_of (rules self.now) from result (values.core core.now)).1 ≡ [] }
    {
        0
    }

    /// Serves an ask of this channel. The posts that it causes are appended.
    fn serve(&self, chan: &mut Self::Chan, ask: &Ask, out: &mut PostList) -> Result<(), OutOfMemory>
        requires ask { IsProperAsk (rules self.now) ask.now }
        requires chan { IsChanOf (rules self.now) (owns self.now) ((rules self.now).channel_of ask.now) (values.chan chan.old) }
        ensures chan { OnOk result (values.chan chan.new ≡ ((rules self.now).serve (values.chan chan.old) ask.now).0) }
        ensures posts { OnOk result (out.new ≡ out.old ++ ((rules self.now).serve (values.chan chan.old) ask.now).1) }
        ensures saved { OnOk result (values.saved_chan chan.new ≡ values.saved_chan chan.old) };

    /// The id that an ask of this channel would be out of order with if it were served now, if there is one. It takes no
    /// memory.
    fn clash(&self, chan: &Self::Chan, ask: &Ask) -> Option<Id>
        requires ask { IsProperAsk (rules self.now) ask.now }
        requires chan { IsChanOf (rules self.now) (owns self.now) ((rules self.now).channel_of ask.now) (values.chan chan.now) }
        ensures { result ≡ (rules self.now).clash (values.chan chan.now) ask.now };

    /// Closes the channel: what it noted to tell clashes is forgotten. It takes no memory.
    fn close(&self, chan: &mut Self::Chan)
        requires { IsChan (rules self.now) (owns self.now) (values.chan chan.old) }
        ensures chan { values.chan chan.new ≡ (rules self.now).close (values.chan chan.old) }
        ensures saved { values.saved_chan chan.new ≡ values.saved_chan chan.old };

    /// A cycle from which on the core touched nothing of what a post to it is about. It takes no memory.
    fn touched(&self, core: &Self::Core, post: &Post) -> u64
        requires { IsPostTo (rules self.now) ((rules self.now).core_number (values.core core.now).inner) post.now }
        ensures { result ≡ (rules self.now).touched (values.core core.now).inner post.now };

    /// Marks the core: its present value is saved, in place of one that was saved before.
    fn mark_core(&self, core: &mut Self::Core) -> Result<(), OutOfMemory>
        requires { IsCore (rules self.now) (owns self.now) (values.core core.old) }
        ensures core { OnOk result (values.core core.new ≡ values.core core.old) }
        ensures saved { OnOk result (values.saved_core core.new ≡ Some (values.core core.old)) };

    /// Takes the core back to its mark, and ends the mark. One that isn't marked stays as it is. It takes no memory.
    fn undo_core(&self, core: &mut Self::Core)
        ensures marked { IfSome (values.saved_core core.old) (λ v. values.core core.new ≡ v) }
        ensures unmarked { IfNone (values.saved_core core.old) (values.core core.new ≡ values.core core.old) }
        ensures saved { values.saved_core core.new ≡ None };

    /// Ends the core's mark, if it has one. It takes no memory.
    fn keep_core(&self, core: &mut Self::Core)
        ensures core { values.core core.new ≡ values.core core.old }
        ensures saved { values.saved_core core.new ≡ None };

    /// Marks the channel: its present value is saved, in place of one that was saved before.
    fn mark_chan(&self, chan: &mut Self::Chan) -> Result<(), OutOfMemory>
        requires { IsChan (rules self.now) (owns self.now) (values.chan chan.old) }
        ensures chan { OnOk result (values.chan chan.new ≡ values.chan chan.old) }
        ensures saved { OnOk result (values.saved_chan chan.new ≡ Some (values.chan chan.old)) };

    /// Takes the channel back to its mark, and ends the mark. One that isn't marked stays as it is. It takes no memory.
    fn undo_chan(&self, chan: &mut Self::Chan)
        ensures marked { IfSome (values.saved_chan chan.old) (λ v. values.chan chan.new ≡ v) }
        ensures unmarked { IfNone (values.saved_chan chan.old) (values.chan chan.new ≡ values.chan chan.old) }
        ensures saved { values.saved_chan chan.new ≡ None };

    /// Ends the channel's mark, if it has one. It takes no memory.
    fn keep_chan(&self, chan: &mut Self::Chan)
        ensures chan { values.chan chan.new ≡ values.chan chan.old }
        ensures saved { values.saved_chan chan.new ≡ None };

    // what every target keeps to
    ghost laws: { (target : Self) → Laws (rules target) (owns target) };
}
