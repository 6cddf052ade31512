//! A target whose marks are in sight: so whatever is proved of the values of any target is proved of its marks too.

use crate::targets::Target;
use slack_base::{Ask, AskList, Id, OutOfMemory, Post, PostList};

/// The same machine, which does the same. Contracts see the marks of its cores and channels as part of their values, which
/// no put, tick, serving and closing changes. It has no marks of its own: the calls that would set one say that memory is
/// wanting, and those that end one do nothing.
#[derive(Drop)]
pub struct InSight<'a, T: Target> {
    target: &'a T,
}

impl<'a, T: Target> InSight<'a, T> {
    ghost use Rattle.std.specs.Prelude.{◌≡◌};

    /// The machine with its marks in sight.
    pub fn of(target: &'a T) -> InSight<'a, T>
        ensures { result.target.now ≡ target.now }
    {
        InSight { target }
    }
}

impl<'a, T: Target> Target for InSight<'a, T> {
    ghost use Rattle.slack_base.specs.Marks.{Marked};
    ghost use Rattle.target_law.specs.InSightLaws.{laws_in_sight};
    ghost use Rattle.target_law.specs.InSight.{MarkedInner, rules_in_sight, owns_in_sight, values_in_sight};

    type Core = T::Core;

    type Chan = T::Chan;

    ghost Inner = { MarkedInner T.Inner };

    ghost Channel = { Marked T.Channel };

    ghost values = { values_in_sight T.values };

    ghost rules = { λ t. rules_in_sight (T.rules t.target.now) };

    ghost owns = { λ t. owns_in_sight (T.owns t.target.now) };

    fn cores(&self) -> u32 {
        self.target.cores()
    }

    fn channels(&self) -> u32 {
        self.target.channels()
    }

    fn lookahead(&self) -> u64 {
        self.target.lookahead()
    }

    fn channel_of(&self, ask: &Ask) -> u32 {
        self.target.channel_of(ask)
    }

    fn number_of(&self, core: &T::Core) -> u32 {
        self.target.number_of(core)
    }

    fn ask_is_proper(&self, ask: &Ask) -> bool {
        self.target.ask_is_proper(ask)
    }

    fn post_is_proper(&self, core: u32, post: &Post) -> bool {
        self.target.post_is_proper(core, post)
    }

    fn ended(&self, core: &T::Core) -> bool {
        self.target.ended(core)
    }

    fn put(&self, core: &mut T::Core, post: Post) -> Result<(), OutOfMemory> {
        self.target.put(core, post)
    }

    fn tick(&self, core: &mut T::Core, cycle: u64, out: &mut AskList) -> Result<(), OutOfMemory> {
        self.target.tick(core, cycle, out)
    }

    fn serve(&self, chan: &mut T::Chan, ask: &Ask, out: &mut PostList) -> Result<(), OutOfMemory> {
        self.target.serve(chan, ask, out)
    }

    fn clash(&self, chan: &T::Chan, ask: &Ask) -> Option<Id> {
        self.target.clash(chan, ask)
    }

    fn close(&self, chan: &mut T::Chan) {
        self.target.close(chan);
    }

    fn touched(&self, core: &T::Core, post: &Post) -> u64 {
        self.target.touched(core, post)
    }

    fn mark_core(&self, _core: &mut T::Core) -> Result<(), OutOfMemory> {
        Err(OutOfMemory)
    }

    fn undo_core(&self, _core: &mut T::Core) {}

    fn keep_core(&self, _core: &mut T::Core) {}

    fn mark_chan(&self, _chan: &mut T::Chan) -> Result<(), OutOfMemory> {
        Err(OutOfMemory)
    }

    fn undo_chan(&self, _chan: &mut T::Chan) {}

    fn keep_chan(&self, _chan: &mut T::Chan) {}

    ghost laws = { λ t. laws_in_sight (T.rules t.target.now) (T.owns t.target.now) (T.laws t.target.now) };
}
