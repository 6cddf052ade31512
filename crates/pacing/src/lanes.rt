//! A core in a drift, with its asks of the piece and the posts that it took.
ghost use Rattle.std.specs.Prelude.{◌≡◌};

use drive_script::lanes::touch;
use slack_base::{AskList, OutOfMemory, Post, Taken, TakenList};
use std::alloc::Global;
use target_law::{Target, advance_to};

/// A core, the asks that it sent in its last piece, and the posts that it took so far.
#[derive(Drop)]
pub struct Lane<C: Drop> {
    pub core: C,
    pub asks: AskList,
    pub taken: TakenList,
}

impl<C: Send + Drop> Lane<C> {
    ghost use Rattle.std.specs.Prelude.{◌≡◌, ◌+◌, ◌≤◌, [], OnOk};
    ghost use Rattle.slack_base.specs.declared.bounds.TheConstants.{TOP};
    ghost use Rattle.target_law.specs.Proper.{IsCore, IsPostTo};
    ghost use Rattle.pacing.specs.Pieces.{lane_ticked, lane_taking};
    ghost use Rattle.pacing.specs.Views.{lane_of, ticked_of};

    /// A core that sent and took nothing. It takes no memory.
    pub fn new(alloc: Global, core: C) -> Lane<C>
        ensures core { result.core ≡ core }
        ensures taken { result.taken ≡ [] }
    {
        Lane {
            core,
            asks: AskList::new(alloc),
            taken: TakenList::new(alloc),
        }
    }

    /// The core ticks by itself through so many cycles from a clock.
    pub(crate) fn tick<T: Target<Core = C>>(
        &mut self,
        target: &T,
        from: u64,
        len: u64,
    ) -> Result<(), OutOfMemory>
        requires end { from + len ≤ TOP }
        requires core { IsCore (T.rules target.now) (T.owns target.now) (T.values.core self.old.core) }
        ensures { OnOk result (ticked_of T.values self.new ≡ lane_ticked (T.rules target.now) from len (lane_of T.values self.old)) }
    {
        self.asks.clear();
        advance_to(target, &mut self.core, from, from + len, &mut self.asks)?;
        Ok(())
    }

    /// The core takes a post at a clock.
    pub(crate) fn take<T: Target<Core = C>>(
        &mut self,
        target: &T,
        post: Post,
        clock: u64,
    ) -> Result<(), OutOfMemory>
        requires { IsPostTo (T.rules target.now) ((T.rules target.now).core_number (T.values.core self.old.core).inner) post }
        ensures { OnOk result (lane_of T.values self.new ≡ lane_taking (T.rules target.now) clock post (lane_of T.values self.old)) }
    {
        let touched = touch(target, &self.core, &post);
        self.taken.push(Taken {
            post,
            clock,
            touched,
        })?;
        target.put(&mut self.core, post)
    }
}
