//! A core in a world, with what waits between it and the channels.
ghost use Rattle.std.specs.Prelude.{◌≡◌, ◌++◌, OnOk};
ghost use Rattle.target_law.specs.Alone.{touch_of};
ghost use Rattle.target_law.specs.Proper.{IsPostTo};

use slack_base::{Ask, AskList, OutOfMemory, Post, PostKind, Taken, TakenList};
use std::alloc::Global;
use std::collections::VecDeque;
use target_law::Target;

/// A core at its own clock, its asks that weren't served yet and the posts that it hasn't taken yet, the oldest first, and
/// the posts that it took.
#[derive(Drop)]
pub struct Lane<C: Drop> {
    pub core: C,
    pub clock: u64,
    pub asks: VecDeque<Ask>,
    pub posts: VecDeque<Post>,
    pub taken: TakenList,
}

impl<C: Send + Drop> Lane<C> {
    ghost use Rattle.std.specs.Prelude.{◌≡◌, ◌<◌, ◌≤◌, [], OnOk};
    ghost use Rattle.slack_base.specs.declared.bounds.TheConstants.{TOP};
    ghost use Rattle.target_law.specs.Proper.{IsCore};
    ghost use Rattle.drive_script.specs.Open.{IsNextTo};
    ghost use Rattle.drive_script.specs.Views.{lane_of};
    ghost use Rattle.drive_script.specs.Worlds.{lane_ticked, lane_taking};

    /// A core at a clock, for which nothing waits. It takes no memory.
    pub fn new(alloc: Global, core: C, clock: u64) -> Lane<C>
        ensures core { result.core ≡ core }
        ensures clock { result.clock ≡ clock }
        ensures asks { result.asks.items ≡ [] }
        ensures posts { result.posts.items ≡ [] }
        ensures taken { result.taken ≡ [] }
    {
        Lane {
            core,
            clock,
            asks: VecDeque::new(alloc),
            posts: VecDeque::new(alloc),
            taken: TakenList::new(alloc),
        }
    }

    /// A core below the end clock ticks at its clock, and its asks wait. `asks` is room for them.
    pub fn tick<T: Target<Core = C>>(
        &mut self,
        target: &T,
        end: u64,
        asks: &mut AskList,
    ) -> Result<(), OutOfMemory>
        requires end { end ≤ TOP }
        requires core { IsCore (T.rules target.now) (T.owns target.now) (T.values.core self.old.core) }
        ensures { OnOk result (lane_of T.values self.new ≡ lane_ticked (T.rules target.now) end (lane_of T.values self.old)) }
    {
        if self.clock >= end {
            return Ok(());
        }
        asks.clear();
        target.tick(&mut self.core, self.clock, asks)?;
        queue_all(&mut self.asks, asks.as_slice())?;
        self.clock += 1;
        Ok(())
    }

    /// The core takes the oldest of the posts that wait for it, at its clock.
    pub fn take<T: Target<Core = C>>(&mut self, target: &T) -> Result<(), OutOfMemory>
        requires { IsNextTo (T.rules target.now) ((T.rules target.now).core_number (T.values.core self.old.core).inner) self.old.posts.items }
        ensures { OnOk result (lane_of T.values self.new ≡ lane_taking (T.rules target.now) self.old.posts.items (lane_of T.values self.old)) }
    {
        let Some(post) = self.posts.pop_front() else {
            return Ok(());
        };
        let touched = touch(target, &self.core, &post);
        let clock = self.clock;
        self.taken.push(Taken {
            post,
            clock,
            touched,
        })?;
        target.put(&mut self.core, post)?;
        Ok(())
    }
}

/// Puts asks behind those that wait.
fn queue_all(queue: &mut VecDeque<Ask>, asks: &[Ask]) -> Result<(), OutOfMemory>
    ensures { OnOk result (queue.new.items ≡ queue.old.items ++ asks.now) }
{
    for ask in asks {
        queue.push_back(*ask)?;
    }
    Ok(())
}

/// The core's touch for an Invalidate, and 0 for every other post.
pub fn touch<C: Send + Drop, T: Target<Core = C>>(target: &T, core: &C, post: &Post) -> u64
    requires { IsPostTo (T.rules target.now) ((T.rules target.now).core_number (T.values.core core.now).inner) post.now }
    ensures { result ≡ touch_of (T.rules target.now) (T.values.core core.now).inner post.now }
{
    match post.kind {
        PostKind::Invalidate => target.touched(core, post),
        _ => 0,
    }
}
