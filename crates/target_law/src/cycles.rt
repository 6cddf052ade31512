//! One cycle of a target, and one after another.
ghost use Rattle.std.specs.Prelude.{◌≡◌, ◌+◌, ◌-◌, ◌<◌, ◌≤◌, ◌++◌, length, map, [], All, OnOk};
ghost use Rattle.std.specs.List.{list_all};
ghost use Rattle.slack_base.specs.declared.bounds.TheConstants.{TOP};
ghost use Rattle.target_law.specs.Cycles.{ticked, asks_of, through, delivered, cycle as cycle_of, lockstep, all_ended};
ghost use Rattle.target_law.specs.Numbered.{AllNumbered};
ghost use Rattle.target_law.specs.Proper.{IsProper, IsPunctual, IsProperAsk, IsProperPost, IsCoreOf, IsChanOf};
ghost use Rattle.target_law.specs.Views.{state_of};

use crate::states::State;
use crate::targets::Target;
use slack_base::{Ask, AskList, OutOfMemory, Post, PostList};
use std::alloc::Global;

/// The messages of one cycle. Its lists are used again in each cycle.
#[derive(Drop)]
struct Messages {
    asks: AskList,
    posts: PostList,
}

impl Messages {
    ghost use Rattle.std.specs.Prelude.{◌≡◌, []};

    /// No messages. It takes no memory.
    fn new(alloc: Global) -> Messages {
        Messages {
            asks: AskList::new(alloc),
            posts: PostList::new(alloc),
        }
    }

    /// Lets go of all messages, and keeps the memory.
    fn clear(&mut self)
        ensures asks { self.new.asks ≡ [] }
        ensures posts { self.new.posts ≡ [] }
    {
        self.asks.clear();
        self.posts.clear();
    }
}

/// One tick of each core, in core order. The asks are appended.
fn tick_all<C: Send + Drop, T: Target<Core = C>>(
    target: &T,
    cores: &mut [C],
    cycle: u64,
    asks: &mut AskList,
) -> Result<(), OutOfMemory>
    requires clock { cycle ≤ TOP }
    requires cores { AllNumbered (IsCoreOf (T.rules target.now) (T.owns target.now)) 0 (map T.values.core cores.old) }
    ensures cores { OnOk result (map T.values.core cores.new ≡ ticked (T.rules target.now) cycle (map T.values.core cores.old)) }
    ensures asks { OnOk result (asks.new ≡ asks.old ++ asks_of (T.rules target.now) cycle (map T.values.core cores.old)) }
{
    for core in cores.iter_mut() {
        target.tick(core, cycle, asks)?;
    }
    Ok(())
}

/// Serves asks one after another, each on its channel. The posts are appended.
pub fn serve_all<D: Send + Drop, T: Target<Chan = D>>(
    target: &T,
    chans: &mut [D],
    asks: &[Ask],
    posts: &mut PostList,
) -> Result<(), OutOfMemory>
    requires count { length chans.old ≡ (T.rules target.now).channels }
    requires chans { AllNumbered (IsChanOf (T.rules target.now) (T.owns target.now)) 0 (map T.values.chan chans.old) }
    requires asks { All (IsProperAsk (T.rules target.now)) asks.now }
    ensures chans { OnOk result (map T.values.chan chans.new ≡ (through (T.rules target.now) (map T.values.chan chans.old) asks.now).chans) }
    ensures posts { OnOk result (posts.new ≡ posts.old ++ (through (T.rules target.now) (map T.values.chan chans.old) asks.now).posts) }
{
    for ask in asks {
        let number = target.channel_of(ask);
        target.serve(&mut chans[number as usize], ask, posts)?;
    }
    Ok(())
}

/// Closes each channel.
pub fn close_all<D: Send + Drop, T: Target<Chan = D>>(target: &T, chans: &mut [D])
    requires { AllNumbered (IsChanOf (T.rules target.now) (T.owns target.now)) 0 (map T.values.chan chans.old) }
    ensures { map T.values.chan chans.new ≡ map (T.rules target.now).close (map T.values.chan chans.old) }
{
    for chan in chans.iter_mut() {
        target.close(chan);
    }
}

/// Closes each channel after these asks were served: where there was none, the channels are closed as they were.
fn close_after<D: Send + Drop, T: Target<Chan = D>>(target: &T, chans: &mut [D], asks: &[Ask])
    requires chans { AllNumbered (IsChanOf (T.rules target.now) (T.owns target.now)) 0 (map T.values.chan chans.old) }
    requires closed { asks.now ≡ [] → All (λ chan. (T.rules target.now).close chan ≡ chan) (map T.values.chan chans.old) }
    ensures { map T.values.chan chans.new ≡ map (T.rules target.now).close (map T.values.chan chans.old) }
{
    if !asks.is_empty() {
        close_all(target, chans);
    }
}

/// Puts posts into the inboxes of the cores that they are addressed to, one after another.
pub fn deliver_all<C: Send + Drop, T: Target<Core = C>>(
    target: &T,
    cores: &mut [C],
    posts: &[Post],
) -> Result<(), OutOfMemory>
    requires count { length cores.old ≡ (T.rules target.now).cores }
    requires cores { AllNumbered (IsCoreOf (T.rules target.now) (T.owns target.now)) 0 (map T.values.core cores.old) }
    requires posts { All (IsProperPost (T.rules target.now)) posts.now }
    ensures { OnOk result (map T.values.core cores.new ≡ delivered (map T.values.core cores.old) posts.now) }
{
    for post in posts {
        target.put(&mut cores[post.to as usize], *post)?;
    }
    Ok(())
}

/// One cycle, with room for its messages.
fn cycle_with<T: Target>(
    target: &T,
    state: &mut State<T>,
    messages: &mut Messages,
) -> Result<(), OutOfMemory>
    requires clock { state.old.clock < TOP }
    requires proper { IsProper (T.rules target.now) (T.owns target.now) (state_of T.values state.old) }
    ensures state { OnOk result (state_of T.values state.new ≡ cycle_of (T.rules target.now) (state_of T.values state.old)) }
    ensures clock { OnOk result (state.new.clock ≡ state.old.clock + 1) }
    ensures proper { OnOk result (IsProper (T.rules target.now) (T.owns target.now) (state_of T.values state.new)) }
    ensures punctual { OnOk result (IsPunctual (state_of T.values state.new)) }
{
    messages.clear();
    let cores = state.cores.as_mut_slice();
    let chans = state.chans.as_mut_slice();
    tick_all(target, cores, state.clock, &mut messages.asks)?;
    let asks = messages.asks.as_slice();
    serve_all(target, chans, asks, &mut messages.posts)?;
    close_after(target, chans, asks);
    deliver_all(target, cores, messages.posts.as_slice())?;
    state.clock += 1;
    Ok(())
}

/// One cycle. Where memory is wanting, the state is left in the middle of it.
pub fn cycle<T: Target>(alloc: Global, target: &T, state: &mut State<T>) -> Result<(), OutOfMemory>
    requires clock { state.old.clock < TOP }
    requires proper { IsProper (T.rules target.now) (T.owns target.now) (state_of T.values state.old) }
    ensures state { OnOk result (state_of T.values state.new ≡ cycle_of (T.rules target.now) (state_of T.values state.old)) }
    ensures proper { OnOk result (IsProper (T.rules target.now) (T.owns target.now) (state_of T.values state.new)) }
    ensures punctual { OnOk result (IsPunctual (state_of T.values state.new)) }
{
    cycle_with(target, state, &mut Messages::new(alloc))
}

/// The cycles up to a clock. Where memory is wanting, the state is left in the middle of one.
pub fn run_to<T: Target>(
    alloc: Global,
    target: &T,
    state: &mut State<T>,
    clock: u64,
) -> Result<(), OutOfMemory>
    requires order { state.old.clock ≤ clock }
    requires top { clock ≤ TOP }
    requires proper { IsProper (T.rules target.now) (T.owns target.now) (state_of T.values state.old) }
    ensures state { OnOk result (state_of T.values state.new ≡ lockstep (T.rules target.now) (state_of T.values state.old) (clock - state.old.clock)) }
    ensures clock { OnOk result (state.new.clock ≡ clock) }
    ensures proper { OnOk result (IsProper (T.rules target.now) (T.owns target.now) (state_of T.values state.new)) }
    ensures punctual { OnOk result (IsPunctual (state_of T.values state.old) → IsPunctual (state_of T.values state.new)) }
{
    let mut messages = Messages::new(alloc);
    while state.clock < clock {
        cycle_with(target, state, &mut messages)?;
    }
    Ok(())
}

/// Whether all cores have ended.
pub fn stopped<T: Target>(target: &T, state: &State<T>) -> bool
    ensures { result ≡ all_ended (T.rules target.now) (state_of T.values state.now) }
{
    all_have_ended(target, state.cores.as_slice())
}

/// Whether all of these cores have ended.
fn all_have_ended<C: Send + Drop, T: Target<Core = C>>(target: &T, cores: &[C]) -> bool
    ensures { result ≡ list_all (λ core. (T.rules target.now).has_ended (T.values.core core).inner) cores.now }
{
    cores.iter().all(|core| target.ended(core))
}
