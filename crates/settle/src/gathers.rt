//! What was left in the rings waits at the cores.
ghost use Rattle.std.specs.Prelude.{◌≡◌, ◌++◌, List, OnOk, IfOk, length};
ghost use Rattle.slack_base.specs.declared.messages.Ask.{Ask};
ghost use Rattle.slack_base.specs.declared.messages.Post.{Post};
ghost use Rattle.stamp_queue.specs.Rings.{all_sent, all_received, AreEnds};
ghost use Rattle.manager.specs.Places.{PlacePairs};
ghost use Rattle.settle.specs.Gathers.{AreLinked, Gathered, AreGathered};

use crate::parts::Part;
use drive_script::lanes::Lane;
use manager::Desk;
use slack_base::{Ask, AskList, OutOfMemory, Post, PostList};
use stamp_queue::{AskReceiver, AskSender, PostReceiver, PostSender, drain_asks, drain_posts};
use std::alloc::Global;
use std::collections::VecDeque;

/// Puts items behind those that wait.
fn queue_all<X: Copy + Drop>(queue: &mut VecDeque<X>, items: &[X]) -> Result<(), OutOfMemory>
    ensures { OnOk result (queue.new.items ≡ queue.old.items ++ items.now) }
{
    for item in items {
        queue.push_back(*item)?;
    }
    Ok(())
}

/// The asks that wait, and behind them those that are left in the ring.
fn fetch_asks(
    alloc: Global,
    mut sender: AskSender,
    mut receiver: AskReceiver,
    mut waiting: VecDeque<Ask>,
) -> Result<VecDeque<Ask>, OutOfMemory>
    requires { AreEnds sender receiver }
    ensures { IfOk result (λ asks. (before : List Ask) → all_received receiver ≡ before ++ waiting.items → all_sent sender ≡ before ++ asks.items) }
{
    let mut left = AskList::new(alloc);
    drain_asks(&mut sender, &mut receiver, &mut left)?;
    queue_all(&mut waiting, left.as_slice())?;
    Ok(waiting)
}

/// The posts that wait, and behind them those that are left in the ring.
fn fetch_posts(
    alloc: Global,
    mut sender: PostSender,
    mut receiver: PostReceiver,
    mut waiting: VecDeque<Post>,
) -> Result<VecDeque<Post>, OutOfMemory>
    requires { AreEnds sender receiver }
    ensures { IfOk result (λ posts. (before : List Post) → all_received receiver ≡ before ++ waiting.items → all_sent sender ≡ before ++ posts.items) }
{
    let mut left = PostList::new(alloc);
    drain_posts(&mut sender, &mut receiver, &mut left)?;
    queue_all(&mut waiting, left.as_slice())?;
    Ok(waiting)
}

/// The lane of a core, by its desk and its part.
fn lane_of<C: Drop>(alloc: Global, desk: Desk, part: Part<C>) -> Result<Lane<C>, OutOfMemory>
    requires { AreLinked desk part }
    ensures { IfOk result (Gathered desk part) }
{
    let asks = fetch_asks(alloc, part.asks, desk.asks, desk.pending)?;
    let posts = fetch_posts(alloc, desk.posts, part.posts, part.waiting)?;
    Ok(Lane {
        core: part.core,
        clock: part.clock,
        asks,
        posts,
        taken: part.taken,
    })
}

/// The lanes of all cores, in core order.
pub(crate) fn gather<C: Drop>(
    alloc: Global,
    desks: Vec<Desk>,
    parts: Vec<Part<C>>,
) -> Result<Vec<Lane<C>>, OutOfMemory>
    requires { PlacePairs (λ c. AreLinked) desks.items parts.items }
    ensures { IfOk result (λ lanes. AreGathered desks.items parts.items lanes.items) }
{
    let mut lanes = Vec::with_capacity(alloc, parts.len())?;
    for (desk, part) in desks.into_iter().zip(parts) {
        lanes.push(lane_of(alloc, desk, part)?)?;
    }
    Ok(lanes)
}
