//! What a turn does at all desks at once.
ghost use Rattle.std.specs.Prelude.{◌≡◌, ◌<◌, ◌≤◌, ◌⊎◌, [], OnOk, length, map, All};
ghost use Rattle.core_gate.specs.Seats.{cores_of, SameOverseer};
ghost use Rattle.stamp_queue.specs.Rings.{HandsOver, SameReceiver};
ghost use Rattle.manager.specs.Places.{PlacePairs};
ghost use Rattle.manager.specs.Leads.{Sent, Received};
ghost use Rattle.manager.specs.Queues.{queues_of};

use crate::managers::Desk;
use core_gate::Overseer;
use slack_base::{Ask, OutOfMemory, Post};
use stamp_queue::AskReceiver;
use std::collections::VecDeque;

/// The most asks that are received from one ring in a turn: no ring has more slots.
const MOST_RECEIVED: u32 = u32::MAX;

/// Pushes what waits into the rings, as far as they show room.
pub(crate) fn flush_all(desks: &mut Vec<Desk>)
    ensures desks { PlacePairs (Sent []) desks.old.items desks.new.items }
    ensures queues { queues_of desks.new.items ≡ queues_of desks.old.items }
{
    for place in 0..desks.len() {
        desks[place].posts.flush();
    }
}

/// Looks at the clock of each of the first cores once.
pub(crate) fn look_all(overseer: &mut Overseer, cores: u32)
    requires { cores ≤ cores_of overseer.old }
    ensures global { overseer.new.global ≡ overseer.old.global }
    ensures same { SameOverseer overseer.old overseer.new }
{
    for core in 0..cores {
        overseer.look(core);
    }
}

/// Receives all that a ring shows.
fn receive(asks: &mut AskReceiver, pending: &mut VecDeque<Ask>) -> Result<(), OutOfMemory>
    ensures items { OnOk result (HandsOver asks.old asks.new pending.old.items pending.new.items) }
    ensures same { SameReceiver asks.old asks.new }
{
    for _ in 0..MOST_RECEIVED {
        let Some(ask) = asks.receive() else {
            return Ok(());
        };
        pending.push_back(ask)?;
    }
    Ok(())
}

/// Receives all that each ring shows.
pub(crate) fn receive_all(desks: &mut Vec<Desk>) -> Result<(), OutOfMemory>
    ensures { OnOk result (PlacePairs Received desks.old.items desks.new.items) }
{
    for place in 0..desks.len() {
        let desk = &mut desks[place];
        receive(&mut desk.asks, &mut desk.pending)?;
    }
    Ok(())
}

/// Sends each post on the ring of the core that it is addressed to.
pub(crate) fn send_all(posts: &[Post], desks: &mut Vec<Desk>) -> Result<(), OutOfMemory>
    requires { All (λ p. p.to < length desks.old.items) posts.now }
    ensures desks { OnOk result (PlacePairs (Sent posts.now) desks.old.items desks.new.items) }
    ensures queues { OnOk result (queues_of desks.new.items ≡ queues_of desks.old.items) }
{
    for post in posts {
        desks[post.to as usize].posts.send(*post)?;
    }
    Ok(())
}
